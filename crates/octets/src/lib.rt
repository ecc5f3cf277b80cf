// Numbers in octets, and writing octets at a place of a lent room.
//   wide      an octet as a usize
//   number    a 16-bit number from its two octets, high octet first
//   octet_at  an octet, 0 where there is none
//   same      if two runs of octets are the same
//   put       octets at a place of a room
// `put` asks for room; nothing else has a `requires`. Assumes nothing.
#![tactic(auto)]

ghost use Rattle.std.specs.Prelude.{◌≡◌, ◌+◌, ◌≤◌, length, get_or};
ghost use Rattle.octets.specs.Octets.{number, equal, Wrote};

// An octet as a usize.
pub fn wide(octet: u8) -> usize
    ensures { result ≡ octet }
{
    usize::from(octet)
}

// A 16-bit number from its two octets.
pub fn number(high: u8, low: u8) -> u16
    ensures { result ≡ number high low }
{
    u16::from_be_bytes([high, low])
}

// The octet at a place, 0 where there is none.
pub fn octet_at(c: &[u8], at: usize) -> u8
    ensures { result ≡ get_or c.now at 0 }
{
    c.get(at).copied().unwrap_or(0)
}

// If two runs have the same octets.
pub fn same(a: &[u8], b: &[u8]) -> bool
    ensures { result ≡ equal a.now b.now }
{
    a == b
}

// Writes all of `octets` at place `at` of the room, and answers the place behind them.
pub fn put(room: &mut [u8], at: usize, octets: &[u8]) -> usize
    requires { at + length octets.now ≤ length room.old }
    ensures next { result ≡ at + length octets.now }
    ensures stored { Wrote room.old at octets.now room.new result }
{
    let end = at + octets.len();
    room[at..end].copy_from_slice(octets);
    end
}
