// Numbers in ASCII, written at a place of a lent buffer.
//   put_decimal     a number below 2^64 in decimal
//   put_octet       a number below 256 in decimal: at most three digits
// Each asks for room; octets around what it writes are unchanged. The buffer and the place stay two parameters: `Wrote`, which each
// ensures, names both. Assumes nothing.
#![tactic(auto)]

ghost use Rattle.std.specs.Prelude.{◌≡◌, ◌+◌, ◌≤◌, ◌<◌, length};
ghost use Rattle.octets.specs.Octets.{Wrote};
ghost use Rattle.ascii.specs.Ascii.{decimal_text};

pub fn put_decimal(out: &mut [u8], at: usize, n: u64) -> usize
    requires { at + 20 ≤ length out.old }
    ensures wrote { Wrote out.old at (decimal_text n) out.new result }
    ensures short { (result ≡ at + length (decimal_text n)) × (at < result) × (result ≤ at + 20) }
{
    let mut digits = [0u8; 20];
    let k = io::decimal(n, &mut digits);
    octets::put(out, at, &digits[..k])
}

pub fn put_octet(out: &mut [u8], at: usize, n: u8) -> usize
    requires { at + 20 ≤ length out.old }
    ensures wrote { Wrote out.old at (decimal_text n) out.new result }
    ensures short { (result ≡ at + length (decimal_text n)) × (at < result) × (result ≤ at + 3) }
{
    put_decimal(out, at, u64::from(n))
}
