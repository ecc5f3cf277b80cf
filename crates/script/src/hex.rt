// Octets in hex.
ghost use Rattle.std.specs.Prelude.{◌≡◌, ◌*◌, ◌≤◌, ◌<◌, length, IfSome};
ghost use Rattle.octets.specs.Octets.{front};
ghost use Rattle.script.specs.Hex.{hex_digit, hex_pair, hex_octets, decoded, octets_read, octets_stored};

// The value of a hex digit of either case.
fn hex_digit(octet: u8) -> Option<u8>
    ensures value { result ≡ hex_digit octet }
    ensures small { IfSome result (λ d. d < 16) }
{
    match octet {
        b'0'..=b'9' => Some(octet - b'0'),
        b'A'..=b'F' => Some(octet - b'A' + 10),
        b'a'..=b'f' => Some(octet - b'a' + 10),
        _ => None,
    }
}

// The octet of two hex digits.
fn hex_pair(high: u8, low: u8) -> Option<u8>
    ensures { result ≡ hex_pair high low }
{
    Some(hex_digit(high)? * 16 + hex_digit(low)?)
}

// Reads n octets to the front of the room, up to the first that is none.
fn decode(word: &[u8], room: &mut [u8], n: usize) -> Option<usize>
    requires { (2 * n ≤ length word.now) × (n ≤ length room.old) }
    ensures value { (result ≡ decoded n word.now) × (room.new ≡ front (hex_octets n word.now) room.old) }
    ensures within { IfSome result (λ k. k ≤ n) }
{
    for i in 0..n {
        room[i] = hex_pair(word[2 * i], word[2 * i + 1])?;
    }
    Some(n)
}

// How many octets a word says, which go to the front of the room: `-` is none of them.
pub fn read_octets(word: &[u8], room: &mut [u8]) -> Option<usize>
    ensures value { (result ≡ octets_read (length room.old) word.now)
        × (room.new ≡ front (octets_stored (length room.old) word.now) room.old) }
    ensures within { IfSome result (λ n. n ≤ length room.old) }
{
    if word == b"-".as_slice() {
        return Some(0);
    }
    let n = word.len() / 2;
    if word.is_empty() || word.len() % 2 == 1 || room.len() < n {
        return None;
    }
    decode(word, room, n)
}
