// Readable contents of the elements that SETUP must have, but for 59, which is in crate traffic. `c` is an element's contents, of any length.
//   qos_fits                      5C QoS
//   bearer_fits, is_multipoint    5E Bearer capability
//   digits_from, called_fits      70 Called number
// Nothing has a `requires`. Assumes nothing.
#![tactic(auto)]

ghost use Rattle.std.specs.Prelude.{◌≡◌, drop};
ghost use Rattle.mandatory.specs.Mandatory.{qos_fits, bearer_last, bearer_of_two, bearer_of_three, bearer_fits, multipoint, digits, called_fits};

use octets::octet_at;

// 5C QoS.
pub fn qos_fits(c: &[u8]) -> bool
    ensures { result ≡ qos_fits c.now }
{
    c.len() == 2 && c[0] <= 4 && c[1] <= 4
}

// 5E Bearer capability.
fn bearer_last(octet: u8) -> bool
    ensures { result ≡ bearer_last octet }
{
    128 <= octet && octet % 4 <= 1
}

fn bearer_of_two(c: &[u8]) -> bool
    ensures { result ≡ bearer_of_two c.now }
{
    matches!(octet_at(c, 0), 0x81 | 0x83) && bearer_last(octet_at(c, 1))
}

fn bearer_of_three(c: &[u8]) -> bool
    ensures { result ≡ bearer_of_three c.now }
{
    octet_at(c, 0) == 0x10 && 128 <= octet_at(c, 1) && bearer_last(octet_at(c, 2))
}

pub fn bearer_fits(c: &[u8]) -> bool
    ensures { result ≡ bearer_fits c.now }
{
    match c.len() {
        2 => bearer_of_two(c),
        3 => bearer_of_three(c),
        _ => false,
    }
}

pub fn is_multipoint(c: &[u8]) -> bool
    ensures { result ≡ multipoint c.now }
{
    c.last().is_some_and(|octet| octet % 4 == 1)
}

// 70 Called number.
pub fn digits_from(c: &[u8], from: usize) -> bool
    ensures { result ≡ digits (drop from c.now) }
{
    c.iter()
        .skip(from)
        .all(|octet| 0x30 <= *octet && *octet <= 0x39)
}

pub fn called_fits(c: &[u8]) -> bool
    ensures { result ≡ called_fits c.now }
{
    match octet_at(c, 0) {
        0x91 => 2 <= c.len() && c.len() <= 16 && digits_from(c, 1),
        0x82 => c.len() == 21,
        _ => false,
    }
}
