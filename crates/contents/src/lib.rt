// Readable contents of the listed elements, and the values in them. `c` is an element's contents, of any length.
//   cause_fits, cause_number          08 Cause
//   call_state_fits, call_state       14 Call state
//   connection_fits, connection_in    5A Connection identifier
//   restart_fits, restart_class       79 Restart indicator
//   fits                              the rule of an identifier
// 59 Traffic descriptor is in crate traffic; 5C QoS, 5E Bearer capability and 70 Called number are in crate mandatory.
// Nothing has a `requires`. Assumes nothing.
#![tactic(auto)]

ghost use Rattle.std.specs.Prelude.{◌≡◌};
ghost use Rattle.contents.specs.Contents.{cause_fits, cause_number, call_state_fits, call_state_value, connection_fits, connection_in, restart_fits, restart_class};
ghost use Rattle.contents.specs.Fits.{fits};

use identifier::Pair;
use octets::octet_at;

// 08 Cause.
pub fn cause_fits(c: &[u8]) -> bool
    ensures { result ≡ cause_fits c.now }
{
    2 <= c.len() && 128 <= c[0] && 128 <= c[1]
}

pub fn cause_number(c: &[u8]) -> u8
    ensures { result ≡ cause_number c.now }
{
    octet_at(c, 1) % 128
}

// 14 Call state.
pub fn call_state_fits(c: &[u8]) -> bool
    ensures { result ≡ call_state_fits c.now }
{
    c.len() == 1 && c[0] <= 63
}

pub fn call_state(c: &[u8]) -> u8
    ensures { result ≡ call_state_value c.now }
{
    octet_at(c, 0)
}

// 5A Connection identifier.
pub fn connection_fits(c: &[u8]) -> bool
    ensures { result ≡ connection_fits c.now }
{
    c.len() == 5 && c[0] == 0x88
}

pub fn connection_in(c: &[u8]) -> Pair
    ensures { result ≡ connection_in c.now }
{
    let vpci = octets::number(octet_at(c, 1), octet_at(c, 2));
    let vci = octets::number(octet_at(c, 3), octet_at(c, 4));
    Pair { vpci, vci }
}

// 79 Restart indicator.
pub fn restart_fits(c: &[u8]) -> bool
    ensures { result ≡ restart_fits c.now }
{
    c.len() == 1 && matches!(c[0], 0x80 | 0x82)
}

pub fn restart_class(c: &[u8]) -> u8
    ensures { result ≡ restart_class c.now }
{
    octet_at(c, 0)
}

// The rule of an identifier; nothing fits one that is not listed.
pub fn fits(id: u8, c: &[u8]) -> bool
    ensures { result ≡ fits id c.now }
{
    match id {
        0x08 => cause_fits(c),
        0x14 => call_state_fits(c),
        0x59 => traffic::traffic_fits(c),
        0x5A => connection_fits(c),
        0x5C => mandatory::qos_fits(c),
        0x5E => mandatory::bearer_fits(c),
        0x70 => mandatory::called_fits(c),
        0x79 => restart_fits(c),
        _ => false,
    }
}
