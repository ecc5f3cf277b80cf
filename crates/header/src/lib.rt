// The header of a message.
//   Header           what it says
//   read             the header of any octets, none where the header checks ignore the message
//   MessageType      the message types that have a rule
// Nothing has a `requires`. Assumes nothing.
#![tactic(auto)]

ghost use Rattle.std.specs.Prelude.{◌≡◌, ◌+◌, ◌*◌, ◌%◌};
ghost use Rattle.header.specs.Header.{head_of};

mod message_type;

pub use message_type::{MessageType, UnknownType};

// `whole`: the length field equals the number of octets after octet 9.
#[derive(Clone, Copy)]
pub struct Header {
    pub flag: bool,
    pub reference: u32,
    pub kind: u8,
    pub whole: bool,
}

// The octets of the call reference as a number, without the flag.
fn reference(top: u8, middle: u8, bottom: u8) -> u32
    ensures { result ≡ (top % 128) * 65536 + middle * 256 + bottom }
{
    u32::from_be_bytes([0, top % 128, middle, bottom])
}

// None: the message is ignored.
pub fn read(m: &[u8]) -> Option<Header>
    ensures { result ≡ head_of m.now }
{
    let [
        0x09,
        0x03,
        top,
        middle,
        bottom,
        kind,
        _,
        high,
        low,
        rest @ ..,
    ] = m
    else {
        return None;
    };
    Some(Header {
        flag: 128 <= *top,
        reference: reference(*top, *middle, *bottom),
        kind: *kind,
        whole: octets::number(*high, *low) as usize == rest.len(),
    })
}
