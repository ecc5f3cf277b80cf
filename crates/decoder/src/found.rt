// Prints what is found of each element of a message: a label, and then `absent`, `unreadable` or what it says.
//   cause, call_state, traffic, connection, bearer, restart    one element
//   readable                                                   an element of which nothing more is printed
//   offer                                                      whether the elements are an offer's body
// Assumes nothing.
ghost use Rattle.elements.specs.Elements.{IfReadable};

use elements::{Configuration, Part, Read};
use identifier::Pair;
use std::io::Result;
use traffic::{has_subfield, traffic_allowed};

// An element's identifier, between blanks.
fn label(rt: &impl Print, id: u8) -> Result<()> {
    print!(rt; " {id:02X} ")
}

// What is read of an element: `absent`, `unreadable`, or what `print` prints.
fn found<T, F: FnOnce(T) -> Result<()>>(rt: &impl Print, read: Read<T>, print: F) -> Result<()>
    requires { IfReadable read (F.pre print) }
{
    match read {
        Read::Absent => print!(rt; "absent"),
        Read::Unreadable => print!(rt; "unreadable"),
        Read::Readable(value) => print(value),
    }
}

// 08 Cause: its number.
pub(crate) fn cause(rt: &impl Print, m: &[u8]) -> Result<()> {
    label(rt, 0x08)?;
    found(rt, elements::cause(m, 9), |n| print!(rt; "{n}"))
}

// 14 Call state.
pub(crate) fn call_state(rt: &impl Print, m: &[u8]) -> Result<()> {
    label(rt, 0x14)?;
    found(rt, elements::call_state(m, 9), |n| print!(rt; "{n}"))
}

// Prints an identifier if its subfield is there, behind a comma if another was printed; answers whether one is printed by now.
fn subfield(rt: &impl Print, c: &[u8], id: u8, printed: bool) -> Result<bool> {
    if !has_subfield(c, id) {
        return Ok(printed);
    }
    if printed {
        print!(rt; ",")?;
    }
    print!(rt; "{id:02x}")?;
    Ok(true)
}

// The identifiers of the subfields that are there, ascending.
fn subfields(rt: &impl Print, c: &[u8]) -> Result<()> {
    let mut printed = false;
    for id in 0..=u8::MAX {
        printed = subfield(rt, c, id, printed)?;
    }
    if !printed {
        print!(rt; "none")?;
    }
    Ok(())
}

fn yes_or_no(rt: &impl Print, yes: bool) -> Result<()> {
    if yes {
        print!(rt; "yes")
    } else {
        print!(rt; "no")
    }
}

// 59 Traffic descriptor: its subfields, and whether the traffic rule allows it.
pub(crate) fn traffic(rt: &impl Print, m: &[u8]) -> Result<()> {
    label(rt, 0x59)?;
    let read = elements::look_for(m, 9, 0x59);
    found(rt, read, |part| subfields(rt, &m[part.start..part.end]))?;
    print!(rt; " traffic ")?;
    yes_or_no(
        rt,
        matches!(read, Read::Readable(Part { start, end }) if traffic_allowed(&m[start..end])),
    )
}

// 5A Connection identifier: VPCI and VCI.
pub(crate) fn connection(rt: &impl Print, m: &[u8]) -> Result<()> {
    label(rt, 0x5A)?;
    found(rt, elements::connection(m, 9), |pair| {
        let Pair { vpci, vci } = pair;
        print!(rt; "{vpci}/{vci}")
    })
}

// 5C QoS and 70 Called number: that it is readable.
pub(crate) fn readable(rt: &impl Print, m: &[u8], id: u8) -> Result<()> {
    label(rt, id)?;
    found(
        rt,
        elements::look_for(m, 9, id),
        |_part| print!(rt; "readable"),
    )
}

// 5E Bearer capability.
pub(crate) fn bearer(rt: &impl Print, m: &[u8]) -> Result<()> {
    label(rt, 0x5E)?;
    found(
        rt,
        elements::bearer(m, 9),
        |configuration| match configuration {
            Configuration::PointToPoint => print!(rt; "point"),
            Configuration::Multipoint => print!(rt; "multi"),
        },
    )
}

// 79 Restart indicator: its class.
pub(crate) fn restart(rt: &impl Print, m: &[u8]) -> Result<()> {
    label(rt, 0x79)?;
    found(
        rt,
        elements::restart(m, 9),
        |class| print!(rt; "{class:02x}"),
    )
}

fn is_offer(m: &[u8]) -> bool {
    9 <= m.len() && m.len() <= 521 && setup::offer_fits(&m[9..])
}

// Whether the octets after octet 9 are an offer's body of at most 512 octets.
pub(crate) fn offer(rt: &impl Print, m: &[u8]) -> Result<()> {
    print!(rt; " offer ")?;
    yes_or_no(rt, is_offer(m))
}
