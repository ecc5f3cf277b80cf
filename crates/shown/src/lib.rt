// Whose number is shown to the called side: the calling number of a SETUP, or the lent subscription record.
//   address_fits, calling_fits              6C Calling number: a readable address, readable contents
//   address_at, is_allowed                  .. where its address begins, its presentation
//   is_setup                                is a message to be looked at
//   calling                                 what a message shows of its calling number
//   Extent, locate                          which of the two is shown, where the part begins and how long it is
//   shown                                   that part itself
// `m` and `subscription` are any octets. Nothing is written, nothing is copied, nothing has a `requires`. Assumes nothing.
#![tactic(auto)]

ghost use Rattle.std.specs.Prelude.{◌≡◌, ◌∷◌, length};
ghost use Rattle.mandatory.specs.Mandatory.{called_fits};
ghost use Rattle.header.specs.Header.{head_of};
ghost use Rattle.shown.specs.Calling.{calling_fits, address_at, allowed};
ghost use Rattle.shown.specs.Shown.{passes, calling_in, extent_of, Inside, Within, shown_of, beginning};

use header::MessageType;
use items::Item;
use octets::octet_at;

// Is this an address as the called number has it, behind an octet 5 with its top bit set?
fn address_fits(kind: u8, address: &[u8]) -> bool
    ensures { result ≡ called_fits (kind ∷ address.now) }
{
    match kind {
        0x91 => 1 <= address.len() && address.len() <= 15 && mandatory::digits_from(address, 0),
        0x82 => address.len() == 20,
        _ => false,
    }
}

// Are these readable contents of 6C?
fn calling_fits(c: &[u8]) -> bool
    ensures { result ≡ calling_fits c.now }
{
    let kind = octet_at(c, 0);
    if 128 <= kind {
        return mandatory::called_fits(c);
    }
    128 <= octet_at(c, 1) && address_fits(kind + 128, &c[2..])
}

// Where the address begins in readable contents of 6C.
fn address_at(c: &[u8]) -> usize
    ensures { result ≡ address_at c.now }
{
    if 128 <= octet_at(c, 0) { 1 } else { 2 }
}

// Is presentation allowed?
fn is_allowed(c: &[u8]) -> bool
    ensures { result ≡ allowed c.now }
{
    128 <= octet_at(c, 0) || octet_at(c, 1) / 32 % 4 == 0
}

// Is the message a SETUP that passes steps 1, 2 and 5?
fn is_setup(m: &[u8]) -> bool
    ensures { result ≡ passes (head_of m.now) }
{
    header::read(m).is_some_and(|head| head.whole && head.kind == MessageType::Setup as u8)
}

// What a message shows of its calling number: nothing to go by, or so many octets of the message from a place
// on. Its calling number element is the first 6C.
fn calling(m: &[u8]) -> Option<(usize, usize)>
    ensures value { result ≡ calling_in m.now }
    ensures inside { Inside (length m.now) result }
{
    if !is_setup(m) {
        return None;
    }
    let Item::Whole {
        action: 0x80,
        start,
        end,
        ..
    } = items::first_of(m, 9, 0x6C)
    else {
        return None;
    };
    let c = &m[start..end];
    if !calling_fits(c) {
        return None;
    }
    let at = start + address_at(c);
    let size = if is_allowed(c) { end - at } else { 0 };
    Some((at, size))
}

// Which of the two is shown: the message or the record, so many octets of it from a place on.
#[derive(Clone, Copy)]
pub enum Extent {
    Message(usize, usize),
    Record(usize, usize),
}

pub fn locate(m: &[u8], subscription: &[u8]) -> Extent
    ensures value { result ≡ extent_of m.now subscription.now }
    ensures within { Within (length m.now) (length subscription.now) result }
{
    match calling(m) {
        None => Extent::Record(0, subscription.len()),
        Some((at, n)) => Extent::Message(at, n),
    }
}

// The part itself: its octets, and where in memory it begins.
pub fn shown<'a>(m: &'a [u8], subscription: &'a [u8]) -> &'a [u8]
    ensures octets { result.now ≡ shown_of m.now subscription.now }
    ensures memory { result.ref_ptr ≡ beginning m.entry.ref_ptr subscription.entry.ref_ptr (extent_of m.now subscription.now) }
{
    match locate(m, subscription) {
        Extent::Message(at, n) => &m[at..at + n],
        Extent::Record(at, n) => &subscription[at..at + n],
    }
}
