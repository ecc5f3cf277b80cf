// Unknown elements: which they are, where the first stands, and the identifiers that are told (document 02, R-5).
//   is_known                   does an identifier count as known?
//   Unknown, first_unknown     where the first unknown element from a place on stands
//   Skipped, skipped_in        the identifiers of the first 8 unknown ones
// `m` is any octets, and `from` the place of the first element: 9 in a message.
// Nothing public has a `requires`. Assumes nothing.
#![tactic(auto)]

ghost use Rattle.std.specs.Prelude.{◌≡◌};
ghost use Rattle.items.specs.Items.{items};
ghost use Rattle.unknown.specs.Unknown.{known, first_unknown, unknown_in, from_first, told, skipped_of};

use items::Item;

// The elements that have a rule, and those that are skipped without a word.
const KNOWN: [u8; 21] = [
    0x08, 0x14, 0x59, 0x5A, 0x5C, 0x5E, 0x70, 0x79, 0x54, 0x55, 0x58, 0x5D, 0x5F, 0x60, 0x61, 0x62,
    0x63, 0x6C, 0x6D, 0x71, 0x78,
];

// How many identifiers are told.
const MOST_TOLD: usize = 8;

// An unknown element: its identifier, the place where it stands, and the place behind it (the end of the octets where it
// overruns them).
#[derive(Clone, Copy)]
pub struct Unknown {
    pub id: u8,
    pub at: usize,
    pub next: usize,
}

// The identifiers of elements that were skipped, at the front of an array.
// Stays an array with a count: no heap (project rule).
#[derive(Clone, Copy)]
pub struct Skipped {
    pub identifiers: [u8; 8],
    pub count: usize,
}

// Does an identifier count as known?
pub fn is_known(id: u8) -> bool
    ensures { result ≡ known id }
{
    traffic::listed(&KNOWN, id)
}

// Where the first unknown element from a place on stands.
#[tactic(auto, using(items::proofs::Items::met, items::proofs::Items::moved, crate::proofs::First::none_behind))]
pub fn first_unknown(m: &[u8], from: usize) -> Option<Unknown>
    ensures value { result ≡ first_unknown m.now from (items m.now from) }
    ensures first { unknown_in (items m.now from) ≡ from_first m.now result }
{
    let mut at = from;
    loop {
        match items::item_at(m, at) {
            Item::Whole { id, end, .. } if is_known(id) => at = end,
            Item::Whole { id, end: next, .. } => return Some(Unknown { id, at, next }),
            Item::Overrun(id) if !is_known(id) => return Some(Unknown {
                id,
                at,
                next: m.len(),
            }),
            _ => return None,
        }
    }
}

// The identifiers of the first 8 unknown elements in message order, as a STATUS tells them.
pub fn skipped_in(m: &[u8], from: usize) -> Skipped
    ensures { result ≡ skipped_of (told m.now from) }
{
    let mut identifiers = [0; 8];
    let mut at = from;
    for count in 0..MOST_TOLD {
        let Some(found) = first_unknown(m, at) else {
            return Skipped { identifiers, count };
        };
        identifiers[count] = found.id;
        at = found.next;
    }
    Skipped {
        identifiers,
        count: MOST_TOLD,
    }
}
