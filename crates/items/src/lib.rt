// The elements of octets, one after another.
//   Item, item_at          the element at a place
//   first_of, count        the first element of an identifier; how many there are
//   whole                  are the octets a whole number of elements?
// `m` is any octets, and `from` the place of the first element: 9 in a message, 0 in an offer's body.
// Nothing has a `requires`. Assumes nothing.
#![tactic(auto, using(crate::proofs::Items::met, crate::proofs::Items::moved))]

ghost use Rattle.std.specs.Prelude.{◌≡◌, ◌≤◌, cond, eqb, length};
ghost use Rattle.items.specs.Items.{item_at, items, Inside, first_of, count_of, whole_from};

// What stands at a place: fewer than four octets, an element that overruns (its identifier),
// or a whole one: its identifier, its octet 2, and the start and end of its contents.
#[derive(Clone, Copy)]
pub enum Item {
    End,
    Overrun(u8),
    Whole {
        id: u8,
        action: u8,
        start: usize,
        end: usize,
    },
}

pub fn item_at(m: &[u8], at: usize) -> Item
    ensures { result ≡ item_at m.now at }
{
    let Some([id, action, high, low, rest @ ..]) = m.get(at..) else {
        return Item::End;
    };
    let start = at + 4;
    let n = octets::number(*high, *low) as usize;
    if rest.len() < n {
        return Item::Overrun(*id);
    }
    Item::Whole {
        id: *id,
        action: *action,
        start,
        end: start + n,
    }
}

// The first element of an identifier, `End` where there is none.
#[tactic(auto, using(crate::proofs::Items::met, crate::proofs::Items::moved, crate::proofs::Items::first_within))]
pub fn first_of(m: &[u8], from: usize, id: u8) -> Item
    ensures value { result ≡ first_of id (items m.now from) }
    ensures inside { Inside (length m.now) result }
{
    let mut at = from;
    loop {
        match item_at(m, at) {
            Item::Overrun(met) if met != id => return Item::End,
            Item::Whole { id: met, end, .. } if met != id => at = end,
            found => return found,
        }
    }
}

// 1 for the identifier that is counted, 0 for another.
fn one_if(met: u8, id: u8) -> usize
    ensures value { result ≡ cond (eqb met id) 1 0 }
    ensures bound { result ≤ 1 }
{
    usize::from(met == id)
}

// How many elements of an identifier there are.
pub fn count(m: &[u8], from: usize, id: u8) -> usize
    ensures { result ≡ count_of id (items m.now from) }
{
    let mut n: usize = 0;
    let mut at = from;
    loop {
        match item_at(m, at) {
            Item::End => return n,
            Item::Overrun(met) => return n + one_if(met, id),
            Item::Whole { id: met, end, .. } => {
                n += one_if(met, id);
                at = end;
            }
        }
    }
}

// Are the octets from a place on a whole number of elements, none overrunning?
pub fn whole(m: &[u8], from: usize) -> bool
    ensures { result ≡ whole_from m.now from }
{
    let mut at = from;
    loop {
        match item_at(m, at) {
            Item::End => return at == m.len(),
            Item::Overrun(_) => return false,
            Item::Whole { end, .. } => at = end,
        }
    }
}
