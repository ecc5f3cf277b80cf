// 59 Traffic descriptor: its subfields, when its contents are readable, and the traffic rule of cause 73.
//   listed            is a number in a list?
//   subfield_at       the subfield at a place
//   has_subfield      is a subfield there?
//   traffic_fits      are the contents readable?
//   traffic_allowed   does the traffic rule allow it?
// Assumes nothing.
#![tactic(auto, using(crate::proofs::Subfields::met, crate::proofs::Subfields::moved, crate::proofs::Subfields::repeated))]

ghost use Rattle.std.specs.Prelude.{◌≡◌};
ghost use Rattle.traffic.specs.Traffic.{span, subfield_at, subfields, identifiers, traffic_fits, has_subfield, with_best_effort, any_other, traffic_allowed, member, IsAny};

// What stands at a place: nothing more, a subfield that is not listed or cut, or one with its identifier and the place behind it.
#[derive(Clone, Copy)]
pub enum Subfield {
    End,
    Broken,
    Whole(u8, usize),
}

// Subfields with three octets after the identifier.
const RATES: [u8; 12] = [
    0x82, 0x83, 0x84, 0x85, 0x88, 0x89, 0x90, 0x91, 0xA0, 0xA1, 0xB0, 0xB1,
];

// Subfields that may stand beside best effort, BE, and BE itself.
const WITH_BEST_EFFORT: [u8; 4] = [0x84, 0x85, 0xBE, 0xBF];

// Is a number in a list?
pub fn listed(numbers: &[u8], n: u8) -> bool
    ensures { result ≡ member n numbers.now }
{
    numbers.contains(&n)
}

// The octets of a subfield, its identifier among them; 0 for one that is not listed.
fn span(id: u8) -> usize
    ensures { result ≡ span id }
{
    match id {
        0xBE => 1,
        0xBF => 2,
        _ if listed(&RATES, id) => 4,
        _ => 0,
    }
}

pub fn subfield_at(c: &[u8], at: usize) -> Subfield
    ensures { result ≡ subfield_at c.now at }
{
    if c.len() <= at {
        return Subfield::End;
    }
    let id = c[at];
    let n = span(id);
    if n == 0 || c.len() - at < n {
        return Subfield::Broken;
    }
    Subfield::Whole(id, at + n)
}

// Does the identifier of a subfield from a place on pass a test?
fn any_from<F: Fn(u8) -> bool>(c: &[u8], from: usize, test: F) -> bool
    requires { F.IsAlwaysCallable test }
    ensures { IsAny (F.post test) (identifiers (subfields c.now from)) result }
{
    let mut at = from;
    loop {
        match subfield_at(c, at) {
            Subfield::End | Subfield::Broken => return false,
            Subfield::Whole(id, _) if test(id) => return true,
            Subfield::Whole(_, next) => at = next,
        }
    }
}

// Is a subfield with this identifier met from a place on?
fn has_from(c: &[u8], from: usize, id: u8) -> bool
    ensures { result ≡ member id (identifiers (subfields c.now from)) }
{
    any_from(c, from, |met| id == met)
}

pub fn has_subfield(c: &[u8], id: u8) -> bool
    ensures { result ≡ has_subfield c.now id }
{
    has_from(c, 0, id)
}

// Each subfield at most once, and none cut.
pub fn traffic_fits(c: &[u8]) -> bool
    ensures { result ≡ traffic_fits c.now }
{
    let mut at: usize = 0;
    loop {
        match subfield_at(c, at) {
            Subfield::End => return true,
            Subfield::Broken => return false,
            Subfield::Whole(id, next) => {
                if has_from(c, next, id) {
                    return false;
                }
                at = next;
            }
        }
    }
}

// May this subfield stand beside best effort?
fn with_best_effort(id: u8) -> bool
    ensures { result ≡ member id with_best_effort }
{
    listed(&WITH_BEST_EFFORT, id)
}

// Is a subfield met that may not stand beside best effort?
fn any_other(c: &[u8]) -> bool
    ensures { result ≡ any_other (identifiers (subfields c.now 0)) }
{
    any_from(c, 0, |id| !with_best_effort(id))
}

// The traffic rule: 84 and 85 are there, and where BE is there nothing but 84 85 BF beside it.
pub fn traffic_allowed(c: &[u8]) -> bool
    ensures { result ≡ traffic_allowed c.now }
{
    has_subfield(c, 0x84) && has_subfield(c, 0x85) && !(has_subfield(c, 0xBE) && any_other(c))
}
