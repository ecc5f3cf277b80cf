// What names a channel: a VPCI and a VCI.
//   Pair         the two numbers
//   Pair::is     if a place that may have none has this pair
// Nothing here has a `requires`. Assumes nothing.
#![tactic(auto)]

ghost use Rattle.std.specs.Prelude.{◌≡◌};
ghost use Rattle.identifier.specs.Pair.{is_pair};

// A channel's name: pairs are ordered by VPCI and then VCI.
#[derive(Clone, Copy, PartialEq, Eq, PartialOrd, Ord)]
pub struct Pair {
    pub vpci: u16,
    pub vci: u16,
}

impl Pair {
    // If a list's place holds this pair.
    pub fn is(self, place: Option<Pair>) -> bool
        ensures { result ≡ is_pair self.vpci self.vci place }
    {
        place == Some(self)
    }
}
