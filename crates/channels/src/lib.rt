// Channels: permitted ranges, and permanent pairs.
//   RANGES, PERMANENTS        how many ranges and permanent pairs there can be
//   Pair, Range               a VPCI and a VCI, which is crate identifier's; one permitted range
//   Pool, Named               what start permits; the pairs that a RESTART names
//   is_before                 the order of pairs by VPCI and then VCI, where no pair comes behind every pair
//   Range::unused             the range without a VCI
//   Pool::is_permanent        if a pair is permanent
//   Pool::permits             if a pair is in a range and not permanent
//   Pool::knows_vpci          if a VPCI stands in a range or in a permanent pair
//   Pool::empty               the pool without ranges and without permanent pairs
// Nothing here has a `requires`. Assumes nothing.
#![tactic(auto)]

ghost use Rattle.std.specs.Prelude.{◌≡◌};
ghost use Rattle.channels.specs.Order.{channel_before};
ghost use Rattle.channels.specs.Channels.{names_vpci, among, in_range, in_ranges, permitted, spans_vpci, spanned_vpci, named_vpci, known_vpci, no_range, empty_pool};

pub use identifier::Pair;

pub const RANGES: usize = 4;

pub const PERMANENTS: usize = 8;

// The pairs of one VPCI from a first VCI to a last one. An unused range has first above last: (0, 1, 0).
#[derive(Clone, Copy)]
pub struct Range {
    pub vpci: u16,
    pub first: u16,
    pub last: u16,
}

// What start permits. An unused permanent pair is none.
#[derive(Clone, Copy)]
pub struct Pool {
    pub ranges: [Range; RANGES],
    pub permanents: [Option<Pair>; PERMANENTS],
}

// The pairs that a RESTART names: all, or one. Stays an enum: `All` is every pair, and no absence of one.
#[derive(Clone, Copy)]
pub enum Named {
    All,
    One(Pair),
}

// If a place names a pair of this VPCI.
pub fn names_vpci(place: Option<Pair>, vpci: u16) -> bool
    ensures { result ≡ names_vpci vpci place }
{
    place.is_some_and(|pair| pair.vpci == vpci)
}

// By VPCI and then VCI. No pair comes behind every pair.
pub fn is_before(place: Option<Pair>, other: Option<Pair>) -> bool
    ensures { result ≡ channel_before place other }
{
    match (place, other) {
        (None, _) => false,
        (Some(_), None) => true,
        (Some(pair), Some(behind)) => pair < behind,
    }
}

impl Range {
    pub fn unused() -> Range
        ensures { result ≡ no_range }
    {
        Range {
            vpci: 0,
            first: 1,
            last: 0,
        }
    }

    pub fn has(self, pair: Pair) -> bool
        ensures { result ≡ in_range pair.vpci pair.vci self }
    {
        self.vpci == pair.vpci && self.first <= pair.vci && pair.vci <= self.last
    }

    pub fn spans_vpci(self, vpci: u16) -> bool
        ensures { result ≡ spans_vpci vpci self }
    {
        self.vpci == vpci && self.first <= self.last
    }
}

impl Pool {
    // No range is used, and no pair is permanent.
    pub fn empty() -> Pool
        ensures { result ≡ empty_pool }
    {
        Pool {
            ranges: [Range::unused(); RANGES],
            permanents: [None; PERMANENTS],
        }
    }

    pub fn is_permanent(self, pair: Pair) -> bool
        ensures { result ≡ among pair.vpci pair.vci self.permanents }
    {
        self.permanents.iter().any(|place| pair.is(*place))
    }

    // If some range has the pair.
    pub fn in_ranges(self, pair: Pair) -> bool
        ensures { result ≡ in_ranges pair.vpci pair.vci self.ranges }
    {
        self.ranges.iter().any(|range| range.has(pair))
    }

    pub fn permits(self, pair: Pair) -> bool
        ensures { result ≡ permitted self pair.vpci pair.vci }
    {
        self.in_ranges(pair) && !self.is_permanent(pair)
    }

    pub fn range_spans_vpci(self, vpci: u16) -> bool
        ensures { result ≡ spanned_vpci vpci self.ranges }
    {
        self.ranges.iter().any(|range| range.spans_vpci(vpci))
    }

    pub fn permanent_names_vpci(self, vpci: u16) -> bool
        ensures { result ≡ named_vpci vpci self.permanents }
    {
        self.permanents.iter().any(|place| names_vpci(*place, vpci))
    }

    pub fn knows_vpci(self, vpci: u16) -> bool
        ensures { result ≡ known_vpci self vpci }
    {
        self.range_spans_vpci(vpci) || self.permanent_names_vpci(vpci)
    }
}
