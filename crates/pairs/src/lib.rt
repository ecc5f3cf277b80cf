// Pairs of VPCI and VCI, at most 64 of them, ascending: those in doubt.
//   ROOM, Pairs               how many there can be; the pairs, each as one number
//   number                    the number of a pair: VPCI times 65,536, and VCI
//   Pairs::none               no pair
//   Pairs::size, is_full      how many there are; if there is no room for one more
//   Pairs::has                if a pair is one of them
//   Pairs::with, without      one pair more, at its place; one pair less
//   Pairs::unless_named       without the pairs that a RESTART names
// Nothing here has a `requires`. Assumes nothing.
#![tactic(auto)]

ghost use Rattle.std.specs.Prelude.{◌≡◌, ◌≤◌};
ghost use Rattle.pairs.specs.Pairs.{pair_number, is_number, room, no_pairs, listed, size, is_full, in_pairs, with_pair, without_pair, unless_named};

use channels::{Named, Pair};

pub const ROOM: usize = 64;

// The first `count` of the numbers are pairs, ascending; those behind them are 0.
// Stays an array with a count: no heap (project rule).
#[derive(Clone, Copy)]
pub struct Pairs {
    pub count: usize,
    pub numbers: [u32; ROOM],
}

// VPCI and VCI as one number: pairs ascend as their numbers do.
pub fn number(pair: Pair) -> u32
    ensures { result ≡ pair_number pair.vpci pair.vci }
{
    pair.vpci as u32 * 65536 + pair.vci as u32
}

fn is_number(n: u32, pair: Pair) -> bool
    ensures { result ≡ is_number pair.vpci pair.vci n }
{
    n / 65536 == pair.vpci as u32 && n % 65536 == pair.vci as u32
}

impl Pairs {
    pub fn none() -> Pairs
        ensures { result ≡ no_pairs }
    {
        Pairs {
            count: 0,
            numbers: [0; ROOM],
        }
    }

    pub fn size(self) -> usize
        ensures value { result ≡ size self }
        ensures most { result ≤ room }
    {
        self.count.min(ROOM)
    }

    pub fn is_full(self) -> bool
        ensures { result ≡ is_full self }
    {
        ROOM <= self.count
    }

    // The numbers of the pairs that there are.
    #[tactic(auto, using(crate::proofs::Places::take_size))]
    pub fn listed(&self) -> &[u32]
        ensures { result.now ≡ listed self.now }
    {
        &self.numbers[..self.size()]
    }

    pub fn has(self, pair: Pair) -> bool
        ensures { result ≡ in_pairs self pair.vpci pair.vci }
    {
        self.listed().iter().any(|number| is_number(*number, pair))
    }

    // One pair more, at its place; as they are where there is no room.
    pub fn with(self, pair: Pair) -> Pairs
        ensures { result ≡ with_pair self pair.vpci pair.vci }
    {
        if self.is_full() {
            return self;
        }
        let n = self.count;
        let mut carried = number(pair);
        let mut numbers = [0; ROOM];
        for i in 0..n {
            let next = self.numbers[i];
            if next < carried {
                numbers[i] = next;
                continue;
            }
            numbers[i] = carried;
            carried = next;
        }
        numbers[n] = carried;
        Pairs {
            count: n + 1,
            numbers,
        }
    }

    // One pair less: those behind it come one nearer.
    pub fn without(self, pair: Pair) -> Pairs
        ensures { result ≡ without_pair self pair.vpci pair.vci }
    {
        let n = self.size();
        let mut numbers = [0; ROOM];
        let mut kept: usize = 0;
        for i in 0..n {
            let next = self.numbers[i];
            if is_number(next, pair) {
                continue;
            }
            numbers[kept] = next;
            kept += 1;
        }
        Pairs {
            count: kept,
            numbers,
        }
    }

    // Without the pairs that are named.
    pub fn unless_named(self, named: Named) -> Pairs
        ensures { result ≡ unless_named self named }
    {
        match named {
            Named::All => Pairs::none(),
            Named::One(pair) => self.without(pair),
        }
    }
}
