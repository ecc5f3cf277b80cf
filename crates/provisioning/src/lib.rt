// Provisioning: the lists that start takes, checked and made into a pool.
//   before                       the order of pairs, by VPCI and then VCI
//   range_at, single_at          the k-th range of a list of triples; the k-th of a list of pairs, as the range of its one VCI
//   entry_at                     the k-th of a list of pairs, as a place of the pool has it
//   range_ok                     the limits of one range
//   apart                        if a range ends before another begins
//   fits, ascend                 if the k-th of a list of ranges keeps the limits and comes behind the one before it; the first n
//   ranges_ok, pairs_ok          a list's length and all of it
//   accepted_pool, pool_of       the pool of the lists, and the pool of start's lists if they are accepted
// Nothing here has a `requires`, but that what `fits` and `ascend` take may be called. Assumes nothing.
#![tactic(auto)]

ghost use Rattle.std.specs.Prelude.{◌≡◌, ℕ};
ghost use Rattle.provisioning.specs.Provisioning.{before, apart, range_at, single_at, entry_at, range_ok, Gives, fits, ascending, ranges_ok, pairs_ok, pool_of, provision, provision_of};

use channels::{Pair, Pool, Range};

// If one pair comes before another.
pub fn before(pair: Pair, other: Pair) -> bool
    ensures { result ≡ before pair.vpci pair.vci other.vpci other.vci }
{
    pair < other
}

// If all of `a` comes before all of `b`.
pub fn apart(a: Range, b: Range) -> bool
    ensures { result ≡ apart a b }
{
    let last = Pair {
        vpci: a.vpci,
        vci: a.last,
    };
    let first = Pair {
        vpci: b.vpci,
        vci: b.first,
    };
    before(last, first)
}

// The k-th triple, or an unused range.
pub fn range_at(s: &[u16], k: usize) -> Range
    ensures { result ≡ range_at s.now k }
{
    if k < s.len() / 3 {
        let at = k * 3;
        return Range {
            vpci: s[at],
            first: s[at + 1],
            last: s[at + 2],
        };
    }
    Range::unused()
}

// The k-th pair as the range of its one VCI, or an unused range.
pub fn single_at(s: &[u16], k: usize) -> Range
    ensures { result ≡ single_at s.now k }
{
    if k < s.len() / 2 {
        let at = k * 2;
        return Range {
            vpci: s[at],
            first: s[at + 1],
            last: s[at + 1],
        };
    }
    Range::unused()
}

// The k-th pair, or none.
pub fn entry_at(s: &[u16], k: usize) -> Option<Pair>
    ensures { result ≡ entry_at s.now k }
{
    if k < s.len() / 2 {
        let at = k * 2;
        return Some(Pair {
            vpci: s[at],
            vci: s[at + 1],
        });
    }
    None
}

// VPCI 0 to 255, VCI 32 to 65535, first at most last.
pub fn range_ok(range: Range) -> bool
    ensures { result ≡ range_ok range }
{
    range.vpci <= 255 && range.first >= 32 && range.first <= range.last
}

// If the k-th range keeps the limits and comes behind the one before it.
pub fn fits<F: Fn(usize) -> Range>(at: F, k: usize) -> bool
    requires { F.IsAlwaysCallable at }
    ensures { (f : ℕ → Range) → Gives (F.post at) f → result ≡ fits f k }
{
    let range = at(k);
    range_ok(range) && (k == 0 || apart(at(k - 1), range))
}

// If each of the first n ranges does.
pub fn ascend<F: Fn(usize) -> Range>(at: F, n: usize) -> bool
    requires { F.IsAlwaysCallable at }
    ensures { (f : ℕ → Range) → Gives (F.post at) f → result ≡ ascending f n }
{
    for k in 0..n {
        if !fits(&at, k) {
            return false;
        }
    }
    true
}

// 1 to 4 ranges.
pub fn ranges_ok(s: &[u16]) -> bool
    ensures { result ≡ ranges_ok s.now }
{
    let n = s.len() / 3;
    s.len() % 3 == 0 && (1..=4).contains(&n) && ascend(|k| range_at(s, k), n)
}

// 0 to 8 pairs.
pub fn pairs_ok(s: &[u16]) -> bool
    ensures { result ≡ pairs_ok s.now }
{
    let n = s.len() / 2;
    s.len() % 2 == 0 && n <= 8 && ascend(|k| single_at(s, k), n)
}

pub fn accepted_pool(ranges: &[u16], pairs: &[u16]) -> Pool
    ensures { result ≡ pool_of ranges.now pairs.now }
{
    Pool {
        ranges: std::array::from_fn(|k| range_at(ranges, k)),
        permanents: std::array::from_fn(|k| entry_at(pairs, k)),
    }
}

// The pool of start's lists; none if one of them breaks a rule.
pub fn pool_of(ranges: &[u16], pairs: &[u16]) -> Option<Pool>
    ensures { provision_of result ≡ provision ranges.now pairs.now }
{
    if ranges_ok(ranges) && pairs_ok(pairs) {
        Some(accepted_pool(ranges, pairs))
    } else {
        None
    }
}
