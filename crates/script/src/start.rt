// The two lists of a start.
ghost use Rattle.std.specs.Prelude.{◌≡◌, ◌≤◌, replicate, IfSome};
ghost use Rattle.script.specs.Starts.{numbers_from, list_at, lists_of};

use crate::words;

// At most 64 numbers.
#[derive(Clone, Copy)]
pub struct List {
    // Stays an array with a count: no heap (project rule).
    pub n: usize,
    pub numbers: [u16; 64],
}

// Range numbers and pair numbers.
#[derive(Clone, Copy)]
pub struct Lists {
    pub ranges: List,
    pub pairs: List,
}

// The n numbers behind place `at`, and the place behind them.
fn read_numbers(line: &[u8], at: usize, n: usize) -> Option<(List, usize)>
    requires { n ≤ 64 }
    ensures value { result ≡ numbers_from line.now at 0 n (replicate 64 0) }
    ensures within { IfSome result (λ r. r.0.n ≤ 64) }
{
    let mut numbers = [0u16; 64];
    let mut end = at;
    for i in 0..n {
        let (value, next) = words::read_field(line, end)?;
        numbers[i] = u16::try_from(value).ok()?;
        end = next;
    }
    Some((List { n, numbers }, end))
}

// How many numbers follow, and they, and the place behind them.
fn read_list(line: &[u8], at: usize) -> Option<(List, usize)>
    ensures value { result ≡ list_at line.now at }
    ensures within { IfSome result (λ r. r.0.n ≤ 64) }
{
    let (n, end) = words::read_field(line, at)?;
    if 64 < n {
        return None;
    }
    read_numbers(line, end, n as usize)
}

// The lists of a line that begins with `start`.
pub fn read_lists(line: &[u8]) -> Option<Lists>
    ensures value { result ≡ lists_of line.now }
    ensures within { IfSome result (λ lists. (lists.ranges.n ≤ 64) × (lists.pairs.n ≤ 64)) }
{
    let (ranges, end) = read_list(line, 5)?;
    let (pairs, end) = read_list(line, end)?;
    words::ended(line, end, Lists { ranges, pairs })
}
