// The search for the lowest free pair, and a count of the pairs that it reads.
//   Finding, find_free     the lowest free permitted pair by VPCI and then VCI, and how many pairs were read to find it
//   Ranges, ranges_used    the ranges that a search looks at: those up to the last that has a VCI
//   pair_of                the pair of a number
//   offset_in              which mark of a range a pair has
//   width                  how many VCIs of a range have a mark, and are looked at
//   Marks                  a mark for each of the NEAR first VCIs of each range, if its pair is taken; how many pairs were read
//   Marks::read            a pair is read: it is counted, and its marks are set
//   Marks::read_place, read_slots, read_permanents, read_listed, read_request     each pair that is there is read
// `find_free` has no `requires`; those of `Marks` ask for a count that is not near its end.
// Assumes nothing.
#![tactic(auto)]

ghost use Rattle.std.specs.Prelude.{◌≡◌, ◌&&◌, ◌+◌, ◌*◌, ◌/◌, ◌%◌, ◌≤◌, ◌<◌, eqb, length, take};
ghost use Rattle.std.specs.List.{list_any};
ghost use Rattle.identifier.specs.Pair.{pair, is_pair};
ghost use Rattle.channels.specs.Channels.{range_count, among};
ghost use Rattle.pairs.specs.Pairs.{room, is_number};
ghost use Rattle.calls.specs.Calls.{is_live, holds_pair};
ghost use Rattle.service.specs.Service.{one_pair};
ghost use Rattle.search.specs.Search.{taken_singly, how_many, has_pair, there, pairs_there, searched};
ghost use Rattle.search.specs.Marks.{near, used, looked, offset_in, Read, width};

use calls::Slot;
use channels::{Named, PERMANENTS, Pair, Pool, RANGES, Range};
use pairs::Pairs;
use service::{GlobalState, OutOfService};
use slots::{SLOTS, Slots};

// One more than there can be pairs: of so many VCIs one is free.
const NEAR: usize = 170;

// The lowest free pair, and how many pairs were read to find it.
#[derive(Clone, Copy)]
pub struct Finding {
    pub found: Option<Pair>,
    pub reads: u32,
}

// Those of range k begin at k times NEAR.
#[derive(Clone, Copy)]
struct Marks {
    on: [bool; RANGES * NEAR],
    reads: u32,
}

// The ranges that a search looks at: the first `used` of them.
#[derive(Clone, Copy)]
struct Ranges {
    all: [Range; RANGES],
    used: usize,
}

// A range without a VCI counts only before one that has some.
fn ranges_used(ranges: &[Range; RANGES]) -> usize
    ensures value { result ≡ used ranges.now }
    ensures within { result ≤ range_count }
{
    let mut n = 0;
    for (k, range) in ranges.iter().enumerate() {
        if range.first <= range.last {
            n = k + 1;
        }
    }
    n
}

fn pair_of(number: u32) -> Pair
    ensures { result ≡ pair (number / 65536) (number % 65536) }
{
    Pair {
        vpci: (number / 65536) as u16,
        vci: (number % 65536) as u16,
    }
}

// The number of a pair's mark in a range, if it has one there.
fn offset_in(range: Range, pair: Pair) -> Option<usize>
    ensures { result ≡ offset_in range pair }
{
    if range.vpci != pair.vpci {
        return None;
    }
    let offset = pair.vci.checked_sub(range.first)? as usize;
    (offset < NEAR).then_some(offset)
}

// How many VCIs of a range have a mark: no more are looked at.
fn width(range: Range) -> usize
    ensures value { result ≡ width range }
    ensures within { range.first + result ≤ 65536 }
{
    (range.last as usize + 1)
        .saturating_sub(range.first as usize)
        .min(NEAR)
}

impl Marks {
    // The count is stepped, and the pair's mark is set in each range.
    fn read(&mut self, ranges: &Ranges, pair: Pair)
        requires { self.old.reads < 3 * near }
        ensures { Read (looked ranges.now) (λ p v. eqb pair.vpci p && eqb pair.vci v) 1 self.old self.new }
    {
        self.reads += 1;
        // Over all four, left by `break`: a loop over the slice of those in use costs a search of 32 calls half as much again.
        for (k, range) in ranges.all.iter().enumerate() {
            if k == ranges.used {
                break;
            }
            if let Some(offset) = offset_in(*range, pair) {
                self.on[k * NEAR + offset] = true;
            }
        }
    }

    // The pair of a place, if there is one.
    fn read_place(&mut self, ranges: &Ranges, place: Option<Pair>)
        requires { self.old.reads < 3 * near }
        ensures { Read (looked ranges.now) (λ p v. is_pair p v place) (there place) self.old self.new }
    {
        if let Some(pair) = place {
            self.read(ranges, pair);
        }
    }

    // The pair of each call.
    fn read_slots(&mut self, ranges: &Ranges, slots: &[Slot; SLOTS])
        requires { self.old.reads ≤ near }
        ensures { Read (looked ranges.now) (λ p v. list_any (holds_pair p v) slots.now) (how_many is_live slots.now) self.old self.new }
    {
        for slot in slots {
            self.read_place(ranges, slot.entry());
        }
    }

    fn read_permanents(&mut self, ranges: &Ranges, permanents: &[Option<Pair>; PERMANENTS])
        requires { self.old.reads ≤ near }
        ensures { Read (looked ranges.now) (λ p v. among p v permanents.now) (how_many has_pair permanents.now) self.old self.new }
    {
        for place in permanents {
            self.read_place(ranges, *place);
        }
    }

    // Each pair of a list: those in doubt, and those out of service.
    fn read_listed(&mut self, ranges: &Ranges, numbers: &[u32])
        requires { (length numbers.now ≤ room) × (self.old.reads ≤ near) }
        ensures { Read (looked ranges.now) (λ p v. list_any (is_number p v) numbers.now) (length numbers.now) self.old self.new }
    {
        for number in numbers {
            self.read(ranges, pair_of(*number));
        }
    }

    // The one pair that a RESTART of ours names.
    fn read_request(&mut self, ranges: &Ranges, state: GlobalState)
        requires { self.old.reads ≤ near }
        ensures { Read (looked ranges.now) (λ p v. is_pair p v (one_pair state)) (there (one_pair state)) self.old self.new }
    {
        if let GlobalState::RestartRequest(Named::One(pair), _, _) = state {
            self.read(ranges, pair);
        }
    }
}

// Each pair is read once; then comes the walk over ranges and VCIs, over the marks alone, left by its label at the first
// free pair. Where no range has a VCI, or all pairs are taken at once, no pair is read.
pub fn find_free(
    pool: Pool,
    slots: Slots,
    doubts: Pairs,
    out: OutOfService,
    state: GlobalState,
) -> Finding
    ensures { result ≡ searched slots.all doubts out state pool }
{
    let ranges = Ranges {
        all: pool.ranges,
        used: ranges_used(&pool.ranges),
    };
    if ranges.used == 0 || service::is_all_taken(out, state) {
        return Finding {
            found: None,
            reads: 0,
        };
    }
    let mut marks = Marks {
        on: [false; RANGES * NEAR],
        reads: 0,
    };
    marks.read_slots(&ranges, &slots.all);
    marks.read_permanents(&ranges, &pool.permanents);
    marks.read_request(&ranges, state);
    marks.read_listed(&ranges, doubts.listed());
    marks.read_listed(&ranges, out.pairs.listed());
    let mut found = None;
    'search: for (k, range) in ranges.all[..ranges.used].iter().enumerate() {
        for offset in 0..width(*range) {
            if !marks.on[k * NEAR + offset] {
                found = Some(Pair {
                    vpci: range.vpci,
                    vci: range.first + offset as u16,
                });
                break 'search;
            }
        }
    }
    Finding {
        found,
        reads: marks.reads,
    }
}
