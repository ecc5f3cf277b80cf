// What octets say as a saved form, read with no question asked. docs/FORMATS.md has the layout.
//   pool_of          the pool that start makes of the two lists, if it accepts them
//   table_of         the table, with a pool
// Past the end stand zeros, and what is not a form reads as some table, whose form is another. Nothing public has a `requires`.
// Assumes nothing.
#![tactic(auto)]

ghost use Rattle.std.specs.Prelude.{◌≡◌, ◌+◌, ◌≤◌, length, get_or, take, drop};
ghost use Rattle.slots.specs.Slots.{slot_count};
ghost use Rattle.provisioning.specs.Provisioning.{provision, provision_of};
ghost use Rattle.reading.specs.Reading.{two_at, four_at, eight_at, rest, least, list_in, range_numbers, pair_numbers, pairs_in, out_in, named_in, request_in, clearing_in, state_in, reference_in, call_in, begins, slot_in, behind_slot, slots_in, table_with};

use calls::{Call, Clearing, Slot, State};
use channels::{Named, Pair, Pool};
use pairs::{Pairs, ROOM};
use service::{Global, GlobalState, OutOfService};
use slots::{SLOTS, Slots};
use table::Table;

// A list of start, in the front of an array.
// Stays an array with a count: no heap (project rule).
#[derive(Clone, Copy)]
struct List {
    numbers: [u16; 16],
    n: usize,
}

// A slot, and the place behind its field.
#[derive(Clone, Copy)]
struct Step {
    slot: Slot,
    next: usize,
}

// Octet k of the field at a place, 0 where there is none.
fn octet_in(form: &[u8], at: usize, k: usize) -> u8
    requires { (at ≤ 4294967296) × (k ≤ 512) }
    ensures { result ≡ get_or (drop at form.now) k 0 }
{
    octets::octet_at(form, at + k)
}

fn two_in(form: &[u8], at: usize, k: usize) -> u16
    requires { (at ≤ 4294967296) × (k ≤ 511) }
    ensures { result ≡ two_at (drop at form.now) k }
{
    octets::number(octet_in(form, at, k), octet_in(form, at, k + 1))
}

fn four_in(form: &[u8], at: usize, k: usize) -> u32
    requires { (at ≤ 4294967296) × (k ≤ 508) }
    ensures { result ≡ four_at (drop at form.now) k }
{
    u32::from_be_bytes([
        octet_in(form, at, k),
        octet_in(form, at, k + 1),
        octet_in(form, at, k + 2),
        octet_in(form, at, k + 3),
    ])
}

fn eight_in(form: &[u8], at: usize, k: usize) -> u64
    requires { (at ≤ 4294967296) × (k ≤ 504) }
    ensures { result ≡ eight_at (drop at form.now) k }
{
    let first = u64::from(four_in(form, at, k));
    let second = u64::from(four_in(form, at, k + 4));
    first << 32 | second
}

// The pair whose VPCI and VCI stand at octet k of the field at a place.
fn pair_in(form: &[u8], at: usize, k: usize) -> Pair
    requires { (at ≤ 4294967296) × (k ≤ 500) }
    ensures { result ≡ record { vpci = two_at (drop at form.now) k; vci = two_at (drop at form.now) (k + 2) } }
{
    Pair {
        vpci: two_in(form, at, k),
        vci: two_in(form, at, k + 2),
    }
}

// The place behind the field at a place.
fn behind(form: &[u8], at: usize) -> usize
    requires { at ≤ 4294967296 }
    ensures form_value { drop result form.now ≡ rest (drop at form.now) }
    ensures near { result ≤ at + 65538 }
{
    at + 3 + usize::from(two_in(form, at, 1))
}

// The numbers of the field at a place, at most so many.
fn list_in(form: &[u8], at: usize, most: usize) -> List
    requires { (at ≤ 4294967296) × (most ≤ 16) }
    ensures numbers_value { take result.n result.numbers ≡ list_in most (drop at form.now) }
    ensures few { (result.n ≤ 16) × (length result.numbers ≡ 16) }
{
    let mut numbers = [0u16; 16];
    for (k, number) in numbers.iter_mut().enumerate() {
        *number = two_in(form, at, 3 + k * 2);
    }
    let size = usize::from(two_in(form, at, 1));
    List {
        numbers,
        n: most.min(size / 2),
    }
}

// The pool that start makes of the two lists.
pub fn pool_of(form: &[u8]) -> Option<Pool>
    ensures { provision_of result ≡ provision (range_numbers form.now) (pair_numbers form.now) }
{
    let ranges = list_in(form, 0, 12);
    let pairs = list_in(form, behind(form, 0), 16);
    provisioning::pool_of(&ranges.numbers[..ranges.n], &pairs.numbers[..pairs.n])
}

// The pairs of the field at a place, from octet `from` of it on: behind them stand zeros.
fn pairs_in(form: &[u8], at: usize, from: usize) -> Pairs
    requires { (at ≤ 4294967296) × (from ≤ 4) }
    ensures { result ≡ pairs_in from (drop at form.now) }
{
    let size = usize::from(two_in(form, at, 1));
    let count = ROOM.min(size / 4);
    let mut numbers = [0; ROOM];
    for k in 0..count {
        numbers[k] = four_in(form, at, from + k * 4);
    }
    Pairs { count, numbers }
}

// The pairs out of service, their field at a place.
fn out_in(form: &[u8], at: usize) -> OutOfService
    requires { at ≤ 4294967296 }
    ensures { result ≡ out_in (drop at form.now) }
{
    OutOfService {
        all: octet_in(form, at, 3) == 1,
        pairs: pairs_in(form, at, 4),
    }
}

// The pairs that our RESTART names: one pair, if its field has the octets of one.
fn named_in(form: &[u8], at: usize) -> Named
    requires { at ≤ 4294967296 }
    ensures { result ≡ named_in (drop at form.now) }
{
    if two_in(form, at, 1) == 13 {
        Named::One(pair_in(form, at, 12))
    } else {
        Named::All
    }
}

// Our RESTART, its field at a place.
fn request_in(form: &[u8], at: usize) -> GlobalState
    requires { at ≤ 4294967296 }
    ensures { result ≡ request_in (drop at form.now) }
{
    if two_in(form, at, 1) == 0 {
        GlobalState::Null
    } else {
        GlobalState::RestartRequest(
            named_in(form, at),
            octet_in(form, at, 3) == 2,
            eight_in(form, at, 4),
        )
    }
}

// Which T308 runs, and why the call is cleared.
fn clearing_in(form: &[u8], at: usize) -> Clearing
    requires { at ≤ 4294967296 }
    ensures { result ≡ clearing_in (drop at form.now) }
{
    let cause = octet_in(form, at, 21);
    Clearing {
        second: octet_in(form, at, 20) == 2,
        cause,
        expired: cause == 102,
    }
}

fn state_in(form: &[u8], at: usize) -> State
    requires { at ≤ 4294967296 }
    ensures { result ≡ state_in (drop at form.now) }
{
    match octet_in(form, at, 11) {
        6 => State::N6(eight_in(form, at, 12)),
        9 => State::N9(eight_in(form, at, 12)),
        10 => State::N10,
        12 => State::N12(clearing_in(form, at), eight_in(form, at, 12)),
        _ => State::N3,
    }
}

fn reference_in(form: &[u8], at: usize) -> u32
    requires { at ≤ 4294967296 }
    ensures { result ≡ reference_in (drop at form.now) }
{
    u32::from_be_bytes([
        0,
        octet_in(form, at, 4) % 128,
        octet_in(form, at, 5),
        octet_in(form, at, 6),
    ])
}

fn call_in(form: &[u8], at: usize) -> Call
    requires { at ≤ 4294967296 }
    ensures { result ≡ call_in (drop at form.now) }
{
    Call {
        network: 128 <= octet_in(form, at, 4),
        pair: pair_in(form, at, 7),
        reference: reference_in(form, at),
    }
}

// If the field at a place is the slot's own.
fn is_begun(form: &[u8], at: usize, slot: usize) -> bool
    requires { at ≤ 4294967296 }
    ensures { result ≡ begins slot (drop at form.now) }
{
    at < form.len() && usize::from(octet_in(form, at, 3)) == slot
}

// One slot.
fn step_in(form: &[u8], at: usize, slot: usize) -> Step
    requires { at ≤ 4294967296 }
    ensures slot_value { (result.slot ≡ slot_in slot (drop at form.now)) × (drop result.next form.now ≡ behind_slot slot (drop at form.now)) }
    ensures near { result.next ≤ at + 65538 }
{
    if is_begun(form, at, slot) {
        Step {
            slot: Slot::live(call_in(form, at), state_in(form, at)),
            next: behind(form, at),
        }
    } else {
        Step {
            slot: Slot::empty(),
            next: at,
        }
    }
}

// The slots, their fields from a place on.
fn slots_in(form: &[u8], at: usize) -> Slots
    requires { at ≤ 393228 }
    ensures { result.all ≡ slots_in 0 (drop at form.now) slot_count }
{
    let mut all = [Slot::empty(); SLOTS];
    let mut next = at;
    for (i, slot) in all.iter_mut().enumerate() {
        let step = step_in(form, next, i);
        *slot = step.slot;
        next = step.next;
    }
    Slots { all }
}

// The table that the octets say, with a pool.
pub fn table_of(form: &[u8], pool: Pool) -> Table
    ensures { result ≡ table_with pool slot_count form.now }
{
    let pairs = behind(form, 0);
    let reading = behind(form, pairs);
    let doubtful = behind(form, reading);
    let marked = behind(form, doubtful);
    let request = behind(form, marked);
    let fields = behind(form, request);
    Table {
        slots: slots_in(form, fields),
        last: eight_in(form, reading, 3),
        doubts: pairs_in(form, doubtful, 3),
        global: Global {
            state: request_in(form, request),
        },
        out: out_in(form, marked),
        pool,
    }
}
