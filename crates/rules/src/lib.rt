// The rules that the table of a saved form keeps: a form whose table breaks one is refused.
//   is_kept      each call: its reference, pair, state, timer, side and cause, and that no other call has its pair or reference;
//                the pairs in doubt and those out of service; our RESTART
// Nothing has a `requires`. Assumes nothing.
#![tactic(auto)]

ghost use Rattle.std.specs.Prelude.{◌≡◌, ◌≤◌};
ghost use Rattle.std.specs.List.{list_any};
ghost use Rattle.pairs.specs.Pairs.{listed, ascending};
ghost use Rattle.calls.specs.Calls.{is_call, holds_pair};
ghost use Rattle.first.specs.First.{place};
ghost use Rattle.slots.specs.Slots.{slot_count};
ghost use Rattle.provisioning.specs.Provisioning.{all_below};
ghost use Rattle.rules.specs.Rules.{cause_kept, state_kept, is_at, call_kept, slot_kept, is_lost, pairs_kept, all_kept, marks_kept, named_kept, wait_kept, table_kept};

use calls::{Call, Clearing, Hold, State, T303, T308, T310};
use channels::{Named, Pair, Pool};
use pairs::Pairs;
use service::{GlobalState, T316};
use slots::{SLOTS, Slots};
use table::Table;

// The cause of a call that is being cleared.
fn is_cause_kept(network: bool, clearing: Clearing) -> bool
    ensures { result ≡ cause_kept network clearing }
{
    if clearing.expired {
        network && clearing.cause == 102
    } else {
        refusals::is_host_cause(clearing.cause as u64)
    }
}

// A state with its timer, side and cause.
fn is_state_kept(last: u64, network: bool, state: State) -> bool
    ensures { result ≡ state_kept last network state }
{
    match state {
        State::N3 => !network,
        State::N6(deadline) => network && deadline.saturating_sub(T303) <= last,
        State::N9(deadline) => network && deadline.saturating_sub(T310) <= last,
        State::N10 => true,
        State::N12(clearing, deadline) => {
            deadline.saturating_sub(T308) <= last && is_cause_kept(network, clearing)
        }
    }
}

// The first slot whose call holds a pair.
fn first_on(slots: Slots, pair: Pair) -> Option<usize>
    ensures { result ≡ place (holds_pair pair.vpci pair.vci) slots.all }
{
    slots.all.iter().position(|slot| slot.holds_pair(pair))
}

// If a slot is the first on its pair.
fn is_first_on(slots: Slots, slot: usize, pair: Pair) -> bool
    ensures { result ≡ is_at slot (place (holds_pair pair.vpci pair.vci) slots.all) }
{
    first_on(slots, pair).is_some_and(|i| i == slot)
}

// If a slot is the first with its reference.
fn is_first_with(slots: Slots, slot: usize, network: bool, reference: u32) -> bool
    ensures { result ≡ is_at slot (place (is_call network reference) slots.all) }
{
    slots
        .place_of(network, reference)
        .is_some_and(|i| i == slot)
}

// A call of a slot: its reference, that no slot before has its pair or its reference, its pair, its state.
fn is_call_kept(table: Table, slot: usize, call: Call, state: State) -> bool
    ensures { result ≡ call_kept table slot call state }
{
    call.reference != 0
        && is_first_on(table.slots, slot, call.pair)
        && is_first_with(table.slots, slot, call.network, call.reference)
        && table.pool.permits(call.pair)
        && is_state_kept(table.last, call.network, state)
}

fn is_slot_kept(table: Table, slot: usize) -> bool
    ensures { result ≡ slot_kept table slot }
{
    match table.slots.hold_at(slot as u64) {
        Hold::Empty => true,
        Hold::Live(call, state) => is_call_kept(table, slot, call, state),
    }
}

// Every slot keeps them.
fn are_slots_kept(table: Table) -> bool
    ensures { result ≡ all_below (slot_kept table) slot_count }
{
    for i in 0..SLOTS {
        if !is_slot_kept(table, i) {
            return false;
        }
    }
    true
}

// If each pair is lower than the next.
fn is_ascending(pairs: Pairs) -> bool
    ensures { result ≡ ascending (listed pairs) }
{
    let numbers = pairs.listed();
    for i in 1..numbers.len() {
        if numbers[i] <= numbers[i - 1] {
            return false;
        }
    }
    true
}

// If some call holds a pair.
fn is_held(slots: Slots, pair: Pair) -> bool
    ensures { result ≡ list_any (holds_pair pair.vpci pair.vci) slots.all }
{
    slots.all.iter().any(|slot| slot.holds_pair(pair))
}

// If a pair is not permitted, or a call holds it, or it is one of the others.
fn is_lost(table: Table, others: Pairs, number: u32) -> bool
    ensures { result ≡ is_lost table others number }
{
    let pair = Pair {
        vpci: (number / 65536) as u16,
        vci: (number % 65536) as u16,
    };
    !table.pool.permits(pair) || is_held(table.slots, pair) || others.has(pair)
}

fn is_some_lost(table: Table, others: Pairs, pairs: Pairs) -> bool
    ensures { result ≡ list_any (is_lost table others) (listed pairs) }
{
    pairs
        .listed()
        .iter()
        .any(|number| is_lost(table, others, *number))
}

// The pairs ascend, and none is lost.
fn are_pairs_kept(table: Table, others: Pairs, pairs: Pairs) -> bool
    ensures { result ≡ pairs_kept table others pairs }
{
    is_ascending(pairs) && !is_some_lost(table, others, pairs)
}

// With all pairs out of service, none is in doubt, and none is held.
fn is_all_kept(table: Table) -> bool
    ensures { result ≡ all_kept table }
{
    !table.out.all || table.doubts.count == 0 && !table.slots.any_named(Named::All)
}

// The pairs out of service.
fn are_marks_kept(table: Table) -> bool
    ensures { result ≡ marks_kept table }
{
    are_pairs_kept(table, table.doubts, table.out.pairs) && is_all_kept(table)
}

// One pair that our RESTART names is permitted.
fn is_named_kept(pool: Pool, named: Named) -> bool
    ensures { result ≡ named_kept pool named }
{
    match named {
        Named::All => true,
        Named::One(pair) => pool.permits(pair),
    }
}

// Our RESTART, with its timer.
fn is_wait_kept(last: u64, pool: Pool, state: GlobalState) -> bool
    ensures { result ≡ wait_kept last pool state }
{
    match state {
        GlobalState::Null => true,
        GlobalState::RestartRequest(named, _, deadline) => {
            deadline.saturating_sub(T316) <= last && is_named_kept(pool, named)
        }
    }
}

// The table keeps every rule.
pub fn is_kept(table: Table) -> bool
    ensures { result ≡ table_kept slot_count table }
{
    are_pairs_kept(table, table.out.pairs, table.doubts)
        && are_marks_kept(table)
        && is_wait_kept(table.last, table.pool, table.global.state)
        && are_slots_kept(table)
}
