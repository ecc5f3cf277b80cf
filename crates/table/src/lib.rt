// The table: what an accepted message and an accepted tick do to it, decided, and how a decision is performed.
//   Table                    the slots, the last accepted reading, the pairs in doubt and out of service, our RESTART, and the pool
//   Table::after             a change performed, and the reading stored: the one way in which a table changes
//   Table::flags, notice     what a change tells the host
//   Table::free_pair         the lowest free permitted pair
//   Table::heard             a message that passed the header checks
//   Fired, Table::fire       the timer that a tick fires, and if another is due
// `heard` and `fire` ask for a reading that is not refused. Assumes nothing.
#![tactic(auto)]

ghost use Rattle.std.specs.Prelude.{◌≡◌, true, ◌&&◌, not, ◌≤◌, eqb};
ghost use Rattle.calls.specs.Calls.{is_empty};
ghost use Rattle.first.specs.First.{place};
ghost use Rattle.setup.specs.Setup.{admission};
ghost use Rattle.slots.specs.Timers.{some_due};
ghost use Rattle.service.specs.Service.{is_waiting};
ghost use Rattle.verdicts.specs.Verdict.{notice_number};
ghost use Rattle.effects.specs.Change.{slots_after, flags_of, notice_of};
ghost use Rattle.effects.specs.Effect.{replying};
ghost use Rattle.restarts.specs.Own.{expire_effect};
ghost use Rattle.table.specs.Effects.{read_at, with_slot, with_doubt, restarted, requesting, putting_back, table_after, free_pair, on_pair, admitted, setup_effect, on_no_call, on_hold, global_effect, message_effect, fire_hold, request_first, fired_slot, fired_request, tick_effect, due_after};

use calls::{Call, Hold, Reading, Slot, State, is_due};
use channels::{Named, Pair, Pool};
use effects::{Change, Effect, Ending, assign, on_call, quiet, replying};
use header::{Header, MessageType};
use pairs::Pairs;
use replies::{Cause, Outgoing, Reply};
use service::{Global, GlobalState, OutOfService};
use slots::{Flags, Slots, Timer};
use verdicts::Notice;

// The table: the slots of calls, the last accepted reading, the pairs in doubt, the state of the global call reference, the pairs
// out of service, and the pool of channels.
#[derive(Clone, Copy)]
pub struct Table {
    pub slots: Slots,
    pub last: u64,
    pub doubts: Pairs,
    pub global: Global,
    pub out: OutOfService,
    pub pool: Pool,
}

// What a tick does, and if another timer is due afterwards.
#[derive(Clone, Copy)]
pub struct Fired {
    pub effect: Effect,
    pub more: bool,
}

// RESTART with flag 0.
fn is_restart(head: Header) -> bool
    ensures { result ≡ (eqb head.kind 0x46 && not head.flag) }
{
    head.kind == MessageType::Restart as u8 && !head.flag
}

// RESTART ACKNOWLEDGE with flag 1, while our RESTART is under way.
fn is_acknowledge(head: Header, state: GlobalState) -> bool
    ensures { result ≡ ((eqb head.kind 0x4E && head.flag) && is_waiting state) }
{
    head.kind == MessageType::RestartAcknowledge as u8 && head.flag && state.is_waiting()
}

// RELEASE COMPLETE for a SETUP.
fn refuse_setup(reference: u32, why: Cause) -> Effect
    ensures { result ≡ replying true reference (Reply.ReleaseCompleteWith why) }
{
    replying(true, reference, Reply::ReleaseCompleteWith(why))
}

// An admitted SETUP with an empty slot: it gets the pair, where there is one.
fn set_up_on(reference: u32, i: usize, free: Option<Pair>) -> Effect
    ensures { result ≡ on_pair reference i free }
{
    let Some(pair) = free else {
        return refuse_setup(reference, verdicts::plain_cause(45));
    };
    let call = Call {
        network: false,
        pair,
        reference,
    };
    let reply = Reply::CallProceeding(pair);
    assign(i, call, State::N3, true, Outgoing::Reply(reply))
}

// A message on the call of a slot.
fn on_slot(m: &[u8], head: Header, reading: Reading, i: usize, slot: Slot) -> Effect
    ensures { result ≡ on_hold m.now head reading.time i slot.hold }
{
    match slot.hold {
        Hold::Empty => quiet(),
        Hold::Live(call, state) => on_call(
            i,
            call,
            !head.flag,
            head.reference,
            judging::judge(m, head, state, reading),
        ),
    }
}

// The timer of a slot's call fires; `full`: there is no room for a doubt.
fn fire_slot(full: bool, reading: Reading, i: usize, hold: Hold) -> Effect
    ensures { result ≡ fire_hold full reading.time i hold }
{
    match hold {
        Hold::Empty => quiet(),
        Hold::Live(call, state) => on_call(
            i,
            call,
            !call.network,
            call.reference,
            verdicts::expire(state, reading, full),
        ),
    }
}

// If T316 is due, and sooner than the soonest timer of a slot.
fn is_first(soonest: Option<Timer>, due: Option<u64>, reading: u64) -> bool
    ensures { result ≡ request_first reading soonest due }
{
    match (due, soonest) {
        (None, _) => false,
        (Some(deadline), None) => deadline <= reading,
        (Some(deadline), Some(timer)) => deadline <= reading && deadline < timer.deadline,
    }
}

// The slots after a change.
fn slots_after(slots: Slots, change: Change) -> Slots
    ensures { result ≡ slots_after change slots }
{
    match change {
        Change::Keep | Change::Request(_, _, _) | Change::PutBack => slots,
        Change::Put(i, slot, _) => slots.with_slot(i, slot),
        Change::Doubt(i, _) => slots.with_slot(i, Slot::empty()),
        Change::Restart(named, _) => slots.without(named),
    }
}

impl Table {
    // The reading is stored.
    fn at(self, reading: u64) -> Table
        ensures { result ≡ read_at self reading }
    {
        Table {
            last: reading,
            ..self
        }
    }

    // One slot is changed.
    fn put(self, reading: u64, i: usize, slot: Slot) -> Table
        ensures { result ≡ with_slot self reading i slot }
    {
        Table {
            slots: self.slots.with_slot(i, slot),
            last: reading,
            ..self
        }
    }

    // A pair is in doubt.
    fn doubt(self, pair: Pair) -> Table
        ensures { result ≡ with_doubt self pair.vpci pair.vci }
    {
        Table {
            doubts: self.doubts.with(pair),
            ..self
        }
    }

    // The calls on the pairs that are named go, and these pairs are not in doubt.
    fn restart(self, reading: u64, named: Named, why: Ending) -> Table
        ensures { result ≡ restarted self reading named why }
    {
        Table {
            slots: self.slots.without(named),
            last: reading,
            doubts: self.doubts.unless_named(named),
            global: effects::global_after(why, self.global),
            out: effects::out_after(why, named, self.out),
            pool: self.pool,
        }
    }

    // Our RESTART is under way.
    fn request(self, reading: u64, named: Named, second: bool, deadline: u64) -> Table
        ensures { result ≡ requesting self reading named second deadline }
    {
        let state = GlobalState::RestartRequest(named, second, deadline);
        Table {
            last: reading,
            global: Global { state },
            ..self
        }
    }

    // No pair is out of service.
    fn put_back(self, reading: u64) -> Table
        ensures { result ≡ putting_back self reading }
    {
        Table {
            last: reading,
            out: OutOfService::none(),
            ..self
        }
    }

    // A change is performed, and the reading is stored: the one way in which a table changes.
    pub fn after(self, reading: u64, change: Change) -> Table
        ensures { result ≡ table_after self reading change }
    {
        match change {
            Change::Keep => self.at(reading),
            Change::Put(i, slot, _) => self.put(reading, i, slot),
            Change::Doubt(i, pair) => self.put(reading, i, Slot::empty()).doubt(pair),
            Change::Restart(named, why) => self.restart(reading, named, why),
            Change::Request(named, second, deadline) => self.request(
                reading, named, second, deadline,
            ),
            Change::PutBack => self.put_back(reading),
        }
    }

    // The flags of the slots that a change's notice names.
    pub fn flags(self, change: Change) -> Flags
        ensures { result ≡ flags_of change self.slots }
    {
        match change {
            Change::Put(i, _, notice) => effects::flag_slot(notice, i),
            Change::Doubt(i, _) => Flags::only(i),
            Change::Restart(named, _) => self.slots.named(named),
            Change::Keep | Change::Request(_, _, _) | Change::PutBack => Flags::none(),
        }
    }

    // The notice of a change: of a RESTART, only if some call goes.
    pub fn notice(self, change: Change) -> Option<Notice>
        ensures { notice_number result ≡ notice_of change (flags_of change self.slots) }
    {
        match change {
            Change::Put(_, _, notice) => notice,
            Change::Doubt(_, _) => Some(Notice::Gone),
            Change::Restart(named, _) if self.slots.any_named(named) => Some(Notice::Gone),
            Change::Restart(_, _) => None,
            Change::Keep | Change::Request(_, _, _) | Change::PutBack => None,
        }
    }

    // The lowest free permitted pair.
    pub fn free_pair(self) -> Option<Pair>
        ensures { result ≡ free_pair self }
    {
        search::find_free(
            self.pool,
            self.slots,
            self.doubts,
            self.out,
            self.global.state,
        )
        .found
    }

    // An admitted SETUP: it gets the lowest empty slot, where there is one.
    fn set_up_admitted(self, reference: u32) -> Effect
        ensures { result ≡ admitted self reference (place is_empty self.slots.all) }
    {
        match self.slots.lowest_empty() {
            None => refuse_setup(reference, verdicts::plain_cause(47)),
            Some(i) => set_up_on(reference, i, self.free_pair()),
        }
    }

    fn set_up(self, m: &[u8], reference: u32) -> Effect
        ensures { result ≡ setup_effect self reference (admission m.now 9) }
    {
        match setup::admit(m, 9) {
            Ok(()) => self.set_up_admitted(reference),
            Err(why) => refuse_setup(reference, why),
        }
    }

    // A message that names no live call.
    fn on_no_call(self, m: &[u8], head: Header) -> Effect
        ensures { result ≡ on_no_call self m.now head }
    {
        if head.kind != MessageType::Setup as u8 {
            return replying(!head.flag, head.reference, judging::no_call_reply(m, head));
        }
        if head.flag || !head.whole {
            return quiet();
        }
        self.set_up(m, head.reference)
    }

    // A message on the global reference.
    fn on_global(self, m: &[u8], head: Header) -> Effect
        ensures { result ≡ global_effect self m.now head }
    {
        let state = self.global.state;
        if is_restart(head) {
            if head.whole {
                return restarts::restart(state.number(), self.pool, m);
            }
            return quiet();
        }
        if is_acknowledge(head, state) {
            if head.whole {
                return restarts::acknowledge(state, m);
            }
            return quiet();
        }
        replying(!head.flag, 0, judging::global_reply(state.number(), head))
    }

    // A message that passed the header checks.
    pub fn heard(self, m: &[u8], head: Header, reading: Reading) -> Effect
        ensures { result ≡ message_effect self m.now head reading.time }
    {
        if head.reference == 0 {
            return self.on_global(m, head);
        }
        match self.slots.find(head.flag, head.reference) {
            None => self.on_no_call(m, head),
            Some((i, slot)) => on_slot(m, head, reading, i, slot),
        }
    }

    // The timer of a slot, which is the soonest; T316 may be due too.
    fn fire_soonest(self, reading: Reading, soonest: Option<Timer>) -> Fired
        ensures { result ≡ fired_slot self reading.time soonest }
    {
        match soonest {
            None => Fired {
                effect: quiet(),
                more: false,
            },
            Some(timer) => {
                let i = timer.slot;
                let hold = self.slots.hold_at(i as u64);
                Fired {
                    effect: fire_slot(self.doubts.is_full(), reading, i, hold),
                    more: timer.another || is_due(self.global.state.due(), reading.time),
                }
            }
        }
    }

    // T316.
    fn fire_request(self, reading: Reading) -> Fired
        ensures { result ≡ fired_request self reading.time }
    {
        let effect = restarts::expire(self.global.state, self.out, reading);
        let left = slots_after(self.slots, effect.change);
        Fired {
            effect,
            more: left.is_some_due(reading.time),
        }
    }

    // The timer that a tick fires, if one is due.
    pub fn fire(self, reading: Reading) -> Fired
        ensures { (result.effect ≡ tick_effect self reading.time) × (result.more ≡ due_after self reading.time (tick_effect self reading.time).change) }
    {
        let soonest = self.slots.soonest(reading.time);
        if is_first(soonest, self.global.state.due(), reading.time) {
            return self.fire_request(reading);
        }
        self.fire_soonest(reading, soonest)
    }
}
