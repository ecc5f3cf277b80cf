// What an event decides: a small value, without the table in it.
//   Ending, Change         why a RESTART ends; what becomes of the table
//   Effect                 a change, and what is sent, with its flag and call reference
//   replying, quiet        a reply alone; nothing happens
//   on_call                a verdict on the call of one slot
//   assign                 a call put into an empty slot
//   flag_slot              the flag of a slot, where a change has a notice
//   global_after, out_after    what the end of a RESTART makes of ours, and of the pairs out of service
// Nothing has a `requires`. Assumes nothing.
#![tactic(auto)]

ghost use Rattle.std.specs.Prelude.{◌≡◌};
ghost use Rattle.verdicts.specs.Verdict.{notice_number};
ghost use Rattle.effects.specs.Change.{global_ended, out_ended, flagged};
ghost use Rattle.effects.specs.Effect.{fated, replying, quiet, on_call, assigned};

use calls::{Call, Slot, State};
use channels::{Named, Pair};
use replies::{Outgoing, Reply};
use service::{Global, GlobalState, OutOfService};
use slots::Flags;
use verdicts::{Fate, Notice, Verdict};

// Why calls and doubts end: a user's RESTART, the acknowledge of ours, or T316 that ran out a second time.
#[derive(Clone, Copy)]
pub enum Ending {
    User,
    Acknowledged,
    Expired,
}

// What becomes of the slots, of the pairs in doubt and out of service, and of our RESTART.
#[derive(Clone, Copy)]
pub enum Change {
    Keep,
    // The slot with this number becomes this, and this notice, if there is one, names it.
    Put(usize, Slot, Option<Notice>),
    // The call of the slot is gone, and its pair is in doubt.
    Doubt(usize, Pair),
    // The calls on the pairs that are named are gone, and none of these pairs is in doubt.
    Restart(Named, Ending),
    // Our RESTART names these pairs; if T316 runs a second time, and its deadline.
    Request(Named, bool, u64),
    // No pair is out of service.
    PutBack,
}

// What an event does. What it sends carries this flag and call reference.
#[derive(Clone, Copy)]
pub struct Effect {
    pub change: Change,
    pub flag: bool,
    pub reference: u32,
    pub outgoing: Outgoing,
}

// The flag of a slot, where there is a notice.
pub fn flag_slot(notice: Option<Notice>, slot: usize) -> Flags
    ensures { result ≡ flagged (notice_number notice) slot }
{
    match notice {
        None => Flags::none(),
        Some(_) => Flags::only(slot),
    }
}

// A RESTART of ours is under way no more, if it was ours that ended.
pub fn global_after(why: Ending, global: Global) -> Global
    ensures { result ≡ global_ended why global }
{
    match why {
        Ending::User => global,
        Ending::Acknowledged | Ending::Expired => Global {
            state: GlobalState::Null,
        },
    }
}

// The pairs that are named are out of service, if T316 ran out.
pub fn out_after(why: Ending, named: Named, out: OutOfService) -> OutOfService
    ensures { result ≡ out_ended why named out }
{
    match why {
        Ending::User | Ending::Acknowledged => out,
        Ending::Expired => out.with(named),
    }
}

// A reply alone.
pub fn replying(flag: bool, reference: u32, reply: Reply) -> Effect
    ensures { result ≡ replying flag reference reply }
{
    Effect {
        change: Change::Keep,
        flag,
        reference,
        outgoing: Outgoing::Reply(reply),
    }
}

// Nothing happens.
pub fn quiet() -> Effect
    ensures { result ≡ quiet }
{
    replying(false, 0, Reply::None)
}

// What its fate makes of the slot of a call.
fn fated(i: usize, call: Call, fate: Fate) -> Change
    ensures { result ≡ fated i call fate }
{
    match fate {
        Fate::Stay => Change::Keep,
        Fate::To(state, notice) => Change::Put(i, Slot::live(call, state), notice),
        Fate::Gone => Change::Put(i, Slot::empty(), Some(Notice::Gone)),
        Fate::InDoubt => Change::Doubt(i, call.pair),
    }
}

// A verdict on the call of one slot; a reply about it carries this flag and call reference.
pub fn on_call(i: usize, call: Call, flag: bool, reference: u32, verdict: Verdict) -> Effect
    ensures { result ≡ on_call i call flag reference verdict }
{
    Effect {
        change: fated(i, call, verdict.fate),
        flag,
        reference,
        outgoing: Outgoing::Reply(verdict.reply),
    }
}

// A call put into a slot: the host is told that it is asked.
pub fn assign(i: usize, call: Call, state: State, flag: bool, outgoing: Outgoing) -> Effect
    ensures { result ≡ assigned i call state flag outgoing }
{
    Effect {
        change: Change::Put(i, Slot::live(call, state), Some(Notice::Asked)),
        flag,
        reference: call.reference,
        outgoing,
    }
}
