// The answer of an event.
//   Answer       what an accepted event answers, with the table afterwards; a refused one answers its `Refusal`
//   accept       the answer of an accepted event: its change is performed, its reading stored, its reply written
//   Answered     what an event answers in numbers, accepted or refused
//   Started      the same of a start or a reload
//   fresh        the table that a start makes
// Only `accept` has a `requires`: a room of 1,024 octets, and a body of at most 512. It is no entry point; no event of control
// has a `requires`. Assumes nothing.
#![tactic(auto)]

ghost use Rattle.std.specs.Prelude.{◌≡◌, ◌≤◌, length};
ghost use Rattle.octets.specs.Octets.{front};
ghost use Rattle.replies.specs.Reply.{reply_room, body_room};
ghost use Rattle.outcome.specs.Outcome.{answer_of, sending, fresh_table, started_of};

use channels::Pool;
use effects::Effect;
use pairs::Pairs;
use refusal::Refusal;
use service::{Global, GlobalState, OutOfService};
use slots::{Flags, Slots};
use table::Table;
use verdicts::Notice;

// What an accepted event answers, with the table afterwards. `more`: after a tick, whether another timer is due.
#[derive(Clone, Copy)]
pub struct Answer {
    pub table: Table,
    pub length: usize,
    pub notice: Option<Notice>,
    pub flags: Flags,
    pub more: bool,
}

// What an event answers in numbers, as document 01 has it: beside a refusal's number the table as it was given, and nothing told.
#[derive(Clone, Copy)]
pub struct Answered {
    pub table: Table,
    pub refusal: u8,
    pub length: usize,
    pub notice: u8,
    pub flags: Flags,
    pub more: bool,
}

// What a start or a reload answers in numbers: beside a refusal's number a table with no call and no permitted pair.
#[derive(Clone, Copy)]
pub struct Started {
    pub refusal: u8,
    pub table: Table,
}

// An accepted event. Its reply is written last.
pub fn accept(
    table: Table,
    reading: u64,
    effect: Effect,
    more: bool,
    body: &[u8],
    room: &mut [u8],
) -> Answer
    requires { (reply_room ≤ length room.old) × (length body.now ≤ body_room) }
    ensures { (answer_of table (Ok result) ≡ (sending table reading effect more body.now).answer)
        × (room.new ≡ front (sending table reading effect more body.now).reply room.old) }
{
    let change = effect.change;
    let flags = table.flags(change);
    let notice = table.notice(change);
    let next = table.after(reading, change);
    let length = replies::send(room, effect.flag, effect.reference, effect.outgoing, body);
    Answer {
        table: next,
        length,
        notice,
        flags,
        more,
    }
}

impl Answered {
    // What an event on a table answers in numbers.
    pub fn of(table: Table, answer: Result<Answer, Refusal>) -> Answered
        ensures { result ≡ answer_of table answer }
    {
        match answer {
            Ok(answer) => Answered {
                table: answer.table,
                refusal: 0,
                length: answer.length,
                notice: answer.notice.map_or(0, |notice| notice.number()),
                flags: answer.flags,
                more: answer.more,
            },
            Err(reason) => Answered {
                table,
                refusal: reason.number(),
                length: 0,
                notice: 0,
                flags: Flags::none(),
                more: false,
            },
        }
    }
}

// No call, no reading, no pair in doubt or out of service, and no RESTART of ours.
pub fn fresh(pool: Pool) -> Table
    ensures { result ≡ fresh_table pool }
{
    let state = GlobalState::Null;
    Table {
        slots: Slots::fresh(),
        last: 0,
        doubts: Pairs::none(),
        global: Global { state },
        out: OutOfService::none(),
        pool,
    }
}

impl Started {
    // What a start or a reload answers in numbers.
    pub fn of(answer: Result<Table, Refusal>) -> Started
        ensures { result ≡ started_of answer }
    {
        match answer {
            Ok(table) => Started { refusal: 0, table },
            Err(refusal) => Started {
                refusal: refusal.number(),
                table: fresh(Pool::empty()),
            },
        }
    }
}
