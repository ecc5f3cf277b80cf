// What refuses an event: the lowest refusal that applies, if any.
//   common_refusal                      1 to 4, of every event but start
//   message_refusal                     1 to 5
//   connect_refusal, clear_refusal      1 to 4, and 6 to 8
//   is_host_cause                       whether the host may use a cause
//   body_refusal                        10; offer itself finds 11 and 12, where it looks for a slot and a pair
//   restart_refusal                     1 to 4, and 13
// Nothing has a `requires`. What an `Ok` says of the numbers is a second promise (`passed`), for those who go on. Assumes nothing.
// The four numbers of `common_refusal` stay four parameters: they come from the table, the caller and the room, and a struct would be
// put together at each call, to be taken apart at once.
#![tactic(auto)]

ghost use Rattle.std.specs.Prelude.{◌≡◌, true, ◌≤◌, ◌<◌, length, OnOk};
ghost use Rattle.calls.specs.Timers.{largest_reading};
ghost use Rattle.replies.specs.Reply.{reply_room, body_room};
ghost use Rattle.traffic.specs.Traffic.{member};
ghost use Rattle.restarts.specs.Own.{Fits};
ghost use Rattle.refusal.specs.Refusal.{refused_as};
ghost use Rattle.refusals.specs.Refusals.{common_refusal, size_refusal, message_refusal, IsCall, unconnectable, connect_refusal, unclearable, host_causes, cause_refusal, clear_refusal, body_refusal, may_restart, target_refusal, restart_refusal};

use calls::{Hold, LARGEST_READING, State};
use channels::{Pair, Pool};
use refusal::Refusal;
use replies::{BODY_ROOM, REPLY_ROOM};
use restarts::Target;
use service::GlobalState;

// The cause numbers that the host may use.
const HOST_CAUSES: [u64; 17] = [
    1, 3, 16, 17, 18, 21, 22, 27, 28, 31, 41, 47, 49, 57, 58, 63, 88,
];

// Refusals 1 to 4; `last` is the last accepted reading.
pub fn common_refusal(last: u64, label: u64, reading: u64, room: usize) -> Result<(), Refusal>
    ensures value { refused_as result ≡ common_refusal last label reading room }
    ensures passed { OnOk result ((reply_room ≤ room) × (reading ≤ largest_reading)) }
{
    if room < REPLY_ROOM {
        Err(Refusal::ShortRoom)
    } else if label != 1 {
        Err(Refusal::WrongLabel)
    } else if LARGEST_READING < reading {
        Err(Refusal::LateReading)
    } else if reading < last {
        Err(Refusal::EarlyReading)
    } else {
        Ok(())
    }
}

// Refusal 5.
fn size_refusal(m: &[u8]) -> Result<(), Refusal>
    ensures { refused_as result ≡ size_refusal m.now }
{
    if m.is_empty() || 1024 < m.len() {
        Err(Refusal::MessageSize)
    } else {
        Ok(())
    }
}

// Refusals 1 to 5, of message.
pub fn message_refusal(
    last: u64,
    label: u64,
    reading: u64,
    room: usize,
    m: &[u8],
) -> Result<(), Refusal>
    ensures value { refused_as result ≡ message_refusal last label reading room m.now }
    ensures passed { OnOk result ((reply_room ≤ room) × (reading ≤ largest_reading)) }
{
    common_refusal(last, label, reading, room)?;
    size_refusal(m)
}

// Refusals 6 and 7 of connect.
fn unconnectable(hold: Hold) -> Result<(), Refusal>
    ensures value { refused_as result ≡ unconnectable hold }
    ensures passed { OnOk result (IsCall hold) }
{
    match hold {
        Hold::Empty => Err(Refusal::NoCall),
        Hold::Live(_, State::N3) => Ok(()),
        Hold::Live(..) => Err(Refusal::WrongState),
    }
}

// Refusals 1 to 4, 6 and 7, of connect.
pub fn connect_refusal(
    last: u64,
    label: u64,
    reading: u64,
    room: usize,
    hold: Hold,
) -> Result<(), Refusal>
    ensures value { refused_as result ≡ connect_refusal last label reading room hold }
    ensures passed { OnOk result ((reply_room ≤ room) × IsCall hold) }
{
    common_refusal(last, label, reading, room)?;
    unconnectable(hold)
}

// Refusals 6 and 7 of clear.
fn unclearable(hold: Hold) -> Result<(), Refusal>
    ensures value { refused_as result ≡ unclearable hold }
    ensures passed { OnOk result (IsCall hold) }
{
    match hold {
        Hold::Empty => Err(Refusal::NoCall),
        Hold::Live(_, State::N12(..)) => Err(Refusal::WrongState),
        Hold::Live(..) => Ok(()),
    }
}

// Whether the host may use a cause.
pub fn is_host_cause(cause: u64) -> bool
    ensures { result ≡ member cause host_causes }
{
    HOST_CAUSES.contains(&cause)
}

// Refusal 8.
fn cause_refusal(cause: u64) -> Result<(), Refusal>
    ensures value { refused_as result ≡ cause_refusal cause }
    ensures passed { OnOk result (cause < 128) }
{
    if is_host_cause(cause) {
        Ok(())
    } else {
        Err(Refusal::ForeignCause)
    }
}

// Refusals 1 to 4 and 6 to 8, of clear.
pub fn clear_refusal(
    last: u64,
    label: u64,
    reading: u64,
    room: usize,
    hold: Hold,
    cause: u64,
) -> Result<(), Refusal>
    ensures value { refused_as result ≡ clear_refusal last label reading room hold cause }
    ensures passed { OnOk result ((reply_room ≤ room) × (reading ≤ largest_reading) × IsCall hold × (cause < 128)) }
{
    common_refusal(last, label, reading, room)?;
    unclearable(hold)?;
    cause_refusal(cause)
}

// Refusal 10.
pub fn body_refusal(body: &[u8]) -> Result<(), Refusal>
    ensures value { refused_as result ≡ body_refusal body.now }
    ensures passed { OnOk result (length body.now ≤ body_room) }
{
    if body.len() <= BODY_ROOM && setup::offer_fits(body) {
        Ok(())
    } else {
        Err(Refusal::UnfitBody)
    }
}

// If a target is permitted: a number of more than 16 bits is not.
fn may_restart(pool: Pool, target: Target) -> bool
    ensures value { result ≡ may_restart pool target }
    ensures passed { result ≡ true → Fits target }
{
    match target {
        Target::All => true,
        Target::One(vpci, vci) => {
            vpci <= 65535
                && vci <= 65535
                && pool.permits(Pair {
                    vpci: vpci as u16,
                    vci: vci as u16,
                })
        }
    }
}

// Refusal 13.
fn target_refusal(state: GlobalState, pool: Pool, target: Target) -> Result<(), Refusal>
    ensures value { refused_as result ≡ target_refusal state pool target }
    ensures passed { OnOk result (Fits target) }
{
    if state.is_waiting() || !may_restart(pool, target) {
        Err(Refusal::NoRestart)
    } else {
        Ok(())
    }
}

// Refusals 1 to 4 and 13, of restart.
pub fn restart_refusal(
    last: u64,
    label: u64,
    reading: u64,
    room: usize,
    state: GlobalState,
    pool: Pool,
    target: Target,
) -> Result<(), Refusal>
    ensures value { refused_as result ≡ restart_refusal last label reading room state pool target }
    ensures passed { OnOk result ((reply_room ≤ room) × (reading ≤ largest_reading) × Fits target) }
{
    common_refusal(last, label, reading, room)?;
    target_refusal(state, pool, target)
}
