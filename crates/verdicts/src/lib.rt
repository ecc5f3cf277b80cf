// What becomes of a call, and what a clear by the host and a firing timer make of it.
//   Notice                    what the host is told of a call
//   Fate, Verdict             what becomes of a call; that with the reply
//   because, plain_cause      a cause with its diagnostic, and one without
//   answered, moved, ended    the call stays; it goes to another state; it is gone
//   release, expire           RELEASE is sent, and T308 runs; a timer fires
// `release` and `expire` ask for a reading that is not refused. Assumes nothing.
#![tactic(auto)]

ghost use Rattle.std.specs.Prelude.{◌≡◌, ◌≤◌};
ghost use Rattle.verdicts.specs.Verdict.{notice_number, because, plain_cause, answered, moved, ended, lost};
ghost use Rattle.verdicts.specs.Expiry.{diagnosed, released, waiting, expire_clearing, expire};

use calls::{Clearing, Reading, State, T308};
use replies::{Cause, Diagnostic, Reply};

// What the host is told of a call: it is asked, it is answered, it is gone.
#[derive(Clone, Copy, PartialEq, Eq)]
pub enum Notice {
    Asked,
    Answered,
    Gone,
}

impl Notice {
    // The paper's number of a notice.
    pub fn number(self) -> u8
        ensures { result ≡ notice_number (Some self) }
    {
        match self {
            Notice::Asked => 1,
            Notice::Answered => 2,
            Notice::Gone => 3,
        }
    }
}

// What becomes of a call. `To`: it goes to a state, with this notice. `InDoubt`: it is gone, and its pair is in doubt.
#[derive(Clone, Copy)]
pub enum Fate {
    Stay,
    To(State, Option<Notice>),
    Gone,
    InDoubt,
}

#[derive(Clone, Copy)]
pub struct Verdict {
    pub fate: Fate,
    pub reply: Reply,
}

// A cause with its diagnostic.
pub fn because(number: u8, diagnostic: Diagnostic) -> Cause
    ensures { result ≡ because number diagnostic }
{
    Cause { number, diagnostic }
}

// A cause without a diagnostic.
pub fn plain_cause(number: u8) -> Cause
    ensures { result ≡ plain_cause number }
{
    because(number, Diagnostic::None)
}

// The call stays as it is.
pub fn answered(reply: Reply) -> Verdict
    ensures { result ≡ answered reply }
{
    Verdict {
        fate: Fate::Stay,
        reply,
    }
}

// The call goes to another state.
pub fn moved(state: State, reply: Reply, notice: Option<Notice>) -> Verdict
    ensures { result ≡ moved state reply notice }
{
    Verdict {
        fate: Fate::To(state, notice),
        reply,
    }
}

// The call is gone.
pub fn ended(reply: Reply) -> Verdict
    ensures { result ≡ ended reply }
{
    Verdict {
        fate: Fate::Gone,
        reply,
    }
}

// The call is gone, and its pair is in doubt.
fn lost() -> Verdict
    ensures { result ≡ lost }
{
    Verdict {
        fate: Fate::InDoubt,
        reply: Reply::None,
    }
}

fn diagnosed(expired: bool) -> Diagnostic
    ensures { result ≡ diagnosed expired }
{
    if expired {
        Diagnostic::Timer
    } else {
        Diagnostic::None
    }
}

// RELEASE is sent, and T308 runs.
pub fn release(reading: Reading, second: bool, cause: u8, expired: bool) -> Verdict
    ensures { result ≡ released reading.time second cause expired }
{
    let clearing = Clearing {
        second,
        cause,
        expired,
    };
    let diagnostic = diagnosed(expired);
    moved(
        State::N12(clearing, reading.time + T308),
        Reply::Release(because(cause, diagnostic)),
        None,
    )
}

// With no room for a doubt, the call waits: T308 starts again, and nothing is sent.
fn wait(reading: Reading, clearing: Clearing) -> Verdict
    ensures { result ≡ waiting reading.time clearing }
{
    let again = Clearing {
        second: true,
        ..clearing
    };
    moved(State::N12(again, reading.time + T308), Reply::None, None)
}

fn expire_clearing(clearing: Clearing, reading: Reading, full: bool) -> Verdict
    ensures { result ≡ expire_clearing full clearing reading.time }
{
    if !clearing.second {
        return release(reading, true, clearing.cause, clearing.expired);
    }
    if full {
        wait(reading, clearing)
    } else {
        lost()
    }
}

// The timer of a call in this state fires; `full`: there is no room for a doubt.
pub fn expire(state: State, reading: Reading, full: bool) -> Verdict
    ensures { result ≡ expire full state reading.time }
{
    match state {
        State::N3 | State::N10 => answered(Reply::None),
        State::N6(_) => ended(Reply::None),
        State::N9(_) => release(reading, false, 102, true),
        State::N12(clearing, _) => expire_clearing(clearing, reading, full),
    }
}
