// Judgements: what a message does to the one call that it names, decided from the message and the call's state alone.
//   Class, Kind               what a message is to a call, and which of those that are expected
//   class_of                  the decision over type number and state
//   judge                     a message on a live call
//   no_call_reply             the reply to a message on no call, other than SETUP
//   global_reply              the reply to a message on the global reference, other than RESTART with flag 0
// `judge` asks for a reading that is not refused. Assumes nothing.
#![tactic(auto)]

ghost use Rattle.std.specs.Prelude.{◌≡◌, ◌≤◌};
ghost use Rattle.judging.specs.Class.{classify};
ghost use Rattle.judging.specs.Judge.{release_complete, release_reply, status_verdict, status_of, contents_verdict, judge, status_reply, no_call_reply, global_reply};
ghost use Rattle.elements.specs.Values.{cause_in, call_state_in};
ghost use Rattle.verdicts.specs.Verdict.{answered};

use calls::{Reading, State, T310};
use elements::Read;
use header::{Header, MessageType};
use replies::{Diagnostic, Reply};
use verdicts::{Notice, Verdict, answered, because, ended, moved, plain_cause};

// What a message is to a live call. `Unknown` stays a variant: it is one of four answers, with an effect of its own.
#[derive(Clone, Copy)]
pub enum Class {
    Ignored,
    Unknown,
    Unexpected,
    Expected(Kind),
}

#[derive(Clone, Copy)]
pub enum Kind {
    CallProceeding,
    Connect,
    ConnectAcknowledge,
    Release,
    ReleaseComplete,
    StatusEnquiry,
    Status,
}

// What a message of this type is to a call in this state; every other number is unknown.
pub fn class_of(kind: u8, state: State) -> Class
    ensures { result ≡ classify kind state }
{
    match (MessageType::try_from(kind), state) {
        (Err(_), _) => Class::Unknown,
        (Ok(MessageType::Setup), _) => Class::Ignored,
        (Ok(MessageType::CallProceeding), State::N6(_)) => Class::Expected(Kind::CallProceeding),
        (Ok(MessageType::Connect), State::N6(_) | State::N9(_)) => Class::Expected(Kind::Connect),
        (Ok(MessageType::ConnectAcknowledge), State::N10) => {
            Class::Expected(Kind::ConnectAcknowledge)
        }
        (Ok(MessageType::Release), _) => Class::Expected(Kind::Release),
        (Ok(MessageType::ReleaseComplete), _) => Class::Expected(Kind::ReleaseComplete),
        (Ok(MessageType::StatusEnquiry), _) => Class::Expected(Kind::StatusEnquiry),
        (Ok(MessageType::Status), _) => Class::Expected(Kind::Status),
        (Ok(_), _) => Class::Unexpected,
    }
}

fn release_reply(m: &[u8], state: State) -> Reply
    ensures { result ≡ release_reply state (cause_in m.now 9) }
{
    match state {
        State::N3 => release_complete(m),
        State::N6(_) => release_complete(m),
        State::N9(_) => release_complete(m),
        State::N10 => release_complete(m),
        State::N12(_, _) => Reply::None,
    }
}

fn release_complete(m: &[u8]) -> Reply
    ensures { result ≡ release_complete (cause_in m.now 9) }
{
    match elements::cause(m, 9) {
        Read::Absent => Reply::ReleaseCompleteWith(because(96, Diagnostic::Octet(0x08))),
        Read::Unreadable => Reply::ReleaseCompleteWith(because(100, Diagnostic::Octet(0x08))),
        Read::Readable(_) => Reply::ReleaseComplete,
    }
}

fn status_verdict(m: &[u8]) -> Verdict
    ensures { result ≡ status_verdict (call_state_in m.now 9) }
{
    match elements::call_state(m, 9) {
        Read::Readable(0) => ended(Reply::None),
        _ => answered(Reply::None),
    }
}

// The message is answered with STATUS, which says the call's state.
fn stated(state: State, number: u8, diagnostic: Diagnostic) -> Verdict
    ensures { result ≡ answered (status_of state number diagnostic) }
{
    answered(Reply::Status(state.number(), because(number, diagnostic)))
}

// An expected message whose length field is right.
fn judge_contents(kind: Kind, m: &[u8], state: State, reading: Reading) -> Verdict
    ensures { result ≡ contents_verdict kind m.now state reading.time }
{
    match kind {
        Kind::CallProceeding => moved(State::N9(reading.time + T310), Reply::None, None),
        Kind::Connect => moved(
            State::N10,
            Reply::ConnectAcknowledge,
            Some(Notice::Answered),
        ),
        Kind::ConnectAcknowledge => answered(Reply::None),
        Kind::Release => ended(release_reply(m, state)),
        Kind::ReleaseComplete => ended(Reply::None),
        Kind::StatusEnquiry => stated(state, 30, Diagnostic::None),
        Kind::Status => status_verdict(m),
    }
}

// A message on a live call.
pub fn judge(m: &[u8], head: Header, state: State, reading: Reading) -> Verdict
    ensures { result ≡ judge m.now head state reading.time }
{
    match class_of(head.kind, state) {
        Class::Ignored => answered(Reply::None),
        Class::Unknown => stated(state, 97, Diagnostic::Octet(head.kind)),
        Class::Unexpected => stated(state, 101, Diagnostic::Octet(head.kind)),
        Class::Expected(kind) => {
            if head.whole {
                return judge_contents(kind, m, state, reading);
            }
            answered(Reply::None)
        }
    }
}

fn status_reply(m: &[u8]) -> Reply
    ensures { result ≡ status_reply (call_state_in m.now 9) }
{
    match elements::call_state(m, 9) {
        Read::Absent | Read::Unreadable | Read::Readable(0) => Reply::None,
        Read::Readable(_) => Reply::ReleaseCompleteWith(plain_cause(101)),
    }
}

// The reply to a message on no call, other than SETUP.
pub fn no_call_reply(m: &[u8], head: Header) -> Reply
    ensures { result ≡ no_call_reply m.now head }
{
    match MessageType::try_from(head.kind) {
        Ok(MessageType::ReleaseComplete) => Reply::None,
        Ok(MessageType::StatusEnquiry) => Reply::Status(0, plain_cause(30)),
        Ok(MessageType::Status) if head.whole => status_reply(m),
        Ok(MessageType::Status) => Reply::None,
        _ => Reply::ReleaseCompleteWith(plain_cause(81)),
    }
}

// The reply to a message on the global reference, other than RESTART with flag 0; a STATUS shows this state.
pub fn global_reply(state: u8, head: Header) -> Reply
    ensures { result ≡ global_reply state head }
{
    match MessageType::try_from(head.kind) {
        Ok(MessageType::Status) => Reply::None,
        Ok(MessageType::RestartAcknowledge) if head.flag => {
            Reply::Status(state, because(101, Diagnostic::Octet(head.kind)))
        }
        _ => Reply::Status(state, plain_cause(81)),
    }
}
