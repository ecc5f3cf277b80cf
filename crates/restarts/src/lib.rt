// RESTART, a user's and our own: what each decides.
//   restart          a user's RESTART
//   Target, named_by     what the host wants restarted, and the pairs that this names
//   request          our RESTART is sent, and T316 runs
//   acknowledge      RESTART ACKNOWLEDGE, while ours is under way
//   expire           T316 runs out
//   put_back         no pair is out of service
// `request` and `expire` ask for a reading that is not refused, `named_by` for numbers of 16 bits. Assumes nothing.
#![tactic(auto)]

ghost use Rattle.std.specs.Prelude.{◌≡◌, ◌||◌, ◌≤◌, ltb};
ghost use Rattle.channels.specs.Channels.{permanent};
ghost use Rattle.elements.specs.Values.{connection_in, restart_in, pair_read};
ghost use Rattle.restarts.specs.User.{restart_status, restarting, pair_restart, restart_effect};
ghost use Rattle.restarts.specs.Own.{Fits, named_by, restart_of, requested, ending, is_class, is_connection, is_same, acknowledge_effect, expire_second, expire_effect, put_back};

use calls::Reading;
use channels::{Named, Pair, Pool};
use effects::{Change, Effect, Ending, quiet, replying};
use elements::Read;
use replies::{Diagnostic, Outgoing, Reply};
use service::{GlobalState, OutOfService, T316};

// STATUS on the global reference, in answer to a RESTART.
fn restart_status(state: u8, number: u8, diagnostic: Diagnostic) -> Effect
    ensures { result ≡ restart_status state number diagnostic }
{
    replying(
        true,
        0,
        Reply::Status(state, verdicts::because(number, diagnostic)),
    )
}

// Calls are gone and doubts end, for a RESTART.
fn restarting(named: Named, reply: Reply) -> Effect
    ensures { result ≡ restarting named reply }
{
    Effect {
        change: Change::Restart(named, Ending::User),
        flag: true,
        reference: 0,
        outgoing: Outgoing::Reply(reply),
    }
}

// A pair that no RESTART is acted on.
fn is_barred(pool: Pool, pair: Pair) -> bool
    ensures { result ≡ (ltb pair.vci 32 || permanent pool pair.vpci pair.vci) }
{
    pair.vci < 32 || pool.is_permanent(pair)
}

fn restart_pair(state: u8, pool: Pool, pair: Pair) -> Effect
    ensures { result ≡ pair_restart state pool (Read.Readable pair) }
{
    if !pool.knows_vpci(pair.vpci) {
        return restart_status(state, 100, Diagnostic::Octet(0x5A));
    }
    if is_barred(pool, pair) {
        return restart_status(state, 82, Diagnostic::Pair(pair));
    }
    restarting(Named::One(pair), Reply::RestartAcknowledge(pair))
}

// For 80: the pair of the Connection identifier.
fn restart_connection(state: u8, pool: Pool, m: &[u8]) -> Effect
    ensures { result ≡ pair_restart state pool (connection_in m.now 9) }
{
    match elements::connection(m, 9) {
        Read::Absent => restart_status(state, 96, Diagnostic::Octet(0x5A)),
        Read::Unreadable => restart_status(state, 100, Diagnostic::Octet(0x5A)),
        Read::Readable(pair) => restart_pair(state, pool, pair),
    }
}

fn restart_class(state: u8, pool: Pool, m: &[u8], class: u8) -> Effect
    ensures { result ≡ restart_effect state pool (Read.Readable class) (connection_in m.now 9) }
{
    if class == 0x82 {
        return restarting(Named::All, Reply::RestartAcknowledgeAll);
    }
    restart_connection(state, pool, m)
}

// A user's RESTART, by its elements; a STATUS shows this state.
pub fn restart(state: u8, pool: Pool, m: &[u8]) -> Effect
    ensures { result ≡ restart_effect state pool (restart_in m.now 9) (connection_in m.now 9) }
{
    match elements::restart(m, 9) {
        Read::Absent => restart_status(state, 96, Diagnostic::Octet(0x79)),
        Read::Unreadable => restart_status(state, 100, Diagnostic::Octet(0x79)),
        Read::Readable(class) => restart_class(state, pool, m, class),
    }
}

// What the host wants restarted: all pairs, or the one of a VPCI and a VCI. Stays beside `Named`: the host may give numbers that are no
// pair's, and `may_restart` (refusal 13) tells them apart.
#[derive(Clone, Copy)]
pub enum Target {
    All,
    One(u64, u64),
}

// The pairs that a target names.
pub fn named_by(target: Target) -> Named
    requires { Fits target }
    ensures { result ≡ named_by target }
{
    match target {
        Target::All => Named::All,
        Target::One(vpci, vci) => Named::One(Pair {
            vpci: vpci as u16,
            vci: vci as u16,
        }),
    }
}

// The message that names these pairs.
fn restart_of(named: Named) -> Reply
    ensures { result ≡ restart_of named }
{
    match named {
        Named::All => Reply::RestartAll,
        Named::One(pair) => Reply::Restart(pair),
    }
}

// Our RESTART of these pairs is sent, and T316 runs: the first, or the second.
pub fn request(reading: Reading, named: Named, second: bool) -> Effect
    ensures { result ≡ requested reading.time named second }
{
    Effect {
        change: Change::Request(named, second, reading.time + T316),
        flag: false,
        reference: 0,
        outgoing: Outgoing::Reply(restart_of(named)),
    }
}

// Calls are gone and doubts end with our RESTART, and nothing is sent.
fn end(named: Named, why: Ending) -> Effect
    ensures { result ≡ ending named why }
{
    Effect {
        change: Change::Restart(named, why),
        flag: false,
        reference: 0,
        outgoing: Outgoing::Reply(Reply::None),
    }
}

// If the Restart indicator has this class.
fn is_class(m: &[u8], class: u8) -> bool
    ensures { result ≡ is_class class (restart_in m.now 9) }
{
    matches!(elements::restart(m, 9), Read::Readable(c) if c == class)
}

// If the Connection identifier is this pair.
fn is_connection(m: &[u8], pair: Pair) -> bool
    ensures { result ≡ is_connection pair.vpci pair.vci (connection_in m.now 9) }
{
    matches!(elements::connection(m, 9), Read::Readable(named) if named == pair)
}

// If a RESTART ACKNOWLEDGE has the elements of our RESTART.
fn is_same(m: &[u8], named: Named) -> bool
    ensures { result ≡ is_same named (restart_in m.now 9) (connection_in m.now 9) }
{
    match named {
        Named::All => is_class(m, 0x82),
        Named::One(pair) => is_class(m, 0x80) && is_connection(m, pair),
    }
}

// RESTART ACKNOWLEDGE, by its elements.
pub fn acknowledge(state: GlobalState, m: &[u8]) -> Effect
    ensures { result ≡ acknowledge_effect state (restart_in m.now 9) (connection_in m.now 9) }
{
    match state {
        GlobalState::Null => quiet(),
        GlobalState::RestartRequest(named, _, _) => {
            if is_same(m, named) {
                return end(named, Ending::Acknowledged);
            }
            quiet()
        }
    }
}

// T316 runs out a second time: our RESTART ends and its pairs are out of service, where there is room to mark them.
fn expire_second(named: Named, out: OutOfService, reading: Reading) -> Effect
    ensures { result ≡ expire_second named out reading.time }
{
    if out.has_room(named) {
        return end(named, Ending::Expired);
    }
    request(reading, named, true)
}

// T316 runs out: our RESTART is sent again, or it ends.
pub fn expire(state: GlobalState, out: OutOfService, reading: Reading) -> Effect
    ensures { result ≡ expire_effect state out reading.time }
{
    match state {
        GlobalState::Null => quiet(),
        GlobalState::RestartRequest(named, second, _) => {
            if second {
                return expire_second(named, out, reading);
            }
            request(reading, named, true)
        }
    }
}

// No pair is out of service; nothing is sent.
pub fn put_back() -> Effect
    ensures { result ≡ put_back }
{
    Effect {
        change: Change::PutBack,
        flag: false,
        reference: 0,
        outgoing: Outgoing::Reply(Reply::None),
    }
}
