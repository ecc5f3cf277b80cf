// What connect, clear and offer do.
//   connect_call      CONNECT, and the call is active
//   clear_call        RELEASE, and T308 runs
//   offer_call        SETUP on a pair, and T303 runs
// `clear_call` and `offer_call` ask for a reading that is not refused. They are no entry points; no event of control has a
// `requires`. Assumes nothing.
#![tactic(auto)]

ghost use Rattle.std.specs.Prelude.{◌≡◌, ◌≤◌};
ghost use Rattle.commands.specs.Commands.{connected, cleared, offered_on};

use calls::{Call, Hold, Reading, State, T303};
use channels::Pair;
use effects::Effect;
use replies::{Outgoing, Reply};

// CONNECT is sent, and the call of the slot is active.
pub fn connect_call(i: usize, hold: Hold) -> Effect
    ensures { result ≡ connected i hold }
{
    match hold {
        Hold::Empty => effects::quiet(),
        Hold::Live(call, _) => effects::on_call(
            i,
            call,
            !call.network,
            call.reference,
            verdicts::moved(State::N10, Reply::Connect, None),
        ),
    }
}

// RELEASE is sent, and T308 of the slot's call runs.
pub fn clear_call(reading: Reading, i: usize, hold: Hold, cause: u8) -> Effect
    ensures { result ≡ cleared reading.time i cause hold }
{
    match hold {
        Hold::Empty => effects::quiet(),
        Hold::Live(call, _) => effects::on_call(
            i,
            call,
            !call.network,
            call.reference,
            verdicts::release(reading, false, cause, false),
        ),
    }
}

// SETUP is sent on a pair, and T303 runs.
pub fn offer_call(reading: Reading, i: usize, reference: u32, pair: Pair) -> Effect
    ensures { result ≡ offered_on reading.time i reference pair.vpci pair.vci }
{
    let call = Call {
        network: true,
        pair,
        reference,
    };
    effects::assign(
        i,
        call,
        State::N6(reading.time + T303),
        false,
        Outgoing::Setup(pair),
    )
}
