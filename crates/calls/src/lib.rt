// Calls: one call, its state with its timer, and one slot. Everything goes by value.
//   LARGEST_READING               no later reading is accepted; milliseconds, as all times
//   T303, T308, T310              how long each timer runs
//   Reading                       a reading of the clock that is not refused
//   Clearing, State, Call         a call, and the state that it is in; a state's timer is part of the state
//   Hold, Slot                    an empty slot, or a live call with its state
//   State::number, due            the paper's number of a state, and its timer's deadline
//   is_due                        if a deadline has come
//   Slot::..                      what one slot holds
// A slot is 32 octets long: what is small stands first in a variant, beside its tag.
// Nothing here has a `requires`. Assumes nothing.
#![tactic(auto)]

ghost use Rattle.std.specs.Prelude.{◌≡◌, ◌≤◌};
ghost use Rattle.calls.specs.Calls.{state_number, no_slot, live_slot, is_empty, is_live, is_call, holds_pair, entry_of, is_named, emptied};
ghost use Rattle.calls.specs.Timers.{largest_reading, state_due, deadline_of, due_by};

use channels::{Named, Pair};

pub const LARGEST_READING: u64 = 4000000000000;

pub const T303: u64 = 4000;

pub const T308: u64 = 30000;

pub const T310: u64 = 10000;

// A reading of the clock that an event does not refuse: any timer can run from it.
#[derive(Clone, Copy)]
pub struct Reading {
    pub time: u64,
    ghost accepted: { time ≤ largest_reading },
}

// Clearing in N12: if T308 runs a second time, and the cause of the first RELEASE; expired: T310 ran out, and the
// diagnostic is "310", otherwise there is none.
#[derive(Clone, Copy)]
pub struct Clearing {
    pub second: bool,
    pub cause: u8,
    pub expired: bool,
}

// The state of a live call. The number is the deadline of T303 in N6, of T310 in N9 and of T308 in N12.
#[derive(Clone, Copy)]
pub enum State {
    N3,
    N6(u64),
    N9(u64),
    N10,
    N12(Clearing, u64),
}

// Who a live call is, and the pair that it holds. `network`: it is network-originated.
#[derive(Clone, Copy)]
pub struct Call {
    pub network: bool,
    pub pair: Pair,
    pub reference: u32,
}

// Stays an enum: `Option<(Call, State)>` takes 40 octets in place of 32, and each event copies 32 of them.
#[derive(Clone, Copy)]
pub enum Hold {
    Empty,
    Live(Call, State),
}

#[derive(Clone, Copy)]
pub struct Slot {
    pub hold: Hold,
}

impl State {
    // The number that Call state shows.
    pub fn number(self) -> u8
        ensures { result ≡ state_number self }
    {
        match self {
            State::N3 => 3,
            State::N6(_) => 6,
            State::N9(_) => 9,
            State::N10 => 10,
            State::N12(_, _) => 12,
        }
    }

    pub fn due(self) -> Option<u64>
        ensures { result ≡ state_due self }
    {
        match self {
            State::N3 | State::N10 => None,
            State::N6(deadline) | State::N9(deadline) | State::N12(_, deadline) => Some(deadline),
        }
    }
}

// Due: the reading is at least the deadline.
pub fn is_due(deadline: Option<u64>, reading: u64) -> bool
    ensures { result ≡ due_by reading deadline }
{
    deadline.is_some_and(|deadline| deadline <= reading)
}

impl Slot {
    pub fn empty() -> Slot
        ensures { result ≡ no_slot }
    {
        Slot { hold: Hold::Empty }
    }

    // The slot of a call in a state.
    pub fn live(call: Call, state: State) -> Slot
        ensures { result ≡ live_slot call state }
    {
        Slot {
            hold: Hold::Live(call, state),
        }
    }

    pub fn is_empty(self) -> bool
        ensures { result ≡ is_empty self }
    {
        matches!(self.hold, Hold::Empty)
    }

    pub fn is_live(self) -> bool
        ensures { result ≡ is_live self }
    {
        !self.is_empty()
    }

    // If it holds the call with that side and reference.
    pub fn is_call(self, network: bool, reference: u32) -> bool
        ensures { result ≡ is_call network reference self }
    {
        match self.hold {
            Hold::Empty => false,
            Hold::Live(call, _) => call.network == network && call.reference == reference,
        }
    }

    pub fn holds_pair(self, pair: Pair) -> bool
        ensures { result ≡ holds_pair pair.vpci pair.vci self }
    {
        match self.hold {
            Hold::Empty => false,
            Hold::Live(call, _) => call.pair == pair,
        }
    }

    // The pair that its call holds.
    pub fn entry(self) -> Option<Pair>
        ensures { result ≡ entry_of self }
    {
        match self.hold {
            Hold::Empty => None,
            Hold::Live(call, _) => Some(call.pair),
        }
    }

    // The deadline of its timer.
    pub fn due(self) -> Option<u64>
        ensures { result ≡ deadline_of self }
    {
        match self.hold {
            Hold::Empty => None,
            Hold::Live(_, state) => state.due(),
        }
    }

    // If it holds a call on a pair that is named.
    pub fn is_named(self, named: Named) -> bool
        ensures { result ≡ is_named named self }
    {
        match named {
            Named::All => self.is_live(),
            Named::One(pair) => self.holds_pair(pair),
        }
    }

    // Emptied if it is named.
    pub fn unless_named(self, named: Named) -> Slot
        ensures { result ≡ emptied (is_named named) self }
    {
        if self.is_named(named) {
            Slot::empty()
        } else {
            self
        }
    }
}
