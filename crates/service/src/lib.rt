// Our own RESTART, and the pairs out of service (document 02, R-4). Everything goes by value.
//   T316                            how long its timer runs
//   GlobalState, Global             the state of the global call reference: Null, or Restart Request with its timer
//   GlobalState::number, due        the number that a global STATUS shows, and T316's deadline
//   GlobalState::is_waiting         if a RESTART of ours is under way
//   OutOfService                    all pairs, and single ones
//   OutOfService::none              no pair
//   OutOfService::has_room          if the pairs that are named can be marked
//   OutOfService::with              the pairs that are named are marked too
//   is_all_taken                    if no pair at all is free, whatever else is so
// Nothing here has a `requires`. Assumes nothing.
#![tactic(auto)]

ghost use Rattle.std.specs.Prelude.{◌≡◌};
ghost use Rattle.service.specs.Service.{global_number, global_due, is_waiting, none_out, has_room, with_out, is_all_taken};

use channels::Named;
use pairs::Pairs;

pub const T316: u64 = 120000;

// In Restart Request a RESTART of ours is under way: the pairs that it names, if T316 runs a second time, and T316's deadline.
// Stays an enum: its states are the two that a STATUS shows, 0 and 61, by their names.
#[derive(Clone, Copy)]
pub enum GlobalState {
    Null,
    RestartRequest(Named, bool, u64),
}

#[derive(Clone, Copy)]
pub struct Global {
    pub state: GlobalState,
}

// The pairs out of service: all of them, and at most 64 single ones.
#[derive(Clone, Copy)]
pub struct OutOfService {
    pub all: bool,
    pub pairs: Pairs,
}

impl GlobalState {
    // The number that Call state shows.
    pub fn number(self) -> u8
        ensures { result ≡ global_number self }
    {
        match self {
            GlobalState::Null => 0,
            GlobalState::RestartRequest(_, _, _) => 61,
        }
    }

    pub fn due(self) -> Option<u64>
        ensures { result ≡ global_due self }
    {
        match self {
            GlobalState::Null => None,
            GlobalState::RestartRequest(_, _, deadline) => Some(deadline),
        }
    }

    pub fn is_waiting(self) -> bool
        ensures { result ≡ is_waiting self }
    {
        matches!(self, GlobalState::RestartRequest(_, _, _))
    }
}

impl OutOfService {
    pub fn none() -> OutOfService
        ensures { result ≡ none_out }
    {
        OutOfService {
            all: false,
            pairs: Pairs::none(),
        }
    }

    // "All" is one mark, and has room always.
    pub fn has_room(self, named: Named) -> bool
        ensures { result ≡ has_room self named }
    {
        match named {
            Named::All => true,
            Named::One(_) => !self.pairs.is_full(),
        }
    }

    // A pair that is marked already stays so.
    pub fn with(self, named: Named) -> OutOfService
        ensures { result ≡ with_out self named }
    {
        match named {
            Named::All => OutOfService { all: true, ..self },
            Named::One(pair) if self.pairs.has(pair) => self,
            Named::One(pair) => OutOfService {
                pairs: self.pairs.with(pair),
                ..self
            },
        }
    }
}

// If all pairs are out of service, or a RESTART of all is under way.
pub fn is_all_taken(out: OutOfService, state: GlobalState) -> bool
    ensures { result ≡ is_all_taken out state }
{
    out.all || matches!(state, GlobalState::RestartRequest(Named::All, _, _))
}
