// Why an event, a start, a reload or a save is refused: a variant for each number of document 01, and R-4's.
//   Refusal      the reason
//   number       its number
// Nothing has a `requires`. Assumes nothing.
#![tactic(auto)]

ghost use Rattle.std.specs.Prelude.{◌≡◌};
ghost use Rattle.refusal.specs.Refusal.{number_of};

use std::error::Error;
use std::fmt;

#[derive(Clone, Copy, Debug, PartialEq, Eq)]
pub enum Refusal {
    ShortRoom,
    WrongLabel,
    LateReading,
    EarlyReading,
    MessageSize,
    NoCall,
    WrongState,
    ForeignCause,
    BrokenRule,
    UnfitBody,
    NoEmptySlot,
    NoFreePair,
    NoRestart,
}

impl Refusal {
    // The number that the host is told.
    pub fn number(self) -> u8
        ensures { result ≡ number_of self }
    {
        match self {
            Refusal::ShortRoom => 1,
            Refusal::WrongLabel => 2,
            Refusal::LateReading => 3,
            Refusal::EarlyReading => 4,
            Refusal::MessageSize => 5,
            Refusal::NoCall => 6,
            Refusal::WrongState => 7,
            Refusal::ForeignCause => 8,
            Refusal::BrokenRule => 9,
            Refusal::UnfitBody => 10,
            Refusal::NoEmptySlot => 11,
            Refusal::NoFreePair => 12,
            Refusal::NoRestart => 13,
        }
    }
}

impl fmt::Display for Refusal {
    fn fmt<W: fmt::Write>(&self, f: &mut fmt::Formatter<W>) -> fmt::Result {
        match self {
            Refusal::ShortRoom => write!(f, "the room is too short"),
            Refusal::WrongLabel => write!(f, "the clock label is not 1"),
            Refusal::LateReading => write!(f, "the reading is above the largest"),
            Refusal::EarlyReading => write!(f, "the reading is below the last accepted"),
            Refusal::MessageSize => write!(f, "the message is empty or too long"),
            Refusal::NoCall => write!(f, "no call is in the slot"),
            Refusal::WrongState => write!(f, "the call is in the wrong state"),
            Refusal::ForeignCause => write!(f, "the cause is not the host's"),
            Refusal::BrokenRule => write!(f, "the lists or the saved form break a rule"),
            Refusal::UnfitBody => write!(f, "the body is no offer's"),
            Refusal::NoEmptySlot => write!(f, "no slot is empty"),
            Refusal::NoFreePair => write!(f, "no permitted pair is free"),
            Refusal::NoRestart => write!(f, "a restart is under way, or the pair is not permitted"),
        }
    }
}

impl Error for Refusal {}
