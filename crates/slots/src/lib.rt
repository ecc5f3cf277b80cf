// Slots: the slots of the table together. Everything goes by value.
//   SLOTS, Slots                  how many there are, and all of them
//   Timer                         the soonest timer of the slots passed, and if another is due
//   Flags                         one flag for each slot
//   Slots::find, place_of         the slot of a call, with its number; the number alone
//   Slots::lowest_empty           the number of the first empty slot
//   Slots::hold_at, with_slot     what one slot holds, and one slot changed
//   Slots::soonest                the timer that a tick fires, and if another is due
//   Slots::is_some_due            if some timer is due
//   Slots::in_use, unused_reference   network-originated references
//   Slots::without, named, any_named   the calls on named pairs go; their flags; if there is one
//   Slots::fresh, Flags::none, only
// Nothing here has a `requires`. Assumes nothing.
#![tactic(auto)]

ghost use Rattle.std.specs.Prelude.{◌≡◌, true, false, map, ◌≤◌, ◌<◌, ◌+◌, set, replicate};
ghost use Rattle.std.specs.List.{list_any};
ghost use Rattle.calls.specs.Calls.{no_slot, is_empty, is_call, is_named, emptied};
ghost use Rattle.first.specs.First.{place};
ghost use Rattle.slots.specs.Slots.{slot_count, slots_of, flags_of, spot, hold_at, Within, in_use, unused_reference};
ghost use Rattle.slots.specs.Timers.{some_due, earlier, considered, soonest};

use calls::{Hold, Slot, is_due};
use channels::Named;

pub const SLOTS: usize = 32;

// Of so many references one is in no use: there is one more than there are slots.
const SPARE: u32 = 33;

#[derive(Clone, Copy)]
pub struct Slots {
    pub all: [Slot; SLOTS],
}

// The number of a slot whose timer is due, its deadline, and if another slot is due.
#[derive(Clone, Copy)]
pub struct Timer {
    pub slot: usize,
    pub deadline: u64,
    pub another: bool,
}

// One flag for each slot.
#[derive(Clone, Copy)]
pub struct Flags {
    pub on: [bool; SLOTS],
}

// Smallest deadline first, then lowest slot: `i` comes after the slots passed, so it needs a smaller deadline.
fn earlier(best: Option<Timer>, i: usize, deadline: u64) -> Option<Timer>
    ensures { result ≡ earlier best i deadline }
{
    match best {
        Some(least) if least.deadline <= deadline => Some(Timer {
            another: true,
            ..least
        }),
        _ => Some(Timer {
            slot: i,
            deadline,
            another: best.is_some(),
        }),
    }
}

// The soonest timer that is due, after slot `i` too.
fn considering(best: Option<Timer>, i: usize, due: Option<u64>, reading: u64) -> Option<Timer>
    ensures { result ≡ considered reading best i due }
{
    match due {
        Some(deadline) if deadline <= reading => earlier(best, i, deadline),
        _ => best,
    }
}

impl Flags {
    pub fn none() -> Flags
        ensures { result ≡ flags_of (replicate slot_count false) }
    {
        Flags { on: [false; SLOTS] }
    }

    // The flag of one slot.
    pub fn only(i: usize) -> Flags
        ensures { result ≡ flags_of (set (replicate slot_count false) i true) }
    {
        let mut on = [false; SLOTS];
        if i < SLOTS {
            on[i] = true;
        }
        Flags { on }
    }
}

impl Slots {
    pub fn fresh() -> Slots
        ensures { result ≡ slots_of (replicate slot_count no_slot) }
    {
        Slots {
            all: [Slot::empty(); SLOTS],
        }
    }

    // What a slot holds; one that the table lacks holds nothing.
    pub fn hold_at(self, i: u64) -> Hold
        ensures value { result ≡ hold_at self.all i }
        ensures within { Within i result }
    {
        if SLOTS as u64 <= i {
            return Hold::Empty;
        }
        self.all[i as usize].hold
    }

    pub fn with_slot(self, i: usize, slot: Slot) -> Slots
        ensures { result ≡ slots_of (set self.all i slot) }
    {
        let mut slots = self;
        if i < SLOTS {
            slots.all[i] = slot;
        }
        slots
    }

    // The slot of the call with that side and reference, and its number.
    pub fn find(self, network: bool, reference: u32) -> Option<(usize, Slot)>
        ensures { result ≡ spot self.all (place (is_call network reference) self.all) }
    {
        let i = self.place_of(network, reference)?;
        Some((i, self.all[i]))
    }

    // The number of the slot of that call.
    pub fn place_of(self, network: bool, reference: u32) -> Option<usize>
        ensures { result ≡ place (is_call network reference) self.all }
    {
        self.all
            .iter()
            .position(|slot| slot.is_call(network, reference))
    }

    pub fn lowest_empty(self) -> Option<usize>
        ensures { result ≡ place is_empty self.all }
    {
        self.all.iter().position(|slot| slot.is_empty())
    }

    // The timer that a tick fires, and if another is due: one look at each slot.
    pub fn soonest(self, reading: u64) -> Option<Timer>
        ensures { result ≡ soonest reading self.all }
    {
        let mut best = None;
        for (i, slot) in self.all.iter().enumerate() {
            best = considering(best, i, slot.due(), reading);
        }
        best
    }

    // If the timer of some slot is due.
    pub fn is_some_due(self, reading: u64) -> bool
        ensures { result ≡ some_due reading self.all }
    {
        self.all.iter().any(|slot| is_due(slot.due(), reading))
    }

    // If a live network-originated call has the reference.
    pub fn in_use(self, reference: u32) -> bool
        ensures { result ≡ in_use reference self.all }
    {
        self.all.iter().any(|slot| slot.is_call(true, reference))
    }

    // The lowest network-originated reference from 1 that is not in use.
    pub fn unused_reference(self) -> u32
        ensures value { result ≡ unused_reference self.all }
        ensures small { (1 ≤ result) × (result ≤ slot_count + 1) }
    {
        for r in 1..SPARE {
            if !self.in_use(r) {
                return r;
            }
        }
        SPARE
    }

    // The calls on the pairs that are named go.
    pub fn without(self, named: Named) -> Slots
        ensures { result ≡ slots_of (map (emptied (is_named named)) self.all) }
    {
        let mut all = self.all;
        for (i, slot) in self.all.iter().enumerate() {
            all[i] = slot.unless_named(named);
        }
        Slots { all }
    }

    // The flags of the calls on the pairs that are named.
    pub fn named(self, named: Named) -> Flags
        ensures { result ≡ flags_of (map (is_named named) self.all) }
    {
        let mut on = [false; SLOTS];
        for (i, slot) in self.all.iter().enumerate() {
            on[i] = slot.is_named(named);
        }
        Flags { on }
    }

    // If a call is on a pair that is named.
    pub fn any_named(self, named: Named) -> bool
        ensures { result ≡ list_any (is_named named) self.all }
    {
        self.all.iter().any(|slot| slot.is_named(named))
    }
}
