// What is found of an identifier among elements, and the values of a message's elements.
//   Read, Part                    absent, unreadable, or what is read; where readable contents are
//   action_fits, look_for         is octet 2 readable; where the contents of an identifier are
//   cause, call_state, connection, bearer, restart      what one element says; of 59, crate `traffic` asks the contents
// `m` is any octets, and `from` the place of the first element: 9 in a message, 0 in an offer's body.
// Nothing that is public has a `requires`. Assumes nothing.
#![tactic(auto)]

ghost use Rattle.std.specs.Prelude.{◌≡◌, length};
ghost use Rattle.std.specs.Fn.{FnOnceReturnsAt};
ghost use Rattle.elements.specs.Elements.{is_absent, is_unreadable, action_fits, look_for, Within};
ghost use Rattle.elements.specs.Values.{IsReadBy, cause_in, call_state_in, connection_in, configured, bearer_in, restart_in};

use identifier::Pair;
use items::Item;

// What is found of an element that is looked for.
#[derive(Clone, Copy)]
pub enum Read<T> {
    Absent,
    Unreadable,
    Readable(T),
}

impl<T> Read<T> {
    pub fn is_absent(&self) -> bool
        ensures { result ≡ is_absent self.now }
    {
        matches!(self, Read::Absent)
    }

    pub fn is_unreadable(&self) -> bool
        ensures { result ≡ is_unreadable self.now }
    {
        matches!(self, Read::Unreadable)
    }
}

// The octets from a start up to an end.
#[derive(Clone, Copy)]
pub struct Part {
    pub start: usize,
    pub end: usize,
}

// Is octet 2 readable? 80, for Cause and QoS also E0.
pub fn action_fits(id: u8, action: u8) -> bool
    ensures { result ≡ action_fits id action }
{
    action == 0x80 || (action == 0xE0 && matches!(id, 0x08 | 0x5C))
}

// Where the readable contents of an identifier are.
pub fn look_for(m: &[u8], from: usize, id: u8) -> Read<Part>
    ensures value { result ≡ look_for m.now from id }
    ensures within { Within (length m.now) result }
{
    match items::first_of(m, from, id) {
        Item::End => Read::Absent,
        Item::Whole {
            action,
            start,
            end,
            ..
        } if action_fits(id, action) && contents::fits(id, &m[start..end]) => {
            Read::Readable(Part { start, end })
        }
        _ => Read::Unreadable,
    }
}

// What is read of an identifier, by a value of readable contents.
fn read_by<T, F: FnOnce(&[u8]) -> T>(m: &[u8], from: usize, id: u8, value: F) -> Read<T>
    requires { F.IsAlwaysCallable value }
    ensures { IsReadBy (FnOnceReturnsAt F.FnOnce value) m.now (look_for m.now from id) result }
{
    match look_for(m, from, id) {
        Read::Absent => Read::Absent,
        Read::Unreadable => Read::Unreadable,
        Read::Readable(Part { start, end }) => Read::Readable(value(&m[start..end])),
    }
}

// 08 Cause: the cause number.
pub fn cause(m: &[u8], from: usize) -> Read<u8>
    ensures { result ≡ cause_in m.now from }
{
    read_by(m, from, 0x08, contents::cause_number)
}

// 14 Call state.
pub fn call_state(m: &[u8], from: usize) -> Read<u8>
    ensures { result ≡ call_state_in m.now from }
{
    read_by(m, from, 0x14, contents::call_state)
}

// 5A Connection identifier.
pub fn connection(m: &[u8], from: usize) -> Read<Pair>
    ensures { result ≡ connection_in m.now from }
{
    read_by(m, from, 0x5A, contents::connection_in)
}

// 5E Bearer capability: its user plane's connection configuration.
#[derive(Clone, Copy)]
pub enum Configuration {
    PointToPoint,
    Multipoint,
}

fn configured(c: &[u8]) -> Configuration
    ensures { result ≡ configured c.now }
{
    if mandatory::is_multipoint(c) {
        Configuration::Multipoint
    } else {
        Configuration::PointToPoint
    }
}

pub fn bearer(m: &[u8], from: usize) -> Read<Configuration>
    ensures { result ≡ bearer_in m.now from }
{
    read_by(m, from, 0x5E, configured)
}

// 79 Restart indicator: its class, 80 for one pair or 82 for all. Stays a number: theorems of history and safety name 80 and 82.
pub fn restart(m: &[u8], from: usize) -> Read<u8>
    ensures { result ≡ restart_in m.now from }
{
    read_by(m, from, 0x79, contents::restart_class)
}
