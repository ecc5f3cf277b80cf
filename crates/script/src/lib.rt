// The event script: one line read into one event.
//   read_number            a decimal number below 2^64
//   read_octets            octets in hex, or `-` for none
//   Clock, Request, Line   what a line says
//   read                   a line; octets go to the front of a lent room
//   List, Lists            the two lists of a start
//   read_lists             a line that begins with `start`
//   place_of               the first place of an octet from a place on
// Assumes nothing.
#![tactic(auto)]

mod decimal;
mod hex;
mod start;
mod words;

ghost use Rattle.std.specs.Prelude.{◌≡◌, ℕ, ◌≤◌, length, IfSome};
ghost use Rattle.octets.specs.Octets.{front};
ghost use Rattle.script.specs.Lines.{clock_at, last_read, last_stored, connect_line, clear_line, restart_one_line, restart_line, save_line, event_line, event_stored, timed_line, timed_stored, line_of, line_stored, Asks, Within};

pub use decimal::read_number;
pub use hex::read_octets;
pub use start::{List, Lists, read_lists};
pub use words::place_of;
use words::{Kind, Which, Word};

// What each event on a table carries. `room`: how many octets of reply room are lent.
#[derive(Clone, Copy)]
pub struct Clock {
    pub label: u64,
    pub reading: u64,
    pub room: u64,
}

// What an event asks. Message and offer say how many octets came.
#[derive(Clone, Copy)]
pub enum Request {
    Tick,
    Message(usize),
    Connect(u64),
    Clear(u64, u64),
    Offer(usize),
    RestartAll,
    // VPCI and VCI.
    RestartOne(u64, u64),
    PutBack,
}

// What a line asks. Save says how many octets of room are lent, reload how many came.
#[derive(Clone, Copy)]
pub enum Line {
    Start,
    Event(Clock, Request),
    Save(u64),
    Reload(usize),
}

// Label, reading and room, the three numbers behind place `at`, and the place behind them.
fn read_clock(line: &[u8], at: usize) -> Option<(Clock, usize)>
    ensures { result ≡ clock_at line.now at }
{
    let (label, at) = words::read_field(line, at)?;
    let (reading, at) = words::read_field(line, at)?;
    let (room, at) = words::read_field(line, at)?;
    Some((
        Clock {
            label,
            reading,
            room,
        },
        at,
    ))
}

// How many octets end a line; they go to the front of the room.
fn last_octets(line: &[u8], at: usize, room: &mut [u8]) -> Option<usize>
    ensures value { (result ≡ last_read (length room.old) line.now at)
        × (room.new ≡ front (last_stored (length room.old) line.now at) room.old) }
    ensures within { IfSome result (λ n. n ≤ length room.old) }
{
    if line.len() <= at {
        return None;
    }
    hex::read_octets(&line[at + 1..], room)
}

fn connect(line: &[u8], at: usize) -> Option<Request>
    ensures value { result ≡ connect_line line.now at }
    ensures within { IfSome result (λ r. (room : ℕ) → Asks r room) }
{
    let (slot, end) = words::read_field(line, at)?;
    words::ended(line, end, Request::Connect(slot))
}

fn clear(line: &[u8], at: usize) -> Option<Request>
    ensures value { result ≡ clear_line line.now at }
    ensures within { IfSome result (λ r. (room : ℕ) → Asks r room) }
{
    let (slot, second) = words::read_field(line, at)?;
    let (cause, end) = words::read_field(line, second)?;
    words::ended(line, end, Request::Clear(slot, cause))
}

fn restart_one(line: &[u8], at: usize) -> Option<Request>
    ensures value { result ≡ restart_one_line line.now at }
    ensures within { IfSome result (λ r. (room : ℕ) → Asks r room) }
{
    let (vpci, second) = words::read_field(line, at)?;
    let (vci, end) = words::read_field(line, second)?;
    words::ended(line, end, Request::RestartOne(vpci, vci))
}

fn restart(line: &[u8], at: usize) -> Option<Request>
    ensures value { result ≡ restart_line line.now at }
    ensures within { IfSome result (λ r. (room : ℕ) → Asks r room) }
{
    if line.len() <= at {
        return None;
    }
    let end = words::place_of(b' ', line, at + 1);
    match words::read_which(&line[at + 1..end])? {
        Which::All => words::ended(line, end, Request::RestartAll),
        Which::One => restart_one(line, end),
    }
}

// What follows the clock of an event.
fn read_event(line: &[u8], kind: Kind, at: usize, room: &mut [u8]) -> Option<Request>
    ensures value { (result ≡ event_line (length room.old) line.now kind at)
        × (room.new ≡ front (event_stored (length room.old) line.now kind at) room.old) }
    ensures within { IfSome result (λ r. Asks r (length room.old)) }
{
    match kind {
        Kind::Message => Some(Request::Message(last_octets(line, at, room)?)),
        Kind::Tick => words::ended(line, at, Request::Tick),
        Kind::Connect => connect(line, at),
        Kind::Clear => clear(line, at),
        Kind::Offer => Some(Request::Offer(last_octets(line, at, room)?)),
        Kind::Restart => restart(line, at),
        Kind::PutBack => words::ended(line, at, Request::PutBack),
    }
}

// A clock, and what follows it.
fn read_timed(line: &[u8], kind: Kind, at: usize, room: &mut [u8]) -> Option<Line>
    ensures value { (result ≡ timed_line (length room.old) line.now kind (clock_at line.now at))
        × (room.new ≡ front (timed_stored (length room.old) line.now kind (clock_at line.now at)) room.old) }
    ensures within { IfSome result (λ l. Within l (length room.old)) }
{
    let (clock, end) = read_clock(line, at)?;
    Some(Line::Event(clock, read_event(line, kind, end, room)?))
}

fn save(line: &[u8], at: usize) -> Option<Line>
    ensures value { result ≡ save_line line.now at }
    ensures within { IfSome result (λ l. (room : ℕ) → Within l room) }
{
    let (room, end) = words::read_field(line, at)?;
    words::ended(line, end, Line::Save(room))
}

// Reads a line, if it can be read; the octets of a message, an offer or a reload go to the front of the room.
pub fn read(line: &[u8], room: &mut [u8]) -> Option<Line>
    ensures value { (result ≡ line_of (length room.old) line.now)
        × (room.new ≡ front (line_stored (length room.old) line.now) room.old) }
    ensures within { IfSome result (λ l. Within l (length room.old)) }
{
    let end = words::place_of(b' ', line, 0);
    match words::read_word(&line[..end])? {
        Word::Start => Some(Line::Start),
        Word::Event(kind) => read_timed(line, kind, end, room),
        Word::Save => save(line, end),
        Word::Reload => Some(Line::Reload(last_octets(line, end, room)?)),
    }
}
