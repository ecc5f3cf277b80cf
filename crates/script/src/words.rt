// The words of a line, separated by one blank.
ghost use Rattle.std.specs.Prelude.{◌≡◌, ◌≤◌, length};
ghost use Rattle.script.specs.Words.{count_to, place_of, word_of, which_of, field_at, ended};

use crate::decimal;

// The word that a line begins with.
#[derive(Clone, Copy)]
pub enum Word {
    Start,
    Event(Kind),
    Save,
    Reload,
}

// The events on a table.
#[derive(Clone, Copy)]
pub enum Kind {
    Message,
    Tick,
    Connect,
    Clear,
    Offer,
    Restart,
    PutBack,
}

// What `restart` names.
#[derive(Clone, Copy)]
pub enum Which {
    All,
    One,
}

// The place of the first such octet from place `at` on, or the line's end.
pub fn place_of(octet: u8, line: &[u8], at: usize) -> usize
    ensures value { result ≡ place_of octet line.now at }
    ensures within { (at ≤ result) × (at ≤ length line.now → result ≤ length line.now) }
{
    match line.get(at..) {
        Some(rest) => at + count_to(octet, rest),
        None => at,
    }
}

// How many octets stand before the first such octet.
fn count_to(octet: u8, s: &[u8]) -> usize
    ensures value { result ≡ count_to octet s.now }
    ensures within { result ≤ length s.now }
{
    s.iter().position(|o| *o == octet).unwrap_or(s.len())
}

// The number behind the blank at place `at`, and the place behind it. A line and its place stay two parameters here and above: the
// definitions (`field_at`, and those of specs/Lines) name both.
pub fn read_field(line: &[u8], at: usize) -> Option<(u64, usize)>
    ensures { result ≡ field_at line.now at }
{
    if line.len() <= at {
        return None;
    }
    let end = place_of(b' ', line, at + 1);
    Some((decimal::read_number(&line[at + 1..end])?, end))
}

pub fn read_word(w: &[u8]) -> Option<Word>
    ensures { result ≡ word_of w.now }
{
    match w {
        b"message" => Some(Word::Event(Kind::Message)),
        b"tick" => Some(Word::Event(Kind::Tick)),
        b"connect" => Some(Word::Event(Kind::Connect)),
        b"clear" => Some(Word::Event(Kind::Clear)),
        b"offer" => Some(Word::Event(Kind::Offer)),
        b"start" => Some(Word::Start),
        b"save" => Some(Word::Save),
        b"reload" => Some(Word::Reload),
        b"restart" => Some(Word::Event(Kind::Restart)),
        b"putback" => Some(Word::Event(Kind::PutBack)),
        _ => None,
    }
}

pub fn read_which(w: &[u8]) -> Option<Which>
    ensures { result ≡ which_of w.now }
{
    match w {
        b"all" => Some(Which::All),
        b"one" => Some(Which::One),
        _ => None,
    }
}

// The value, if the line is at its end at place `at`.
pub fn ended<T: Copy>(line: &[u8], at: usize, value: T) -> Option<T>
    ensures { result ≡ ended line.now at value }
{
    if at < line.len() { None } else { Some(value) }
}
