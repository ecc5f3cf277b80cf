// The line `shown MESSAGE RECORD`: its words found, its answer written, and said for people.
//   find            if a line asks whose number is shown, and where its words stand
//   put_answer      the answer line
//   put_words       the line for people behind it
// Each writer writes at a place of a lent buffer, asks for room there, and answers the place behind. The buffer and the place stay two
// parameters: `Wrote`, which each ensures, names both. Assumes nothing.
#![tactic(auto)]

ghost use Rattle.std.specs.Prelude.{◌+◌, ◌*◌, ◌≤◌, ◌≡◌, length, IfSome};
ghost use Rattle.octets.specs.Octets.{Wrote};
ghost use Rattle.display.specs.Display.{asked_of, Inside, numbers_text, extent_text, answer_text, words_text};

use shown::Extent;

// Where MESSAGE ends in a line that asks whose number is shown: it stands from place 6 on, and RECORD behind that place.
pub fn find(line: &[u8]) -> Option<usize>
    ensures value { result ≡ asked_of line.now }
    ensures inside { IfSome result (λ second. Inside (length line.now) second) }
{
    let end = script::place_of(b' ', line, 0);
    if &line[..end] != b"shown".as_slice() {
        return None;
    }
    let second = script::place_of(b' ', line, 6);
    (second < line.len()).then_some(second)
}

// A word and two numbers, each with a blank behind it.
fn put_numbers(out: &mut [u8], at: usize, word: &[u8], from: usize, n: usize) -> usize
    requires { (at + 50 ≤ length out.old) × (length word.now ≤ 8) }
    ensures wrote { Wrote out.old at (numbers_text word.now from n) out.new result }
    ensures short { (at ≤ result) × (result ≤ at + 50) }
{
    let worded = octets::put(out, at, word);
    let placed = ascii::put_decimal(out, worded, from as u64);
    let second = octets::put(out, placed, b" ");
    let counted = ascii::put_decimal(out, second, n as u64);
    octets::put(out, counted, b" ")
}

// Which of the two is shown, where the part begins and how long it is.
fn put_extent(out: &mut [u8], at: usize, extent: Extent) -> usize
    requires { at + 50 ≤ length out.old }
    ensures wrote { Wrote out.old at (extent_text extent) out.new result }
    ensures short { (at ≤ result) × (result ≤ at + 50) }
{
    match extent {
        Extent::Message(from, n) => put_numbers(out, at, b"message ", from, n),
        Extent::Record(from, n) => put_numbers(out, at, b"record ", from, n),
    }
}

// The answer line: `part` is what is shown.
pub fn put_answer(out: &mut [u8], at: usize, extent: Extent, part: &[u8]) -> usize
    requires { at + 52 + 2 * length part.now ≤ length out.old }
    ensures wrote { Wrote out.old at (answer_text extent part.now) out.new result }
    ensures short { (at ≤ result) × (result ≤ at + 52 + 2 * length part.now) }
{
    let told = put_extent(out, at, extent);
    let shown = answers::put_hex(out, told, part);
    octets::put(out, shown, b"\n")
}

// The line for people.
pub fn put_words(out: &mut [u8], at: usize, extent: Extent) -> usize
    requires { at + 80 ≤ length out.old }
    ensures wrote { Wrote out.old at (words_text extent) out.new result }
    ensures short { (at ≤ result) × (result ≤ at + 80) }
{
    match extent {
        Extent::Message(_, n) if n == 0 => octets::put(
            out,
            at,
            b"# nothing shown: presentation of the calling number is not allowed\n",
        ),
        Extent::Message(..) => octets::put(
            out,
            at,
            b"# shown: the calling number of the message\n",
        ),
        Extent::Record(..) => octets::put(
            out,
            at,
            b"# shown: the subscription record, all of it\n",
        ),
    }
}
