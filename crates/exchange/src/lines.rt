// The input, in one buffer: what is there of an unended line stands at its front, and more is read behind it.
//   Chunk     what the buffer holds
//   next      reads on
ghost use Rattle.std.specs.Prelude.{◌+◌, ◌≤◌, length};

use std::io::Read;

// The octets up to `whole` are whole lines, those up to `end` were read. `open`: the input may go on.
#[derive(Clone, Copy)]
pub(crate) struct Chunk {
    pub(crate) whole: usize,
    pub(crate) end: usize,
    pub(crate) open: bool,
    // The whole lines are among what was read, and that is in the buffer.
    ghost held: { (whole ≤ end) × (end ≤ 131072) },
}

impl Chunk {
    pub(crate) fn none() -> Chunk {
        Chunk {
            whole: 0,
            end: 0,
            open: true,
        }
    }
}

// Moves the octets between two places to the front, 65,537 of them at most: so many tell that a line is too long.
fn move_up(input: &mut [u8; 131072], from: usize, end: usize) -> usize
    requires { (from ≤ end) × (end ≤ 131072) }
    ensures { result ≤ 65537 }
{
    let held = (end - from).min(65537);
    // What stands at the front already stays: a long line may come octet by octet.
    if from > 0 {
        input.copy_within(from..from + held, 0);
    }
    held
}

// Reads once, to a place on, and answers how many octets came: 0 at the end, and if the read failed.
fn fetch(source: &mut impl Read, input: &mut [u8], at: usize) -> usize
    requires { at ≤ length input.old }
    ensures { at + result ≤ length input.old }
{
    source.read(&mut input[at..]).unwrap_or(0)
}

// The place behind the last line end between two places, or 0 if there is none.
fn behind_lines(input: &[u8; 131072], from: usize, end: usize) -> usize
    requires { end ≤ 131072 }
    ensures { result ≤ end }
{
    if end < from {
        return 0;
    }
    match input[from..end].iter().rposition(|octet| *octet == b'\n') {
        Some(last) => from + last + 1,
        None => 0,
    }
}

// Reads on behind what is left of the chunk before. The end of the input ends its last line.
pub(crate) fn next(source: &mut impl Read, input: &mut [u8; 131072], chunk: Chunk) -> Chunk {
    let held = move_up(input, chunk.whole, chunk.end);
    let got = fetch(source, input, held);
    if got == 0 {
        input[held] = b'\n';
        let end = held + 1;
        return Chunk {
            whole: end,
            end,
            open: false,
        };
    }
    let end = held + got;
    Chunk {
        whole: behind_lines(input, held, end),
        end,
        open: true,
    }
}
