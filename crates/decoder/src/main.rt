// Reads a table of messages from standard input, one a line in hex, and prints what each element of each message is.
// `stdin` is the table, and `stdout` what an independent decoder, which shares no code with this one, writes for it.
//   found       prints what is found of each element
// All that is printed of a message, but for which step ignores it, comes from `header`, `elements`, `traffic` and `setup`;
// the octets of a line come from `script`.
// Proved: safe and ending; lines and octets exact. The table has under 65,536 characters. Assumes nothing of its own.
#![tactic(auto)]

mod found;

ghost use Rattle.std.specs.Prelude.{◌≡◌, ◌≤◌, IfOk, length, eqb};
ghost use Rattle.decoder.specs.Lines.{is_skipped};

use header::Header;
use std::io::{Read, Result};

// Which of the first two steps ignores a message, where one does.
fn ignoring_step(m: &[u8]) -> u64 {
    if m.len() < 9 || m[0] != 0x09 { 1 } else { 2 }
}

fn print_ignored(rt: &impl Print, m: &[u8]) -> Result<()> {
    print!(rt; "ignored {}", ignoring_step(m))
}

fn print_header(rt: &impl Print, h: Header) -> Result<()> {
    print!(rt;
        "flag {} ref {} type {:02x} length ",
        u8::from(h.flag),
        h.reference,
        h.kind
    )?;
    print!(rt; "{}", if h.whole { "right" } else { "wrong" })
}

fn print_elements(rt: &impl Print, m: &[u8]) -> Result<()> {
    found::cause(rt, m)?;
    found::call_state(rt, m)?;
    found::traffic(rt, m)?;
    found::connection(rt, m)?;
    found::readable(rt, m, 0x5C)?;
    found::bearer(rt, m)?;
    found::readable(rt, m, 0x70)?;
    found::restart(rt, m)?;
    found::offer(rt, m)
}

fn print_message(rt: &impl Print, m: &[u8]) -> Result<()> {
    match header::read(m) {
        None => print_ignored(rt, m)?,
        Some(h) => {
            print_header(rt, h)?;
            print_elements(rt, m)?;
        }
    }
    println!(rt)
}

// What ends a line.
fn is_break(octet: u8) -> bool
    ensures { result ≡ eqb octet 10 }
{
    octet == b'\n'
}

// An empty line, and one that begins with #.
fn is_skipped(line: &[u8]) -> bool
    ensures { result ≡ is_skipped line.now }
{
    matches!(line.first(), None | Some(b'#'))
}

// A message in hex, `-` for no octets. The room is lent, since to make one for each line would take longer than the line.
fn print_line(rt: &impl Print, line: &[u8], room: &mut [u8; 32768]) -> Result<()> {
    if is_skipped(line) {
        return Ok(());
    }
    match script::read_octets(line, room) {
        Some(n) => print_message(rt, &room[..n]),
        None => println!(rt; "bad line"),
    }
}

fn print_lines(rt: &impl Print, table: &[u8]) -> Result<()> {
    let mut room = [0u8; 32768];
    for line in table.split(|octet| is_break(*octet)) {
        print_line(rt, line, &mut room)?;
    }
    Ok(())
}

// Reads until the room is full or the input ends, and answers how many octets came. Stays a `while`: it counts what came, and walks no index.
fn read_full(input: &mut impl Read, room: &mut [u8]) -> Result<usize>
    ensures { IfOk result (λ n. n ≤ length room.new) }
{
    let mut n: usize = 0;
    while n < room.len() {
        let got = input.read(&mut room[n..])?;
        if got == 0 {
            return Ok(n);
        }
        n += got;
    }
    Ok(n)
}

fn main(rt: HostRuntime) -> Result<()> {
    let mut room = [0u8; 65536];
    let n = read_full(&mut rt.stdin(), &mut room)?;
    if n == 65536 {
        return println!(rt; "table too long");
    }
    print_lines(&rt, &room[..n])
}
