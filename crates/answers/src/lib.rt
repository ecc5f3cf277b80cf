// Answer lines, written at a place of a lent buffer.
//   put_hex         octets in lower-case hex, or `-` for none
//   put_flags       slot numbers in ascending order, joined by commas, or `-` for none
//   put_answer      a whole answer line
// Each asks for room; octets around what it writes are unchanged. The buffer and the place stay two parameters: `Wrote`, which each
// ensures, names both. Assumes nothing.
#![tactic(auto)]

ghost use Rattle.std.specs.Prelude.{◌≡◌, true, cond, [], ◌+◌, ◌*◌, ◌≤◌, ◌<◌, length};
ghost use Rattle.octets.specs.Octets.{Wrote};
ghost use Rattle.answers.specs.Text.{hex_glyph, hex_text, reply_text, slot_text, slots_text, flags_text, more_text, first_text, last_text, answer_text};

use slots::Flags;

// The hex digit of a number below 16.
fn glyph(n: u8) -> u8
    requires { n < 16 }
    ensures { result ≡ hex_glyph n }
{
    if n < 10 { b'0' + n } else { b'a' + (n - 10) }
}

// Octets in hex.
fn put_digits(out: &mut [u8], at: usize, reply: &[u8]) -> usize
    requires { at + 2 * length reply.now ≤ length out.old }
    ensures wrote { Wrote out.old at (hex_text reply.now) out.new result }
    ensures short { result ≡ at + 2 * length reply.now }
{
    let mut next = at;
    for octet in reply {
        out[next] = glyph(*octet / 16);
        out[next + 1] = glyph(*octet % 16);
        next += 2;
    }
    next
}

pub fn put_hex(out: &mut [u8], at: usize, reply: &[u8]) -> usize
    requires { at + 1 + 2 * length reply.now ≤ length out.old }
    ensures wrote { Wrote out.old at (reply_text reply.now) out.new result }
    ensures short { (result ≡ at + length (reply_text reply.now)) × (at ≤ result) × (result ≤ at + 1 + 2 * length reply.now) }
{
    if reply.is_empty() {
        octets::put(out, at, b"-")
    } else {
        put_digits(out, at, reply)
    }
}

// One slot number, behind a comma if it is not the first.
fn put_slot(out: &mut [u8], at: usize, i: u8, first: bool) -> usize
    requires { at + 21 ≤ length out.old }
    ensures wrote { Wrote out.old at (slot_text i first) out.new result }
    ensures short { (at < result) × (result ≤ at + 4) }
{
    let next = if first {
        at
    } else {
        octets::put(out, at, b",")
    };
    ascii::put_octet(out, next, i)
}

// The numbers of all flagged slots.
fn put_slots(out: &mut [u8], at: usize, flags: Flags) -> usize
    requires { at + 145 ≤ length out.old }
    ensures wrote { Wrote out.old at (slots_text 0 true flags.on) out.new result }
    ensures short { (at ≤ result) × (result ≤ at + 128) }
{
    let mut next = at;
    for (i, on) in flags.on.iter().enumerate() {
        if *on {
            next = put_slot(out, next, i as u8, next == at);
        }
    }
    next
}

pub fn put_flags(out: &mut [u8], at: usize, flags: Flags) -> usize
    requires { at + 145 ≤ length out.old }
    ensures wrote { Wrote out.old at (flags_text flags.on) out.new result }
    ensures short { (result ≡ at + length (flags_text flags.on)) × (at ≤ result) × (result ≤ at + 128) }
{
    let end = put_slots(out, at, flags);
    if end == at {
        octets::put(out, at, b"-")
    } else {
        end
    }
}

fn put_more(out: &mut [u8], at: usize, more: bool) -> usize
    requires { at + 3 ≤ length out.old }
    ensures wrote { Wrote out.old at (more_text more) out.new result }
    ensures short { result ≡ at + 3 }
{
    octets::put(out, at, if more { b" 1\n" } else { b" 0\n" })
}

// The refusal number and the reply, each with a blank behind it.
fn put_reply(out: &mut [u8], at: usize, refusal: u8, reply: &[u8]) -> usize
    requires { at + 20 + 2 * length reply.now ≤ length out.old }
    ensures wrote { Wrote out.old at (first_text refusal reply.now) out.new result }
    ensures short { (at ≤ result) × (result ≤ at + 6 + 2 * length reply.now) }
{
    let refused = ascii::put_octet(out, at, refusal);
    let second = octets::put(out, refused, b" ");
    let replied = put_hex(out, second, reply);
    octets::put(out, replied, b" ")
}

// The notice, the flags and whether more is due.
fn put_notice(out: &mut [u8], at: usize, notice: u8, flags: Flags, more: bool) -> usize
    requires { at + 149 ≤ length out.old }
    ensures wrote { Wrote out.old at (last_text notice flags.on more) out.new result }
    ensures short { (at ≤ result) × (result ≤ at + 135) }
{
    let noticed = ascii::put_octet(out, at, notice);
    let second = octets::put(out, noticed, b" ");
    let flagged = put_flags(out, second, flags);
    put_more(out, flagged, more)
}

pub fn put_answer(
    out: &mut [u8],
    at: usize,
    refusal: u8,
    reply: &[u8],
    notice: u8,
    flags: Flags,
    more: bool,
) -> usize
    requires { at + 160 + 2 * length reply.now ≤ length out.old }
    ensures wrote { Wrote out.old at (answer_text refusal reply.now notice flags.on more) out.new result }
    ensures short { (result ≡ at + length (answer_text refusal reply.now notice flags.on more)) × (at ≤ result) × (result ≤ at + 160 + 2 * length reply.now) }
{
    let next = put_reply(out, at, refusal, reply);
    put_notice(out, next, notice, flags, more)
}
