// Whose number is shown: a line `shown MESSAGE RECORD` and its answer. It needs no table.
//   show       which part of a message or of a record is shown
//   answer     a line
ghost use Rattle.std.specs.Prelude.{◌≤◌, ◌<◌, length};

use crate::page::Page;

// Which part of a message or of a record is shown.
fn show(rt: &impl Print, page: &mut Page, message: &[u8], subscription: &[u8])
    requires { (length message.now ≤ 4096) × (length subscription.now ≤ 4096) }
{
    let extent = shown::locate(message, subscription);
    page.put_shown(rt, extent, shown::shown(message, subscription));
}

// A line whose MESSAGE ends at place `second`, where its RECORD begins behind a blank.
fn ask(rt: &impl Print, page: &mut Page, line: &[u8], second: usize, octets: &mut [u8; 4096])
    requires { (6 ≤ second) × (second < length line.now) }
{
    let mut record = [0u8; 4096];
    let message = script::read_octets(&line[6..second], octets);
    let subscription = script::read_octets(&line[second + 1..], &mut record);
    match (message, subscription) {
        (Some(n), Some(k)) => show(rt, page, &octets[..n], &record[..k]),
        _ => page.put_bad_line(rt, line),
    }
}

// A line that is no event's: one that asks whose number is shown, or one that cannot be read.
pub(crate) fn answer(rt: &impl Print, page: &mut Page, line: &[u8], octets: &mut [u8; 4096]) {
    match display::find(line) {
        Some(second) => ask(rt, page, line, second, octets),
        None => page.put_bad_line(rt, line),
    }
}
