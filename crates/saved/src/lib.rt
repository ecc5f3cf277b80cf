// The saved form of a table, written to a lent room. docs/FORMATS.md has the layout.
//   LONGEST      how many octets the longest form has
//   put_form     the form at a place of a room
//   save         the form at the front of a room
//   Saved        what a save answers in numbers
// `put_form` asks for room; nothing else public has a `requires`. Assumes nothing.
#![tactic(auto)]

ghost use Rattle.std.specs.Prelude.{◌≡◌, ◌+◌, ◌≤◌, length};
ghost use Rattle.octets.specs.Octets.{Wrote, front};
ghost use Rattle.pairs.specs.Pairs.{listed};
ghost use Rattle.fields.specs.Fields.{four, eight, field, range_octets, channel_octets};
ghost use Rattle.saved.specs.Form.{longest, joined, out_octets, call_fields, form_of};
ghost use Rattle.saved.specs.Saving.{saved_as, saved_of, saved_in};

use channels::Pool;
use pairs::Pairs;
use refusal::Refusal;
use service::OutOfService;
use slots::{SLOTS, Slots};
use table::Table;

pub const LONGEST: usize = 1312;

// The ranges of a pool, one behind the other.
fn put_ranges(room: &mut [u8], at: usize, pool: Pool) -> usize
    requires { at + 24 ≤ length room.old }
    ensures wrote { Wrote room.old at (joined range_octets pool.ranges) room.new result }
    ensures short { result ≤ at + 24 }
{
    let mut next = at;
    for range in &pool.ranges {
        next = fields::put_range(room, next, *range);
    }
    next
}

// The permanent pairs of a pool, one behind the other.
fn put_permanents(room: &mut [u8], at: usize, pool: Pool) -> usize
    requires { at + 32 ≤ length room.old }
    ensures wrote { Wrote room.old at (joined channel_octets pool.permanents) room.new result }
    ensures short { result ≤ at + 32 }
{
    let mut next = at;
    for place in &pool.permanents {
        next = fields::put_channel(room, next, *place);
    }
    next
}

// Pairs in doubt or out of service, one behind the other.
fn put_pairs(room: &mut [u8], at: usize, pairs: Pairs) -> usize
    requires { at + 256 ≤ length room.old }
    ensures wrote { Wrote room.old at (joined four (listed pairs)) room.new result }
    ensures short { result ≤ at + 256 }
{
    let mut next = at;
    for number in pairs.listed() {
        next = fields::put_four(room, next, *number);
    }
    next
}

// The fields of lists are four of a shape: one function over the writer would need, for these three lines, a clause on the closure and
// a ghost list of what it writes.
// The field of the permitted ranges.
fn put_range_field(room: &mut [u8], at: usize, pool: Pool) -> usize
    requires { at + 27 ≤ length room.old }
    ensures wrote { Wrote room.old at (field 1 (joined range_octets pool.ranges)) room.new result }
    ensures short { result ≤ at + 27 }
{
    let mut contents = [0u8; 24];
    let size = put_ranges(&mut contents, 0, pool);
    fields::put_field(room, at, 1, &contents[..size])
}

// The field of the permanent pairs.
fn put_permanent_field(room: &mut [u8], at: usize, pool: Pool) -> usize
    requires { at + 35 ≤ length room.old }
    ensures wrote { Wrote room.old at (field 2 (joined channel_octets pool.permanents)) room.new result }
    ensures short { result ≤ at + 35 }
{
    let mut contents = [0u8; 32];
    let size = put_permanents(&mut contents, 0, pool);
    fields::put_field(room, at, 2, &contents[..size])
}

// The field of the last accepted reading.
fn put_reading_field(room: &mut [u8], at: usize, last: u64) -> usize
    requires { at + 11 ≤ length room.old }
    ensures { Wrote room.old at (field 3 (eight last)) room.new result }
{
    let next = octets::put(room, at, &[3, 0, 8]);
    fields::put_eight(room, next, last)
}

// The field of the pairs in doubt.
fn put_doubt_field(room: &mut [u8], at: usize, doubts: Pairs) -> usize
    requires { at + 259 ≤ length room.old }
    ensures wrote { Wrote room.old at (field 5 (joined four (listed doubts))) room.new result }
    ensures short { result ≤ at + 259 }
{
    let mut contents = [0u8; 256];
    let size = put_pairs(&mut contents, 0, doubts);
    fields::put_field(room, at, 5, &contents[..size])
}

// The pairs out of service: if all are, then the single ones.
fn put_out(room: &mut [u8], at: usize, out: OutOfService) -> usize
    requires { at + 257 ≤ length room.old }
    ensures wrote { Wrote room.old at (out_octets out) room.new result }
    ensures short { result ≤ at + 257 }
{
    let next = octets::put(room, at, &[u8::from(out.all)]);
    put_pairs(room, next, out.pairs)
}

// The field of the pairs out of service.
fn put_out_field(room: &mut [u8], at: usize, out: OutOfService) -> usize
    requires { at + 260 ≤ length room.old }
    ensures wrote { Wrote room.old at (field 6 (out_octets out)) room.new result }
    ensures short { result ≤ at + 260 }
{
    let mut contents = [0u8; 257];
    let size = put_out(&mut contents, 0, out);
    fields::put_field(room, at, 6, &contents[..size])
}

// The fields of all live calls, in slot order.
fn put_calls(room: &mut [u8], at: usize, slots: Slots) -> usize
    requires { at + 704 ≤ length room.old }
    ensures wrote { Wrote room.old at (call_fields 0 slots.all) room.new result }
    ensures short { result ≤ at + 704 }
{
    let mut next = at;
    for (i, slot) in slots.all.iter().enumerate() {
        next = fields::put_hold(room, next, i as u8, slot.hold);
    }
    next
}

// Writes the form at place `at` of the room, and answers the place behind it.
pub fn put_form(room: &mut [u8], at: usize, table: Table) -> usize
    requires { at + longest ≤ length room.old }
    ensures wrote { Wrote room.old at (form_of table) room.new result }
    ensures short { (result ≡ at + length (form_of table)) × (result ≤ at + longest) }
{
    let second = put_range_field(room, at, table.pool);
    let third = put_permanent_field(room, second, table.pool);
    let fourth = put_reading_field(room, third, table.last);
    let fifth = put_doubt_field(room, fourth, table.doubts);
    let sixth = put_out_field(room, fifth, table.out);
    let seventh = fields::put_request_field(room, sixth, table.global.state);
    put_calls(room, seventh, table.slots)
}

// What a save answers in numbers: that of its refusal, 0 for none, and the length of the form.
#[derive(Clone, Copy)]
pub struct Saved {
    pub refusal: u8,
    pub length: usize,
}

impl Saved {
    pub fn of(answer: Result<usize, Refusal>) -> Saved
        ensures { result ≡ saved_as answer }
    {
        match answer {
            Ok(length) => Saved { refusal: 0, length },
            Err(reason) => Saved {
                refusal: reason.number(),
                length: 0,
            },
        }
    }
}

// Writes the form at the front of the room, and answers its length; a room too small for it is refused and stays as it was.
pub fn save(table: Table, room: &mut [u8]) -> Result<usize, Refusal>
    ensures { (saved_as result ≡ saved_of table (length room.old))
        × (room.new ≡ front (saved_in table (length room.old)) room.old) }
{
    let mut form = [0u8; LONGEST];
    let size = put_form(&mut form, 0, table);
    if room.len() < size {
        return Err(Refusal::ShortRoom);
    }
    octets::put(room, 0, &form[..size]);
    Ok(size)
}
