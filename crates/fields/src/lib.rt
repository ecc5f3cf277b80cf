// The fields of a saved form, each written at a place of a lent room. docs/FORMATS.md has the layout.
//   put_eight                 a number in eight octets
//   put_field                 a tag, the length of the contents, the contents
//   put_range, put_channel    what one permitted range, and one permanent pair, add to their field
//   put_four                  what one pair in doubt, or out of service, adds: its number in four octets are VPCI and VCI
//   put_hold                  the field of a slot
//   put_request_field         the field of our RESTART
// Each asks for room for the longest that it writes, and answers the place behind it. Assumes nothing.
#![tactic(auto)]

ghost use Rattle.std.specs.Prelude.{◌≡◌, cond, ◌∷◌, ◌+◌, ◌≤◌, length};
ghost use Rattle.octets.specs.Octets.{Wrote};
ghost use Rattle.fields.specs.Fields.{two, four, eight, field, range_octets, pair_octets, channel_octets, reference_octets, state_octets, call_octets, hold_field, named_octets, request_octets};

use calls::{Call, Hold, State};
use channels::{Named, Pair, Range};
use service::GlobalState;

// A number in two octets.
fn put_two(room: &mut [u8], at: usize, n: u16) -> usize
    requires { at + 2 ≤ length room.old }
    ensures { Wrote room.old at (two n) room.new result }
{
    octets::put(room, at, &n.to_be_bytes())
}

// A number in four octets: of the number of a pair these are VPCI and VCI.
pub fn put_four(room: &mut [u8], at: usize, n: u32) -> usize
    requires { at + 4 ≤ length room.old }
    ensures wrote { Wrote room.old at (four n) room.new result }
    ensures short { result ≡ at + 4 }
{
    octets::put(room, at, &n.to_be_bytes())
}

// A number in eight octets.
pub fn put_eight(room: &mut [u8], at: usize, n: u64) -> usize
    requires { at + 8 ≤ length room.old }
    ensures wrote { Wrote room.old at (eight n) room.new result }
    ensures next { result ≡ at + length (eight n) }
{
    octets::put(room, at, &n.to_be_bytes())
}

// A tag, the length of the contents, the contents.
pub fn put_field(room: &mut [u8], at: usize, tag: u8, contents: &[u8]) -> usize
    requires { at + 3 + length contents.now ≤ length room.old }
    ensures wrote { Wrote room.old at (field tag contents.now) room.new result }
    ensures next { result ≡ at + length (field tag contents.now) }
{
    let [.., high, low] = contents.len().to_be_bytes();
    let next = octets::put(room, at, &[tag, high, low]);
    octets::put(room, next, contents)
}

// A permitted range; nothing for one without a VCI.
pub fn put_range(room: &mut [u8], at: usize, range: Range) -> usize
    requires { at + 6 ≤ length room.old }
    ensures wrote { Wrote room.old at (range_octets range) room.new result }
    ensures short { (result ≡ at + length (range_octets range)) × (result ≤ at + 6) }
{
    if range.last < range.first {
        return at;
    }
    let second = put_two(room, at, range.vpci);
    let third = put_two(room, second, range.first);
    put_two(room, third, range.last)
}

// A pair: VPCI and VCI.
fn put_pair(room: &mut [u8], at: usize, pair: Pair) -> usize
    requires { at + 4 ≤ length room.old }
    ensures wrote { Wrote room.old at (pair_octets pair) room.new result }
    ensures next { result ≡ at + 4 }
{
    let second = put_two(room, at, pair.vpci);
    put_two(room, second, pair.vci)
}

// A permanent pair; nothing for none.
pub fn put_channel(room: &mut [u8], at: usize, channel: Option<Pair>) -> usize
    requires { at + 4 ≤ length room.old }
    ensures wrote { Wrote room.old at (channel_octets channel) room.new result }
    ensures short { (result ≡ at + length (channel_octets channel)) × (result ≤ at + 4) }
{
    match channel {
        None => at,
        Some(pair) => put_pair(room, at, pair),
    }
}

// The top bit of a call reference: set for a network-originated call.
fn side_bit(network: bool) -> u8
    ensures value { result ≡ cond network 0x80 0 }
    ensures small { result ≤ 128 }
{
    if network { 0x80 } else { 0 }
}

// Which T308, or T316, runs: the first or the second.
fn run_number(second: bool) -> u8
    ensures { result ≡ cond second 2 1 }
{
    if second { 2 } else { 1 }
}

// A flagged call reference.
fn put_reference(room: &mut [u8], at: usize, network: bool, reference: u32) -> usize
    requires { at + 3 ≤ length room.old }
    ensures { Wrote room.old at (reference_octets network reference) room.new result }
{
    let [_, top, high, low] = reference.to_be_bytes();
    octets::put(room, at, &[side_bit(network) + top % 128, high, low])
}

// The number of a state, and the deadline of its timer.
fn put_timed(room: &mut [u8], at: usize, number: u8, deadline: u64) -> usize
    requires { at + 9 ≤ length room.old }
    ensures { Wrote room.old at (number ∷ eight deadline) room.new result }
{
    let next = octets::put(room, at, &[number]);
    put_eight(room, next, deadline)
}

// The state of a call, with all that it has.
fn put_state(room: &mut [u8], at: usize, state: State) -> usize
    requires { at + 11 ≤ length room.old }
    ensures wrote { Wrote room.old at (state_octets state) room.new result }
    ensures short { result ≤ at + 11 }
{
    match state {
        State::N3 => octets::put(room, at, &[3]),
        State::N6(deadline) => put_timed(room, at, 6, deadline),
        State::N9(deadline) => put_timed(room, at, 9, deadline),
        State::N10 => octets::put(room, at, &[10]),
        State::N12(clearing, deadline) => {
            let next = put_timed(room, at, 12, deadline);
            octets::put(room, next, &[run_number(clearing.second), clearing.cause])
        }
    }
}

// A call in a slot, with its state.
fn put_call(room: &mut [u8], at: usize, slot: u8, call: Call, state: State) -> usize
    requires { at + 19 ≤ length room.old }
    ensures wrote { Wrote room.old at (call_octets slot call state) room.new result }
    ensures short { result ≤ at + 19 }
{
    let second = octets::put(room, at, &[slot]);
    let third = put_reference(room, second, call.network, call.reference);
    let fourth = put_pair(room, third, call.pair);
    put_state(room, fourth, state)
}

// The field of a slot; nothing for an empty one.
pub fn put_hold(room: &mut [u8], at: usize, slot: u8, hold: Hold) -> usize
    requires { at + 22 ≤ length room.old }
    ensures wrote { Wrote room.old at (hold_field slot hold) room.new result }
    ensures short { (result ≡ at + length (hold_field slot hold)) × (result ≤ at + 22) }
{
    match hold {
        Hold::Empty => at,
        Hold::Live(call, state) => {
            let mut contents = [0u8; 19];
            let size = put_call(&mut contents, 0, slot, call, state);
            put_field(room, at, 4, &contents[..size])
        }
    }
}

// The pair that our RESTART names; nothing for all.
fn put_named(room: &mut [u8], at: usize, named: Named) -> usize
    requires { at + 4 ≤ length room.old }
    ensures wrote { Wrote room.old at (named_octets named) room.new result }
    ensures short { result ≤ at + 4 }
{
    match named {
        Named::All => at,
        Named::One(pair) => put_pair(room, at, pair),
    }
}

// Our RESTART: which T316 runs, its deadline, and the pair; nothing where none is under way.
fn put_request(room: &mut [u8], at: usize, state: GlobalState) -> usize
    requires { at + 13 ≤ length room.old }
    ensures wrote { Wrote room.old at (request_octets state) room.new result }
    ensures short { result ≤ at + 13 }
{
    match state {
        GlobalState::Null => at,
        GlobalState::RestartRequest(named, second, deadline) => {
            let next = put_timed(room, at, run_number(second), deadline);
            put_named(room, next, named)
        }
    }
}

// The field of our RESTART.
pub fn put_request_field(room: &mut [u8], at: usize, state: GlobalState) -> usize
    requires { at + 16 ≤ length room.old }
    ensures wrote { Wrote room.old at (field 7 (request_octets state)) room.new result }
    ensures short { result ≤ at + 16 }
{
    let mut contents = [0u8; 13];
    let size = put_request(&mut contents, 0, state);
    put_field(room, at, 7, &contents[..size])
}
