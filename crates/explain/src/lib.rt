// A line for people: what came in and what went out by name, and what became of the calls.
//   put_line     the line behind an answer
// Each function writes at a place of a lent buffer, asks for room there, and answers the place behind. The buffer and the place stay
// two parameters: `Wrote`, which each ensures, names both. Assumes nothing.
#![tactic(auto)]

ghost use Rattle.std.specs.Prelude.{◌≡◌, ◌++◌, ◌+◌, ◌<◌, ◌≤◌, length};
ghost use Rattle.octets.specs.Octets.{Wrote};
ghost use Rattle.ascii.specs.Ascii.{decimal_text};
ghost use Rattle.elements.specs.Values.{cause_in};
ghost use Rattle.header.specs.MessageType.{number_of};
ghost use Rattle.script.specs.Lines.{Asks};
ghost use Rattle.explain.specs.Names.{name_in, kind_names, cause_names, refusal_names};
ghost use Rattle.explain.specs.Line.{kind_text, cause_text, flag_text, header_text, found_text, message_text, clear_text, request_text, reply_text, timer_text, call_text, slot_text, same_state, is_same, is_about, change_text, note_text, slots_text, line_text};

use calls::{Call, Hold, Slot, State};
use elements::Read;
use header::{Header, MessageType};
use script::Request;
use slots::Slots;

// The name of a message type.
#[tactic(auto, unfolding(crate::specs::Names::name_in, crate::specs::Names::kind_names))]
fn type_name(known: MessageType) -> &'static [u8]
    ensures name { result.now ≡ name_in kind_names (number_of known) }
    ensures short { (0 < length result.now) × (length result.now ≤ 50) }
{
    match known {
        MessageType::CallProceeding => b"CALL PROCEEDING",
        MessageType::Setup => b"SETUP",
        MessageType::Connect => b"CONNECT",
        MessageType::ConnectAcknowledge => b"CONNECT ACKNOWLEDGE",
        MessageType::Restart => b"RESTART",
        MessageType::Release => b"RELEASE",
        MessageType::RestartAcknowledge => b"RESTART ACKNOWLEDGE",
        MessageType::ReleaseComplete => b"RELEASE COMPLETE",
        MessageType::StatusEnquiry => b"STATUS ENQUIRY",
        MessageType::Status => b"STATUS",
    }
}

// The name of a cause; nothing if it has none.
#[tactic(auto, unfolding(crate::specs::Names::name_in, crate::specs::Names::cause_names))]
fn cause_name(cause: u8) -> &'static [u8]
    ensures name { result.now ≡ name_in cause_names cause }
    ensures short { length result.now ≤ 50 }
{
    match cause {
        0x01 => b" unallocated (unassigned) number",
        0x03 => b" no route to destination",
        0x10 => b" normal call clearing",
        0x11 => b" user busy",
        0x12 => b" no user responding",
        0x15 => b" call rejected",
        0x16 => b" number changed",
        0x1B => b" destination out of order",
        0x1C => b" invalid number format",
        0x1E => b" response to STATUS ENQUIRY",
        0x1F => b" normal, unspecified",
        0x29 => b" temporary failure",
        0x2D => b" no VPCI/VCI available",
        0x2F => b" resource unavailable, unspecified",
        0x31 => b" Quality of Service unavailable",
        0x39 => b" bearer capability not authorized",
        0x3A => b" bearer capability not presently available",
        0x3F => b" service or option not available, unspecified",
        0x41 => b" bearer capability not implemented",
        0x49 => b" unsupported combination of traffic parameters",
        0x51 => b" invalid call reference value",
        0x52 => b" identified channel does not exist",
        0x58 => b" incompatible destination",
        0x60 => b" mandatory information element is missing",
        0x61 => b" message type non-existent or not implemented",
        0x64 => b" invalid information element contents",
        0x65 => b" message not compatible with call state",
        0x66 => b" recovery on timer expiry",
        _ => b"",
    }
}

// Why an event was refused; nothing if it was not. Stays a number: `put_line` takes any octet, and what it takes may not narrow.
#[tactic(auto, unfolding(crate::specs::Names::name_in, crate::specs::Names::refusal_names))]
fn refusal_name(refusal: u8) -> &'static [u8]
    ensures name { result.now ≡ name_in refusal_names refusal }
    ensures short { length result.now ≤ 80 }
{
    match refusal {
        0x01 => b"; refused: reply room under 1,024 octets",
        0x02 => b"; refused: clock label not 1",
        0x03 => b"; refused: reading too large",
        0x04 => b"; refused: reading below the last accepted",
        0x05 => b"; refused: message empty or over 1,024 octets",
        0x06 => b"; refused: no call in this slot",
        0x07 => b"; refused: wrong state",
        0x08 => b"; refused: cause not in the host's list",
        0x0A => b"; refused: the body of the offer",
        0x0B => b"; refused: no empty slot",
        0x0C => b"; refused: no permitted pair free",
        0x0D => b"; refused: a RESTART of ours is under way, or the pair is not permitted",
        _ => b"",
    }
}

// A message type.
fn put_kind(out: &mut [u8], at: usize, kind: u8) -> usize
    requires { at + 200 ≤ length out.old }
    ensures wrote { Wrote out.old at (kind_text kind) out.new result }
    ensures short { (at ≤ result) × (result ≤ at + 200) }
{
    match MessageType::try_from(kind) {
        Ok(known) => octets::put(out, at, type_name(known)),
        Err(_) => {
            let next = octets::put(out, at, b"message type ");
            ascii::put_octet(out, next, kind)
        }
    }
}

// A cause number and its name.
fn put_cause(out: &mut [u8], at: usize, cause: u8) -> usize
    requires { at + 1100 ≤ length out.old }
    ensures wrote { Wrote out.old at (cause_text cause) out.new result }
    ensures short { (at ≤ result) × (result ≤ at + 1100) }
{
    let next = octets::put(out, at, b" cause ");
    let end = ascii::put_octet(out, next, cause);
    octets::put(out, end, cause_name(cause))
}

// A message type with its flag and call reference.
fn put_header(out: &mut [u8], at: usize, head: Header) -> usize
    requires { at + 260 ≤ length out.old }
    ensures wrote { Wrote out.old at (header_text head) out.new result }
    ensures short { (at ≤ result) × (result ≤ at + 260) }
{
    let named = put_kind(out, at, head.kind);
    let flagged = put_flag(out, named, head.flag);
    ascii::put_decimal(out, flagged, head.reference as u64)
}

fn put_flag(out: &mut [u8], at: usize, flag: bool) -> usize
    requires { at + 20 ≤ length out.old }
    ensures wrote { Wrote out.old at (flag_text flag) out.new result }
    ensures short { (at ≤ result) × (result ≤ at + 20) }
{
    octets::put(
        out,
        at,
        if flag {
            b" flag 1 reference "
        } else {
            b" flag 0 reference "
        },
    )
}

// The cause that a message says.
fn put_cause_of(out: &mut [u8], at: usize, m: &[u8]) -> usize
    requires { at + 1100 ≤ length out.old }
    ensures wrote { Wrote out.old at (found_text (cause_in m.now 9)) out.new result }
    ensures short { (at ≤ result) × (result ≤ at + 1100) }
{
    match elements::cause(m, 9) {
        Read::Readable(cause) => put_cause(out, at, cause),
        _ => at,
    }
}

// A message: its type, flag, call reference and cause.
fn put_message(out: &mut [u8], at: usize, m: &[u8]) -> usize
    requires { at + 1360 ≤ length out.old }
    ensures wrote { Wrote out.old at (message_text m.now) out.new result }
    ensures short { (at ≤ result) × (result ≤ at + 1360) }
{
    match header::read(m) {
        None => octets::put(out, at, b"no message of ours"),
        Some(head) => {
            let next = put_header(out, at, head);
            put_cause_of(out, next, m)
        }
    }
}

// A word and a number.
fn put_labelled(out: &mut [u8], at: usize, word: &[u8], n: u64) -> usize
    requires { (at + 40 ≤ length out.old) × (length word.now ≤ 20) }
    ensures wrote { Wrote out.old at (word.now ++ decimal_text n) out.new result }
    ensures short { (at ≤ result) × (result ≤ at + 40) }
{
    let next = octets::put(out, at, word);
    ascii::put_decimal(out, next, n)
}

// The cause of a clear, if it is one.
fn put_wide_cause(out: &mut [u8], at: usize, cause: u64) -> usize
    requires { at + 1100 ≤ length out.old }
    ensures wrote { Wrote out.old at (clear_text cause) out.new result }
    ensures short { (at ≤ result) × (result ≤ at + 1100) }
{
    if cause < 128 {
        put_cause(out, at, cause as u8)
    } else {
        octets::put(out, at, b" no cause")
    }
}

// What came in.
fn put_request(out: &mut [u8], at: usize, request: Request, came: &[u8]) -> usize
    requires { (at + 1360 ≤ length out.old) × Asks request (length came.now) }
    ensures wrote { Wrote out.old at (request_text request came.now) out.new result }
    ensures short { (at ≤ result) × (result ≤ at + 1360) }
{
    match request {
        Request::Tick => octets::put(out, at, b"tick"),
        Request::Message(n) => put_message(out, at, &came[..n]),
        Request::Connect(slot) => put_labelled(out, at, b"connect slot ", slot),
        Request::Clear(slot, cause) => {
            let next = put_labelled(out, at, b"clear slot ", slot);
            put_wide_cause(out, next, cause)
        }
        Request::Offer(_) => octets::put(out, at, b"offer"),
        Request::RestartAll => octets::put(out, at, b"restart all pairs"),
        Request::RestartOne(vpci, vci) => {
            let half = put_labelled(out, at, b"restart VPCI ", vpci);
            put_labelled(out, half, b" VCI ", vci)
        }
        Request::PutBack => octets::put(out, at, b"put all pairs back"),
    }
}

// What went out.
fn put_reply(out: &mut [u8], at: usize, reply: &[u8]) -> usize
    requires { at + 1370 ≤ length out.old }
    ensures wrote { Wrote out.old at (reply_text reply.now) out.new result }
    ensures short { (at ≤ result) × (result ≤ at + 1370) }
{
    if reply.is_empty() {
        return at;
    }
    let next = octets::put(out, at, b"; out ");
    put_message(out, next, reply)
}

// A timer and its deadline.
fn put_timer(out: &mut [u8], at: usize, state: State) -> usize
    requires { at + 40 ≤ length out.old }
    ensures wrote { Wrote out.old at (timer_text state) out.new result }
    ensures short { (at ≤ result) × (result ≤ at + 40) }
{
    match state {
        State::N3 | State::N10 => at,
        State::N6(deadline) => put_labelled(out, at, b" T303 until ", deadline),
        State::N9(deadline) => put_labelled(out, at, b" T310 until ", deadline),
        State::N12(_, deadline) => put_labelled(out, at, b" T308 until ", deadline),
    }
}

// A call's state, pair and timer.
fn put_call(out: &mut [u8], at: usize, call: Call, state: State) -> usize
    requires { at + 160 ≤ length out.old }
    ensures wrote { Wrote out.old at (call_text call state) out.new result }
    ensures short { (at ≤ result) × (result ≤ at + 160) }
{
    let stated = put_labelled(out, at, b" N", state.number() as u64);
    let half = put_labelled(out, stated, b" VPCI ", call.pair.vpci as u64);
    let paired = put_labelled(out, half, b" VCI ", call.pair.vci as u64);
    put_timer(out, paired, state)
}

fn put_slot(out: &mut [u8], at: usize, slot: Slot) -> usize
    requires { at + 160 ≤ length out.old }
    ensures wrote { Wrote out.old at (slot_text slot) out.new result }
    ensures short { (at ≤ result) × (result ≤ at + 160) }
{
    match slot.hold {
        Hold::Empty => octets::put(out, at, b" empty"),
        Hold::Live(call, state) => put_call(out, at, call, state),
    }
}

// A slot before and after.
fn put_change(out: &mut [u8], at: usize, i: usize, before: Slot, after: Slot) -> usize
    requires { at + 370 ≤ length out.old }
    ensures wrote { Wrote out.old at (change_text i before after) out.new result }
    ensures short { (at ≤ result) × (result ≤ at + 370) }
{
    let numbered = put_labelled(out, at, b"; slot ", i as u64);
    let first = put_slot(out, numbered, before);
    let to = octets::put(out, first, b" to");
    put_slot(out, to, after)
}

fn same_state(a: State, b: State) -> bool
    ensures { result ≡ same_state a b }
{
    a.number() == b.number() && a.due() == b.due()
}

// If a slot holds the same call in the same state.
fn is_same(a: Slot, b: Slot) -> bool
    ensures { result ≡ is_same a b }
{
    match (a.hold, b.hold) {
        (Hold::Empty, _) => b.is_empty(),
        (Hold::Live(call, state), Hold::Live(_, later)) => {
            b.is_call(call.network, call.reference) && same_state(state, later)
        }
        (Hold::Live(..), Hold::Empty) => false,
    }
}

// If an event is about the call of a slot.
fn is_about(request: Request, came: &[u8], i: usize, slot: Slot) -> bool
    requires { Asks request (length came.now) }
    ensures { result ≡ is_about request came.now i slot }
{
    match request {
        Request::Message(n) => {
            header::read(&came[..n]).is_some_and(|head| slot.is_call(head.flag, head.reference))
        }
        Request::Connect(number) | Request::Clear(number, _) => number == i as u64,
        _ => false,
    }
}

// One slot, if its call changed or the event is about it.
fn put_if(out: &mut [u8], at: usize, i: usize, before: Slot, after: Slot, about: bool) -> usize
    requires { at + 370 ≤ length out.old }
    ensures wrote { Wrote out.old at (note_text i before after about) out.new result }
    ensures short { (at ≤ result) × (result ≤ at + 370) }
{
    if about || !is_same(before, after) {
        put_change(out, at, i, before, after)
    } else {
        at
    }
}

// The slots that the event is about or that it changed.
fn put_slots(
    out: &mut [u8],
    at: usize,
    request: Request,
    came: &[u8],
    before: Slots,
    after: Slots,
) -> usize
    requires { (at + 11840 ≤ length out.old) × Asks request (length came.now) }
    ensures wrote { Wrote out.old at (slots_text request came.now 0 before.all after.all) out.new result }
    ensures short { (at ≤ result) × (result ≤ at + 11840) }
{
    let mut next = at;
    for (i, slot) in before.all.iter().enumerate() {
        let about = is_about(request, came, i, *slot);
        next = put_if(out, next, i, *slot, after.all[i], about);
    }
    next
}

// The line behind an answer: `came` begins with the octets that came in.
pub fn put_line(
    out: &mut [u8],
    at: usize,
    request: Request,
    came: &[u8],
    refusal: u8,
    reply: &[u8],
    before: Slots,
    after: Slots,
) -> usize
    requires { (at + 15100 ≤ length out.old) × Asks request (length came.now) }
    ensures wrote { Wrote out.old at (line_text request came.now refusal reply.now before.all after.all) out.new result }
    ensures short { (result ≡ at + length (line_text request came.now refusal reply.now before.all after.all)) × (at ≤ result) × (result ≤ at + 15100) }
{
    let first = octets::put(out, at, b"# in ");
    let asked = put_request(out, first, request, came);
    let refused = octets::put(out, asked, refusal_name(refusal));
    let replied = put_reply(out, refused, reply);
    let changed = put_slots(out, replied, request, came, before, after);
    octets::put(out, changed, b"\n")
}
