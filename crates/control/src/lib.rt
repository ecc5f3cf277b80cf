// The controller: eight events on a table that goes in by value and comes back by value.
//   start                from lists of permitted ranges and permanent pairs
//   message              octets from the user
//   tick                 the clock
//   connect, clear       the host answers or ends a call
//   offer                the host offers a call to the user
//   restart, put_back    the host sends RESTART, and puts the pairs out of service back
// What they answer is outcome's `Answer`, or a `Refusal`: then the table that was given stays the table.
// No event has a `requires`: what is wrong with its input is refused. A reply fills the front of the lent
// room; octets behind it are unchanged. Assumes nothing.
// Label and reading stay two parameters: as a struct they would be put together at each call, to be taken apart at once.
#![tactic(auto)]

ghost use Rattle.std.specs.Prelude.{◌≡◌, ◌≤◌, length};
ghost use Rattle.octets.specs.Octets.{front};
ghost use Rattle.header.specs.Header.{head_of};
ghost use Rattle.outcome.specs.Outcome.{answer_of, started_of};
ghost use Rattle.control.specs.Events.{start_of, heard_by, message_of, tick_of, connect_of, clear_of, offer_of, restart_of, put_back_of};

use calls::Reading;
use effects::Effect;
use outcome::Answer;
use refusal::Refusal;
use restarts::Target;
use table::Table;

// Starts with permitted ranges, three numbers for each, and permanent pairs, two for each.
pub fn start(ranges: &[u16], pairs: &[u16]) -> Result<Table, Refusal>
    ensures { started_of result ≡ start_of ranges.now pairs.now }
{
    let pool = provisioning::pool_of(ranges, pairs).ok_or(Refusal::BrokenRule)?;
    Ok(outcome::fresh(pool))
}

// What an accepted message does.
fn hear(table: Table, reading: Reading, m: &[u8]) -> Effect
    ensures { result ≡ heard_by table reading.time m.now (head_of m.now) }
{
    match header::read(m) {
        None => effects::quiet(),
        Some(head) => table.heard(m, head, reading),
    }
}

// A message from the user.
pub fn message(
    table: Table,
    label: u64,
    reading: u64,
    room: &mut [u8],
    m: &[u8],
) -> Result<Answer, Refusal>
    ensures { (answer_of table result ≡ (message_of table label reading (length room.old) m.now).answer)
        × (room.new ≡ front (message_of table label reading (length room.old) m.now).reply room.old) }
{
    refusals::message_refusal(table.last, label, reading, room.len(), m)?;
    let effect = hear(table, Reading { time: reading }, m);
    Ok(outcome::accept(table, reading, effect, false, b"", room))
}

// The clock: fires at most one due timer.
pub fn tick(table: Table, label: u64, reading: u64, room: &mut [u8]) -> Result<Answer, Refusal>
    ensures { (answer_of table result ≡ (tick_of table label reading (length room.old)).answer)
        × (room.new ≡ front (tick_of table label reading (length room.old)).reply room.old) }
{
    refusals::common_refusal(table.last, label, reading, room.len())?;
    let fired = table.fire(Reading { time: reading });
    Ok(outcome::accept(table, reading, fired.effect, fired.more, b"", room))
}

// The host answers the call of a slot.
pub fn connect(
    table: Table,
    label: u64,
    reading: u64,
    room: &mut [u8],
    slot: u64,
) -> Result<Answer, Refusal>
    ensures { (answer_of table result ≡ (connect_of table label reading (length room.old) slot).answer)
        × (room.new ≡ front (connect_of table label reading (length room.old) slot).reply room.old) }
{
    let hold = table.slots.hold_at(slot);
    refusals::connect_refusal(table.last, label, reading, room.len(), hold)?;
    let effect = commands::connect_call(slot as usize, hold);
    Ok(outcome::accept(table, reading, effect, false, b"", room))
}

// The host ends the call of a slot.
pub fn clear(
    table: Table,
    label: u64,
    reading: u64,
    room: &mut [u8],
    slot: u64,
    cause: u64,
) -> Result<Answer, Refusal>
    ensures { (answer_of table result ≡ (clear_of table label reading (length room.old) slot cause).answer)
        × (room.new ≡ front (clear_of table label reading (length room.old) slot cause).reply room.old) }
{
    let hold = table.slots.hold_at(slot);
    refusals::clear_refusal(table.last, label, reading, room.len(), hold, cause)?;
    let effect = commands::clear_call(Reading { time: reading }, slot as usize, hold, cause as u8);
    Ok(outcome::accept(table, reading, effect, false, b"", room))
}

// The host offers a call to the user.
pub fn offer(
    table: Table,
    label: u64,
    reading: u64,
    room: &mut [u8],
    body: &[u8],
) -> Result<Answer, Refusal>
    ensures { (answer_of table result ≡ (offer_of table label reading (length room.old) body.now).answer)
        × (room.new ≡ front (offer_of table label reading (length room.old) body.now).reply room.old) }
{
    refusals::common_refusal(table.last, label, reading, room.len())?;
    refusals::body_refusal(body)?;
    let i = table.slots.lowest_empty().ok_or(Refusal::NoEmptySlot)?;
    let pair = table.free_pair().ok_or(Refusal::NoFreePair)?;
    let reference = table.slots.unused_reference();
    let effect = commands::offer_call(Reading { time: reading }, i, reference, pair);
    Ok(outcome::accept(table, reading, effect, false, body, room))
}

// The host sends RESTART, for one pair or for all.
pub fn restart(
    table: Table,
    label: u64,
    reading: u64,
    room: &mut [u8],
    target: Target,
) -> Result<Answer, Refusal>
    ensures { (answer_of table result ≡ (restart_of table label reading (length room.old) target).answer)
        × (room.new ≡ front (restart_of table label reading (length room.old) target).reply room.old) }
{
    refusals::restart_refusal(
        table.last,
        label,
        reading,
        room.len(),
        table.global.state,
        table.pool,
        target,
    )?;
    let effect = restarts::request(Reading { time: reading }, restarts::named_by(target), false);
    Ok(outcome::accept(table, reading, effect, false, b"", room))
}

// The host puts all pairs that are out of service back.
pub fn put_back(table: Table, label: u64, reading: u64, room: &mut [u8]) -> Result<Answer, Refusal>
    ensures { (answer_of table result ≡ (put_back_of table label reading (length room.old)).answer)
        × (room.new ≡ front (put_back_of table label reading (length room.old)).reply room.old) }
{
    refusals::common_refusal(table.last, label, reading, room.len())?;
    let effect = restarts::put_back();
    Ok(outcome::accept(table, reading, effect, false, b"", room))
}
