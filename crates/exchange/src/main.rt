// Reads an event script from standard input, and writes one answer line for each event.
//   Desk                       the table, and the output
//   ask, respond, handle       one event; a refusal is told by its number
//   store, keep                a save
//   open, begin, restore       a start, a reload
//   take, serve, run           a line, whole lines, all of the script
#![tactic(auto)]

mod lines;
mod number;
mod page;

ghost use Rattle.std.specs.Prelude.{◌≤◌, length, IfSome};
ghost use Rattle.script.specs.Lines.{Asks, Within};

use lines::Chunk;
use outcome::{Answer, Answered, Started};
use page::Page;
use refusal::Refusal;
use restarts::Target;
use saved::Saved;
use script::{Clock, Line, List, Request};
use std::env::Env;
use std::io::Read;
use table::Table;

// The pattern that the reply room is filled with.
const PATTERN: u8 = 0xA5;

// The table, if a start or a reload was accepted, and the output.
#[derive(Drop)]
struct Desk {
    table: Option<Table>,
    page: Page,
}

fn lent(room: u64) -> usize
    ensures { result ≤ 4096 }
{
    room.min(4096) as usize
}

// If each octet still has the pattern. All are looked at: with `all`, which stops early, a script takes a third longer.
fn untouched(room: &[u8]) -> bool {
    room.iter()
        .fold(0, |other, octet| other | (*octet ^ PATTERN))
        == 0
}

// The first n octets of a room, if it has so many, and what is behind them is untouched.
fn reply_in(room: &[u8], n: usize) -> Option<&[u8]>
    ensures { IfSome result (λ r. length r.now ≤ length room.now) }
{
    if n <= room.len() && untouched(&room[n..]) {
        Some(&room[..n])
    } else {
        None
    }
}

// One event on the table.
fn ask(
    table: Table,
    clock: Clock,
    request: Request,
    octets: &[u8],
    room: &mut [u8],
) -> Result<Answer, Refusal>
    requires { Asks request (length octets.now) }
{
    match request {
        Request::Tick => control::tick(table, clock.label, clock.reading, room),
        Request::Message(n) => control::message(
            table,
            clock.label,
            clock.reading,
            room,
            &octets[0..n],
        ),
        Request::Connect(slot) => control::connect(table, clock.label, clock.reading, room, slot),
        Request::Clear(slot, cause) => control::clear(
            table,
            clock.label,
            clock.reading,
            room,
            slot,
            cause,
        ),
        Request::Offer(n) => control::offer(table, clock.label, clock.reading, room, &octets[0..n]),
        Request::RestartAll => control::restart(
            table,
            clock.label,
            clock.reading,
            room,
            Target::All,
        ),
        Request::RestartOne(vpci, vci) => control::restart(
            table,
            clock.label,
            clock.reading,
            room,
            Target::One(vpci, vci),
        ),
        Request::PutBack => control::put_back(table, clock.label, clock.reading, room),
    }
}

impl Desk {
    // One event on a table, with a room; what lies behind the reply must be untouched.
    fn respond(
        &mut self,
        rt: &impl Print,
        table: Table,
        clock: Clock,
        request: Request,
        octets: &[u8],
        room: &mut [u8],
    )
        requires { (length room.old ≤ 4096) × Asks request (length octets.now) }
    {
        let answer = Answered::of(table, ask(table, clock, request, octets, room));
        match reply_in(room, answer.length) {
            Some(reply) => {
                let before = table.slots;
                self.page
                    .put_answer(rt, request, octets, reply, before, answer);
            }
            None => self.page.put_touched(rt),
        }
        self.table = Some(answer.table);
    }

    // One event, in a room with the pattern in all of it.
    fn handle(&mut self, rt: &impl Print, clock: Clock, request: Request, octets: &[u8])
        requires { Asks request (length octets.now) }
    {
        let Some(table) = self.table else {
            self.page.put_no_table(rt);
            return;
        };
        let mut room = [PATTERN; 4096];
        let n = lent(clock.room);
        self.respond(rt, table, clock, request, octets, &mut room[..n]);
    }

    // A save with a room; what lies behind the form must be untouched.
    fn store(&mut self, rt: &impl Print, table: Table, room: &mut [u8])
        requires { length room.old ≤ 4096 }
    {
        let saved = Saved::of(saved::save(table, room));
        match reply_in(room, saved.length) {
            Some(form) => self.page.put_saved(rt, saved.refusal, form),
            None => self.page.put_touched(rt),
        }
    }

    // A save, in a room with the pattern in all of it.
    fn keep(&mut self, rt: &impl Print, size: u64) {
        let Some(table) = self.table else {
            self.page.put_no_table(rt);
            return;
        };
        let mut room = [PATTERN; 4096];
        let n = lent(size);
        self.store(rt, table, &mut room[..n]);
    }

    // What a start or a reload answers, with a note for each case; a refused one leaves no table.
    fn open(&mut self, rt: &impl Print, started: Started, accepted: &[u8], refused: &[u8])
        requires { (length accepted.now ≤ 64) × (length refused.now ≤ 64) }
    {
        let is_accepted = started.refusal == 0;
        self.page.put_opened(rt, is_accepted, accepted, refused);
        self.table = is_accepted.then_some(started.table);
    }

    // A line that begins with `start`.
    fn begin(&mut self, rt: &impl Print, line: &[u8]) {
        match script::read_lists(line) {
            Some(lists) => self.open(
                rt,
                Started::of(start(lists.ranges, lists.pairs)),
                b"# start accepted: every slot is empty\n",
                b"# start refused: the lists break a rule\n",
            ),
            None => self.page.put_bad_line(rt, line),
        }
    }

    // A saved form in place of a start.
    fn restore(&mut self, rt: &impl Print, form: &[u8]) {
        self.open(
            rt,
            Started::of(reload::reload(form)),
            b"# table reloaded\n",
            b"# reload refused: the octets are no saved form\n",
        );
    }

    // One line; what asks nothing of the table is answered apart.
    fn take(&mut self, rt: &impl Print, line: &[u8], octets: &mut [u8; 4096]) {
        match read(line, octets) {
            None => number::answer(rt, &mut self.page, line, octets),
            Some(Line::Start) => self.begin(rt, line),
            Some(Line::Event(clock, request)) => self.handle(rt, clock, request, octets),
            Some(Line::Save(size)) => self.keep(rt, size),
            Some(Line::Reload(n)) => self.restore(rt, &octets[..n]),
        }
    }

    // Whole lines.
    fn serve(&mut self, rt: &impl Print, lines: &[u8], octets: &mut [u8; 4096]) {
        for line in lines.split(|octet| *octet == b'\n') {
            self.take(rt, line, octets);
        }
    }
}

// A start from two lists.
fn start(ranges: List, pairs: List) -> Result<Table, Refusal>
    requires { (ranges.n ≤ 64) × (pairs.n ≤ 64) }
{
    control::start(&ranges.numbers[..ranges.n], &pairs.numbers[..pairs.n])
}

// What a line asks; one that is too long is bad.
fn read(line: &[u8], octets: &mut [u8; 4096]) -> Option<Line>
    ensures { IfSome result (λ line. Within line 4096) }
{
    if 65536 < line.len() {
        return None;
    }
    script::read(line, octets)
}

// All of the script, until the input ends or the answers cannot be written. A proved loop has to end, and nothing says that the
// input does: so it counts to a number that no run reaches.
fn run(
    rt: &impl Print,
    source: &mut impl Read,
    explains: bool,
    input: &mut [u8; 131072],
    octets: &mut [u8; 4096],
) {
    let mut desk = Desk {
        table: None,
        page: Page::new(explains),
    };
    let mut chunk = Chunk::none();
    for _ in 0..1099511627776u64 {
        chunk = lines::next(source, input, chunk);
        desk.serve(rt, &input[..chunk.whole], octets);
        let is_written = desk.page.flush(rt);
        if !chunk.open || !is_written {
            return;
        }
    }
}

// If the first argument is `explain`.
fn asks_to_explain(rt: &impl Env) -> bool {
    let mut word = [0u8; 4096];
    match rt.arg(1, &mut word) {
        Ok(n) => &word[..n] == b"explain".as_slice(),
        Err(_) => false,
    }
}

fn main(rt: HostRuntime) {
    let mut input = [0u8; 131072];
    let mut octets = [0u8; 4096];
    let explains = asks_to_explain(&rt);
    run(&rt, &mut rt.stdin(), explains, &mut input, &mut octets);
}
