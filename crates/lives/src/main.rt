// Standard lives of calls, for counting instructions. Four octets on standard input: 0 for a user-originated call
// (SETUP, connect, CONNECT ACKNOWLEDGE, RELEASE), 1 for a network-originated one (offer, CALL PROCEEDING, CONNECT,
// clear, RELEASE COMPLETE) or 2 for one that ends at once (SETUP, RELEASE COMPLETE); how many calls stand beside it;
// hundreds of lives; which lists it starts with (`lists_of`). Writes the lengths of all replies added up modulo
// 1,000,000.
#![tactic(auto)]

ghost use Rattle.std.specs.Prelude.{◌≤◌, ◌<◌};

use outcome::{Answer, Answered, Started};
use refusal::Refusal;
use std::io;
use std::io::Read;
use table::Table;

// A SETUP on reference 0; its elements are an offer's body too.
const SETUP: [u8; 45] = *b"\x09\x03\x00\x00\x00\x05\x80\x00\x24\
    \x59\x80\x00\x08\x84\x00\x10\x00\x85\x00\x10\x00\
    \x5C\x80\x00\x02\x00\x00\
    \x5E\x80\x00\x02\x81\x80\
    \x70\x80\x00\x08\x91\x35\x35\x35\x31\x32\x33\x34";

// A RELEASE on reference 200, with cause 16.
const RELEASE: [u8; 15] = *b"\x09\x03\x00\x00\xC8\x4D\x80\x00\x06\x08\x80\x00\x02\x80\x90";

// Which ranges a table starts with: VPCI 0, 1 .., each with the VCIs from 32 to `last`. How many numbers of ranges, and
// of permanent pairs, count.
#[derive(Clone, Copy)]
struct Lists {
    ranges: usize,
    last: u16,
    pairs: usize,
}

// 1, 2 and 4: 32 channels in so many ranges. 0: 2 channels in one range. 3: 16 channels in four ranges. 5: 36 channels in
// four ranges, the last two of each permanent.
fn lists_of(number: u8) -> Lists
    ensures { (result.ranges ≤ 12) × (result.pairs ≤ 16) }
{
    match number {
        0 => Lists {
            ranges: 3,
            last: 33,
            pairs: 0,
        },
        1 => Lists {
            ranges: 3,
            last: 63,
            pairs: 0,
        },
        2 => Lists {
            ranges: 6,
            last: 47,
            pairs: 0,
        },
        3 => Lists {
            ranges: 12,
            last: 35,
            pairs: 0,
        },
        5 => Lists {
            ranges: 12,
            last: 40,
            pairs: 16,
        },
        _ => Lists {
            ranges: 12,
            last: 39,
            pairs: 0,
        },
    }
}

fn started(lists: Lists) -> Result<Table, Refusal>
    requires { (lists.ranges ≤ 12) × (lists.pairs ≤ 16) }
{
    let last = lists.last;
    let ranges = [0, 32, last, 1, 32, last, 2, 32, last, 3, 32, last];
    let pairs = [0u16, 39, 0, 40, 1, 39, 1, 40, 2, 39, 2, 40, 3, 39, 3, 40];
    control::start(&ranges[..lists.ranges], &pairs[..lists.pairs])
}

// A table, and the lengths of the replies so far, added up modulo 1,000,000.
#[derive(Clone, Copy)]
struct Life {
    table: Table,
    sum: u64,
}

fn added(sum: u64, length: usize) -> u64 {
    (sum % 1000000 + (length % 4096) as u64) % 1000000
}

impl Life {
    fn answered(self, answer: Result<Answer, Refusal>) -> Life {
        let answer = Answered::of(self.table, answer);
        Life {
            table: answer.table,
            sum: added(self.sum, answer.length),
        }
    }

    fn heard(self, m: &[u8], room: &mut [u8; 1024]) -> Life {
        self.answered(control::message(self.table, 1, 0, room, m))
    }

    // A message without elements.
    fn bare(self, flag: u8, reference: u8, kind: u8, room: &mut [u8; 1024]) -> Life {
        self.heard(&[0x09, 0x03, flag, 0, reference, kind, 0x80, 0, 0], room)
    }

    fn set_up(self, reference: u8, room: &mut [u8; 1024]) -> Life {
        let mut m = SETUP;
        m[4] = reference;
        self.heard(&m, room)
    }

    fn connected(self, slot: u64, room: &mut [u8; 1024]) -> Life {
        self.answered(control::connect(self.table, 1, 0, room, slot))
    }

    fn offered(self, room: &mut [u8; 1024]) -> Life {
        self.answered(control::offer(self.table, 1, 0, room, &SETUP[9..]))
    }

    fn cleared(self, slot: u64, room: &mut [u8; 1024]) -> Life {
        self.answered(control::clear(self.table, 1, 0, room, slot, 16))
    }

    fn user(mut self, slot: u64, room: &mut [u8; 1024]) -> Life {
        self = self.set_up(200, room);
        self = self.connected(slot, room);
        self = self.bare(0, 200, 0x0F, room);
        self.heard(&RELEASE, room)
    }

    fn network(mut self, slot: u64, room: &mut [u8; 1024]) -> Life {
        self = self.offered(room);
        self = self.bare(0x80, 1, 0x02, room);
        self = self.bare(0x80, 1, 0x07, room);
        self = self.cleared(slot, room);
        self.bare(0x80, 1, 0x5A, room)
    }

    fn brief(mut self, room: &mut [u8; 1024]) -> Life {
        self = self.set_up(200, room);
        self.bare(0, 200, 0x5A, room)
    }

    fn of_kind(self, kind: u8, slot: u64, room: &mut [u8; 1024]) -> Life {
        match kind {
            0 => self.user(slot, room),
            1 => self.network(slot, room),
            _ => self.brief(room),
        }
    }

    // LIVE calls on references from 1.
    fn filled(mut self, live: u64, room: &mut [u8; 1024]) -> Life {
        for i in 0..live {
            self = self.set_up(((i + 1) % 256) as u8, room);
        }
        self
    }

    fn lived(mut self, kind: u8, live: u64, rounds: u64, room: &mut [u8; 1024]) -> Life {
        for _ in 0..rounds {
            self = self.of_kind(kind, live, room);
        }
        self
    }
}

// The sum of the replies' lengths, by the four octets of the input.
fn sum_of(input: &[u8; 4]) -> u64 {
    let mut room = [0u8; 1024];
    let live = u64::from(input[1]);
    let rounds = u64::from(input[2]) * 100;
    let table = Started::of(started(lists_of(input[3]))).table;
    let life = Life { table, sum: 0 };
    life.filled(live, &mut room)
        .lived(input[0], live, rounds, &mut room)
        .sum
}

// Reads until the room is full or the input ends. Stays a `while`: it counts the octets that came, and walks no index.
fn read_full(input: &mut impl Read, room: &mut [u8]) -> io::Result<()> {
    let mut n: usize = 0;
    while n < room.len() {
        let got = input.read(&mut room[n..])?;
        if got == 0 {
            return Ok(());
        }
        n += got;
    }
    Ok(())
}

fn main(rt: HostRuntime) -> io::Result<()> {
    let mut input = [0u8; 4];
    read_full(&mut rt.stdin(), &mut input)?;
    let sum = sum_of(&input);
    println!(rt; "{sum}")
}
