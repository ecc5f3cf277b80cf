// Every message that we send, written at the front of a lent room.
//   REPLY_ROOM, BODY_ROOM                   no message that we send is longer, and no offer's body
//   Mandatory, Diagnostic, Cause, Reply     what a reply says, as a value
//   Outgoing                                what an event sends: a reply, or SETUP
//   send                                    what is sent: answers its length, 0 where there is nothing
// `send` asks for a room of 1,024 octets, and for an offer's body of at most 512; octets behind the message are unchanged.
// Assumes nothing.
#![tactic(auto)]

ghost use Rattle.std.specs.Prelude.{◌≡◌, false, cond, ◌+◌, ◌≤◌, ◌<◌, ◌∷◌, [], ◌++◌, length};
ghost use Rattle.octets.specs.Octets.{high, low, Wrote, Fills, front};
ghost use Rattle.header.specs.MessageType.{number_of};
ghost use Rattle.replies.specs.Message.{header, element_octets, octets};
ghost use Rattle.replies.specs.Reply.{in_field, optional, identifiers, diagnostic_octets, cause, short, call_state, connection, restart, headed, reply_octets, setup_octets, reply_room, body_room, sent_octets};

use header::MessageType;
use identifier::Pair;

pub const REPLY_ROOM: usize = 1024;

pub const BODY_ROOM: usize = 512;

// A value for each of the four elements that SETUP must have: 59, 5C, 5E and 70.
#[derive(Clone, Copy)]
pub struct Mandatory<T> {
    pub traffic: T,
    pub qos: T,
    pub bearer: T,
    pub called: T,
}

// What a cause's diagnostic field says. `None` stays a variant: an empty field is one of the things that it can say.
#[derive(Clone, Copy)]
pub enum Diagnostic {
    None,
    // A message type, or the identifier of an element.
    Octet(u8),
    Elements(Mandatory<bool>),
    Pair(Pair),
    // The digits "310".
    Timer,
}

// A cause number below 128, with its diagnostic.
#[derive(Clone, Copy)]
pub struct Cause {
    pub number: u8,
    pub diagnostic: Diagnostic,
}

// What is sent of a call. `None` stays a variant: the definitions have silence among the replies (`is_silent`), and theorems go over all.
#[derive(Clone, Copy)]
pub enum Reply {
    None,
    CallProceeding(Pair),
    Connect,
    ConnectAcknowledge,
    Release(Cause),
    ReleaseComplete,
    ReleaseCompleteWith(Cause),
    // The call state, and why.
    Status(u8, Cause),
    RestartAcknowledgeAll,
    RestartAcknowledge(Pair),
    // Our own RESTART: of all pairs, and of one.
    RestartAll,
    Restart(Pair),
}

// What an event sends: a reply, or SETUP with the Connection identifier of a pair and then an offer's body.
#[derive(Clone, Copy)]
pub enum Outgoing {
    Reply(Reply),
    Setup(Pair),
}

// The octets of a diagnostic field, at most four, at the front of an array.
// Stays an array with a count: no heap (project rule).
#[derive(Clone, Copy)]
struct Field {
    octets: [u8; 4],
    size: usize,
}

impl Field {
    // One octet more, if it is there.
    fn with(mut self, there: bool, octet: u8) -> Field
        requires { self.size < 4 }
        ensures result_value { in_field result ≡ in_field self ++ optional there octet }
        ensures size_bound { result.size ≤ self.size + 1 }
    {
        if there {
            self.octets[self.size] = octet;
            self.size += 1;
        }
        self
    }
}

// The identifiers of the elements that are named, ascending.
fn identifier_field(named: Mandatory<bool>) -> Field
    ensures result_value { in_field result ≡ identifiers named }
    ensures size_bound { result.size ≤ 4 }
{
    Field {
        octets: [0; 4],
        size: 0,
    }
    .with(named.traffic, 0x59)
    .with(named.qos, 0x5C)
    .with(named.bearer, 0x5E)
    .with(named.called, 0x70)
}

fn pair_field(pair: Pair) -> Field
    ensures result_value { in_field result ≡ high pair.vpci ∷ low pair.vpci ∷ high pair.vci ∷ low pair.vci ∷ [] }
    ensures size_bound { result.size ≤ 4 }
{
    let [p, q] = pair.vpci.to_be_bytes();
    let [v, w] = pair.vci.to_be_bytes();
    Field {
        octets: [p, q, v, w],
        size: 4,
    }
}

fn diagnostic_field(diagnostic: Diagnostic) -> Field
    ensures result_value { in_field result ≡ diagnostic_octets diagnostic }
    ensures size_bound { result.size ≤ 4 }
{
    match diagnostic {
        Diagnostic::None => Field {
            octets: [0; 4],
            size: 0,
        },
        Diagnostic::Octet(octet) => Field {
            octets: [octet, 0, 0, 0],
            size: 1,
        },
        Diagnostic::Elements(named) => identifier_field(named),
        Diagnostic::Pair(pair) => pair_field(pair),
        Diagnostic::Timer => Field {
            octets: *b"310\0",
            size: 3,
        },
    }
}

fn flag_octet(flag: bool) -> u8
    ensures value { result ≡ cond flag 0x80 0 }
    ensures upper_bound { result ≤ 128 }
{
    if flag { 0x80 } else { 0 }
}

fn put_cause(room: &mut [u8], at: usize, why: Cause) -> usize
    requires { at + 10 ≤ length room.old }
    ensures { Wrote room.old at (element_octets (cause why)) room.new result }
{
    let Field { octets, size } = diagnostic_field(why.diagnostic);
    let low = (2 + size) as u8;
    let number = why.number % 128 + 0x80;
    let next = octets::put(room, at, &[0x08, 0x80, 0, low, 0x81, number]);
    octets::put(room, next, &octets[..size])
}

// An element whose contents are one octet.
fn put_short(room: &mut [u8], at: usize, ident: u8, octet: u8) -> usize
    requires { at + 5 ≤ length room.old }
    ensures { Wrote room.old at (element_octets (short ident octet)) room.new result }
{
    octets::put(room, at, &[ident, 0x80, 0, 1, octet])
}

fn put_connection(room: &mut [u8], at: usize, pair: Pair) -> usize
    requires { at + 9 ≤ length room.old }
    ensures { Wrote room.old at (element_octets (connection pair.vpci pair.vci)) room.new result }
{
    let [p, q] = pair.vpci.to_be_bytes();
    let [v, w] = pair.vci.to_be_bytes();
    octets::put(room, at, &[0x5A, 0x80, 0, 5, 0x88, p, q, v, w])
}

// The header of a message that we write, its length field apart.
#[derive(Clone, Copy)]
struct Heading {
    flag: bool,
    reference: u32,
    kind: MessageType,
}

impl Heading {
    // The header, which says that so many octets follow it.
    fn put(self, room: &mut [u8], size: usize) -> usize
        requires { 9 ≤ length room.old }
        ensures { Wrote room.old 0 (header self.flag self.reference (number_of self.kind) size) room.new result }
    {
        let [_, top, middle, bottom] = self.reference.to_be_bytes();
        let [.., high, low] = size.to_be_bytes();
        let first = flag_octet(self.flag) + top % 128;
        let kind = self.kind as u8;
        octets::put(
            room,
            0,
            &[0x09, 0x03, first, middle, bottom, kind, 0x80, high, low],
        )
    }

    // A message with no element.
    fn write_bare(self, room: &mut [u8]) -> usize
        requires { 1024 ≤ length room.old }
        ensures { Fills room.old (octets (headed self [])) room.new result }
    {
        self.put(room, 0)
    }

    // A message with a Connection identifier.
    fn write_connection(self, room: &mut [u8], pair: Pair) -> usize
        requires { 1024 ≤ length room.old }
        ensures { Fills room.old (octets (headed self (connection pair.vpci pair.vci ∷ []))) room.new result }
    {
        let at = self.put(room, 9);
        put_connection(room, at, pair)
    }

    // A message with a Cause.
    fn write_cause(self, room: &mut [u8], why: Cause) -> usize
        requires { 1024 ≤ length room.old }
        ensures { Fills room.old (octets (headed self (cause why ∷ []))) room.new result }
    {
        let size = 6 + diagnostic_field(why.diagnostic).size;
        let at = self.put(room, size);
        put_cause(room, at, why)
    }

    // A message with a Call state and a Cause.
    fn write_status(self, room: &mut [u8], state: u8, why: Cause) -> usize
        requires { 1024 ≤ length room.old }
        ensures { Fills room.old (octets (headed self (call_state state ∷ cause why ∷ []))) room.new result }
    {
        let size = 11 + diagnostic_field(why.diagnostic).size;
        let first = self.put(room, size);
        let second = put_short(room, first, 0x14, state);
        put_cause(room, second, why)
    }

    // A message with a Restart indicator of all pairs.
    fn write_restart_all(self, room: &mut [u8]) -> usize
        requires { 1024 ≤ length room.old }
        ensures { Fills room.old (octets (headed self (restart 0x82 ∷ []))) room.new result }
    {
        let at = self.put(room, 5);
        put_short(room, at, 0x79, 0x82)
    }

    // A message with a Restart indicator of one pair, and its Connection identifier.
    fn write_restart_pair(self, room: &mut [u8], pair: Pair) -> usize
        requires { 1024 ≤ length room.old }
        ensures { Fills room.old (octets (headed self (restart 0x80 ∷ connection pair.vpci pair.vci ∷ []))) room.new result }
    {
        let first = self.put(room, 14);
        let second = put_short(room, first, 0x79, 0x80);
        put_connection(room, second, pair)
    }
}

// Writes a reply with this flag and call reference, and answers its length.
fn write(room: &mut [u8], flag: bool, reference: u32, reply: Reply) -> usize
    requires { 1024 ≤ length room.old }
    ensures { (result ≡ length (reply_octets flag reference reply))
        × (room.new ≡ front (reply_octets flag reference reply) room.old) }
{
    let of = |kind| Heading {
        flag,
        reference,
        kind,
    };
    match reply {
        Reply::None => 0,
        Reply::CallProceeding(pair) => of(MessageType::CallProceeding).write_connection(room, pair),
        Reply::Connect => of(MessageType::Connect).write_bare(room),
        Reply::ConnectAcknowledge => of(MessageType::ConnectAcknowledge).write_bare(room),
        Reply::Release(why) => of(MessageType::Release).write_cause(room, why),
        Reply::ReleaseComplete => of(MessageType::ReleaseComplete).write_bare(room),
        Reply::ReleaseCompleteWith(why) => of(MessageType::ReleaseComplete).write_cause(room, why),
        Reply::Status(state, why) => of(MessageType::Status).write_status(room, state, why),
        Reply::RestartAcknowledgeAll => of(MessageType::RestartAcknowledge).write_restart_all(room),
        Reply::RestartAcknowledge(pair) => of(MessageType::RestartAcknowledge).write_restart_pair(
            room, pair,
        ),
        Reply::RestartAll => of(MessageType::Restart).write_restart_all(room),
        Reply::Restart(pair) => of(MessageType::Restart).write_restart_pair(room, pair),
    }
}

// Writes SETUP for a network-originated call, and answers its length.
fn write_setup(room: &mut [u8], reference: u32, pair: Pair, body: &[u8]) -> usize
    requires { (1024 ≤ length room.old) × (length body.now ≤ 512) }
    ensures { (result ≡ length (setup_octets reference pair.vpci pair.vci body.now))
        × (room.new ≡ front (setup_octets reference pair.vpci pair.vci body.now) room.old) }
{
    let heading = Heading {
        flag: false,
        reference,
        kind: MessageType::Setup,
    };
    let first = heading.put(room, 9 + body.len());
    let second = put_connection(room, first, pair);
    octets::put(room, second, body)
}

// Writes what an event sends, with this flag and call reference, and answers its length; SETUP alone has a body.
pub fn send(room: &mut [u8], flag: bool, reference: u32, outgoing: Outgoing, body: &[u8]) -> usize
    requires { (reply_room ≤ length room.old) × (length body.now ≤ body_room) }
    ensures { (result ≡ length (sent_octets flag reference outgoing body.now))
        × (room.new ≡ front (sent_octets flag reference outgoing body.now) room.old) }
{
    match outgoing {
        Outgoing::Reply(reply) => write(room, flag, reference, reply),
        Outgoing::Setup(pair) => write_setup(room, reference, pair, body),
    }
}
