// What SETUP's elements and an offer's body must be.
//   admit            what a SETUP's elements are refused for, before the table is asked
//   offer_fits       whether octets are an offer's body, their number apart
// Nothing that is public has a `requires`. Assumes nothing.
#![tactic(auto)]

ghost use Rattle.std.specs.Prelude.{◌≡◌, length};
ghost use Rattle.std.specs.Fn.{FnReturnsAt};
ghost use Rattle.elements.specs.Elements.{is_absent, is_unreadable, Within};
ghost use Rattle.setup.specs.Setup.{found_in, chosen, some_named, multipoint_in, allowed_in, because, because_of, admission};
ghost use Rattle.setup.specs.Offer.{counted, offer_fits};

use elements::{Part, Read};
use replies::{Cause, Diagnostic, Mandatory};

// What is found of 59, 5C, 5E and 70.
fn find_all(m: &[u8], from: usize) -> Mandatory<Read<Part>>
    ensures value { result ≡ found_in m.now from }
    ensures within { (Within (length m.now) result.bearer) × (Within (length m.now) result.traffic) }
{
    Mandatory {
        traffic: elements::look_for(m, from, 0x59),
        qos: elements::look_for(m, from, 0x5C),
        bearer: elements::look_for(m, from, 0x5E),
        called: elements::look_for(m, from, 0x70),
    }
}

// Those of the four that pass a test.
fn chosen<F: Fn(&Read<Part>) -> bool>(test: F, found: &Mandatory<Read<Part>>) -> Mandatory<bool>
    requires { F.IsAlwaysCallable test }
    ensures traffic { FnReturnsAt F.Fn test found.now.traffic result.traffic }
    ensures qos { FnReturnsAt F.Fn test found.now.qos result.qos }
    ensures bearer { FnReturnsAt F.Fn test found.now.bearer result.bearer }
    ensures called { FnReturnsAt F.Fn test found.now.called result.called }
{
    Mandatory {
        traffic: test(&found.traffic),
        qos: test(&found.qos),
        bearer: test(&found.bearer),
        called: test(&found.called),
    }
}

fn missing(found: &Mandatory<Read<Part>>) -> Mandatory<bool>
    ensures { result ≡ chosen is_absent found.now }
{
    chosen(|read| read.is_absent(), found)
}

fn unreadable(found: &Mandatory<Read<Part>>) -> Mandatory<bool>
    ensures { result ≡ chosen is_unreadable found.now }
{
    chosen(|read| read.is_unreadable(), found)
}

fn some_named(named: Mandatory<bool>) -> bool
    ensures { result ≡ some_named named }
{
    named.traffic || named.qos || named.bearer || named.called
}

// What is asked of the contents of the bearer capability, where they are readable.
fn is_multipoint(m: &[u8], bearer: Read<Part>) -> bool
    requires { Within (length m.now) bearer }
    ensures { result ≡ multipoint_in m.now bearer }
{
    matches!(bearer, Read::Readable(Part { start, end }) if mandatory::is_multipoint(&m[start..end]))
}

// .. and of the traffic descriptor.
fn is_allowed(m: &[u8], traffic: Read<Part>) -> bool
    requires { Within (length m.now) traffic }
    ensures { result ≡ allowed_in m.now traffic }
{
    matches!(traffic, Read::Readable(Part { start, end }) if traffic::traffic_allowed(&m[start..end]))
}

fn because(number: u8) -> Cause
    ensures { result ≡ because number }
{
    Cause {
        number,
        diagnostic: Diagnostic::None,
    }
}

fn because_of(number: u8, named: Mandatory<bool>) -> Cause
    ensures { result ≡ because_of number named }
{
    Cause {
        number,
        diagnostic: Diagnostic::Elements(named),
    }
}

// What a SETUP's elements are refused for, before the table is asked: the first cause that applies.
pub fn admit(m: &[u8], from: usize) -> Result<(), Cause>
    ensures { result ≡ admission m.now from }
{
    let found = find_all(m, from);
    let absent = missing(&found);
    if some_named(absent) {
        return Err(because_of(96, absent));
    }
    let broken = unreadable(&found);
    if some_named(broken) {
        return Err(because_of(100, broken));
    }
    if is_multipoint(m, found.bearer) {
        return Err(because(65));
    }
    if !is_allowed(m, found.traffic) {
        return Err(because(73));
    }
    Ok(())
}

fn is_counted(body: &[u8], id: u8, n: usize) -> bool
    ensures { result ≡ counted body.now id n }
{
    items::count(body, 0, id) == n
}

// Whether octets are an offer's body, their number apart.
pub fn offer_fits(body: &[u8]) -> bool
    ensures { result ≡ offer_fits body.now }
{
    items::whole(body, 0)
        && is_counted(body, 0x59, 1)
        && is_counted(body, 0x5C, 1)
        && is_counted(body, 0x5E, 1)
        && is_counted(body, 0x70, 1)
        && is_counted(body, 0x5A, 0)
        && admit(body, 0).is_ok()
}
