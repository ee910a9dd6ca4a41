// Whether two entries are the same, by content.

ghost use Rattle.std.specs.Prelude.{◌≡◌, ◌↔◌, IsTrue};

use crate::command::{Asked, Command};
use crate::entry::Entry;
use crate::reply::Reply;
use cc_library::{Name, SharedUnit};
use cc_link::CompiledUnit;

// Whether two entries are the same. The client and the call are compared first, since these differ in most
// entries.
pub(crate) fn same_entry(one: &Entry, other: &Entry) -> bool
    ensures { IsTrue result ↔ (one.now ≡ other.now) }
{
    one.client == other.client
        && one.call == other.call
        && same_asked(&one.asked, &other.asked)
        && same_reply(&one.reply, &other.reply)
}

fn same_asked(one: &Asked, other: &Asked) -> bool
    ensures { IsTrue result ↔ (one.now ≡ other.now) }
{
    match (one, other) {
        (Asked::Change(command), Asked::Change(another)) => same_command(command, another),
        (Asked::Fetch(name), Asked::Fetch(another)) => same_name(name, another),
        (Asked::Names, Asked::Names) => true,
        _ => false,
    }
}

fn same_command(one: &Command, other: &Command) -> bool
    ensures { IsTrue result ↔ (one.now ≡ other.now) }
{
    match (one, other) {
        (Command::Add(name, unit), Command::Add(another, with)) => {
            same_name(name, another) && same_compiled(unit, with)
        }
        (Command::Replace(name, unit), Command::Replace(another, with)) => {
            same_name(name, another) && same_compiled(unit, with)
        }
        (Command::Withdraw(name), Command::Withdraw(another)) => same_name(name, another),
        _ => false,
    }
}

fn same_reply(one: &Reply, other: &Reply) -> bool
    ensures { IsTrue result ↔ (one.now ≡ other.now) }
{
    match (one, other) {
        (Reply::Done, Reply::Done)
        | (Reply::Exists, Reply::Exists)
        | (Reply::Absent, Reply::Absent) => true,
        (Reply::Unit(unit), Reply::Unit(another)) => same_shared(unit, another),
        (Reply::Names(names), Reply::Names(others)) => {
            same_names(names.as_slice(), others.as_slice())
        }
        _ => false,
    }
}

fn same_compiled(one: &CompiledUnit, other: &CompiledUnit) -> bool
    ensures { IsTrue result ↔ (one.now ≡ other.now) }
{
    one.stored().is_same(other.stored())
}

fn same_shared(one: &SharedUnit, other: &SharedUnit) -> bool
    ensures { IsTrue result ↔ (one.now ≡ other.now) }
{
    one.stored().is_same(other.stored())
}

fn same_name(one: &Name, other: &Name) -> bool
    ensures { IsTrue result ↔ (one.now ≡ other.now) }
{
    one.bytes() == other.bytes()
}

fn same_names(one: &[Name], other: &[Name]) -> bool
    ensures { IsTrue result ↔ (one.now ≡ other.now) }
{
    if one.len() != other.len() {
        return false;
    }
    for i in 0..one.len() {
        if !same_name(&one[i], &other[i]) {
            return false;
        }
    }
    true
}
