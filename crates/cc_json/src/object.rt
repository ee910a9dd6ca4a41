// A JSON object on a line.

ghost use Rattle.std.specs.Prelude.{◌≡◌, OnOk};
ghost use Rattle.std.specs.Str.Lossy.{utf8_lossy};
ghost use Rattle.serde_json.specs.Data.{number as numeral, put as with_member, string, unsigned};
ghost use Rattle.serde_json.specs.Find.{of_integer};
ghost use Rattle.serde_json.specs.View.{members_view};
ghost use Rattle.cc_json.specs.internal.Line.{IsLineOf};

use serde_json::{Map, Value, put};
use std::alloc::{AllocError, Global};
use std::io::{self, Write};

/// The version of what is written. It changes if the meaning of a member changes, but not if a member is added.
const VERSION: u32 = 1;

/// An object that is made member by member.
#[derive(Drop)]
pub(crate) struct Object {
    alloc: Global,
    members: Map<String, Value>,
}

impl Object {
    /// An object without members.
    pub(crate) fn empty(alloc: Global) -> Object {
        Object {
            alloc,
            members: Map::new(alloc),
        }
    }

    /// An object of this kind, with the version.
    pub(crate) fn new(alloc: Global, kind: &str) -> Result<Object, AllocError> {
        let mut object = Object::empty(alloc);
        put(&mut object.members, alloc, "cclib", Value::from(VERSION))?;
        object.words("kind", kind)?;
        Ok(object)
    }

    /// Adds a whole number.
    pub(crate) fn number(&mut self, name: &str, given: i64) -> Result<(), AllocError>
        ensures { OnOk result (members_view self.new.members.entries ≡ with_member name.now (numeral (of_integer given)) (members_view self.old.members.entries)) }
    {
        put(&mut self.members, self.alloc, name, Value::from(given))
    }

    /// Adds a count.
    pub(crate) fn count(&mut self, name: &str, given: u64) -> Result<(), AllocError>
        ensures { OnOk result (members_view self.new.members.entries ≡ with_member name.now (numeral (unsigned given)) (members_view self.old.members.entries)) }
    {
        put(&mut self.members, self.alloc, name, Value::from(given))
    }

    /// Adds words.
    pub(crate) fn words(&mut self, name: &str, given: &str) -> Result<(), AllocError>
        ensures { OnOk result (members_view self.new.members.entries ≡ with_member name.now (string given.now) (members_view self.old.members.entries)) }
    {
        let value = Value::try_from_str(self.alloc, given)?;
        put(&mut self.members, self.alloc, name, value)
    }

    /// Adds bytes as a text: what is not UTF-8 becomes U+FFFD.
    pub(crate) fn bytes(&mut self, name: &str, given: &[u8]) -> Result<(), AllocError>
        ensures { OnOk result (members_view self.new.members.entries ≡ with_member name.now (string (utf8_lossy given.now)) (members_view self.old.members.entries)) }
    {
        let text = String::from_utf8_lossy(self.alloc, given)?;
        self.words(name, text.as_str())
    }

    /// Adds a member that is true.
    pub(crate) fn truth(&mut self, name: &str) -> Result<(), AllocError> {
        put(&mut self.members, self.alloc, name, Value::from(true))
    }

    /// Adds a list.
    pub(crate) fn list(&mut self, name: &str, given: Vec<Value>) -> Result<(), AllocError> {
        put(&mut self.members, self.alloc, name, Value::from(given))
    }

    pub(crate) fn into_value(self) -> Value {
        let Object { alloc: _, members } = self;
        Value::from(members)
    }
}

/// Writes a value on a line of its own.
#[tactic(auto, using(crate::proofs::Writing::line_of))]
pub(crate) fn write_value<W: Write>(alloc: Global, value: &Value, writer: &mut W) -> io::Result<()>
    ensures { OnOk result (IsLineOf value.now (W.contents writer.old) (W.contents writer.new)) }
{
    let text = value.to_string(alloc)?;
    writer.write_all(text.as_bytes())?;
    writer.write_all(b"\n")
}

/// Writes an object on a line of its own.
pub(crate) fn write_object<W: Write>(
    alloc: Global,
    object: Object,
    writer: &mut W,
) -> io::Result<()> {
    let value = object.into_value();
    let written = write_value(alloc, &value, writer);
    drop(value);
    written
}
