// The body of one record.

ghost use Rattle.std.specs.Prelude.{◌≡◌, ◌^◌, ◌<◌, ◌++◌, List, ℕ, length, IfOk, OnOk};
ghost use Rattle.std.specs.Int.{w32, to_le_bytes};
ghost use Rattle.cc_journal.specs.Commit.{behind_gate};

use crate::commit::CLOSED;
use std::alloc::{AllocError, Global};
use std::marker::Model;

/// The bytes of one record. A clause reads it as a list.
pub struct Body {
    bytes: Vec<u8>,
    // Whether `bytes` also has what is around the body in a record: the body's length before it and a closed gate after it.
    is_framed: bool,
}

// Written by hand, so that crates that use this one can call it and need not prove again how each part is dropped.
impl Drop for Body {
    fn drop(self) {
        let Body { bytes, is_framed } = self;
    }
}

impl Model for Body {
    ghost use Rattle.std.specs.Prelude.{List, ℕ};
    ghost use Rattle.cc_journal.specs.internal.Framed.{IsFramed};
    ghost use Rattle.cc_journal.specs.Body.{body_in};

    ghost Value = { List ℕ };

    ghost view = { λ b. body_in b.is_framed b.bytes.items };

    ghost invariant = { λ b. IsFramed b.is_framed b.bytes.items };
}

impl Body {
    /// The body with these bytes. Takes no memory.
    pub fn new(bytes: Vec<u8>) -> Body
        ensures { result ≡ bytes.items }
    {
        let is_framed = false;
        Body { bytes, is_framed }
    }

    /// The body in these bytes, which are everything after the gate of its record: the body's length as four bytes, the lowest
    /// first, the body, and the next gate, 0. Such a body is appended without a copy. Takes no memory.
    pub fn from_framed(bytes: Vec<u8>) -> Body
        requires { (body : List ℕ) × (length body < 2 ^ 32) × (bytes.items ≡ behind_gate body) }
        ensures { (body : List ℕ) → bytes.items ≡ behind_gate body → result ≡ body }
    {
        let is_framed = true;
        Body { bytes, is_framed }
    }

    /// The body's bytes.
    pub fn as_slice(&self) -> &[u8]
        ensures { result.now ≡ self.now }
    {
        if self.is_framed {
            return &self.bytes[4..self.bytes.len() - 1];
        }
        &self.bytes
    }

    /// The body's bytes, in the `Vec` that the body was made from. Takes no memory.
    pub fn into_vec(self) -> Vec<u8>
        ensures { result.items ≡ self }
    {
        let Body {
            mut bytes,
            is_framed,
        } = self;
        if is_framed {
            let end = bytes.len() - 5;
            bytes.rotate_left(4);
            bytes.truncate(end);
        }
        bytes
    }

    // What comes after the gate of the body's record. This is a copy unless the body was made by `from_framed`.
    pub(crate) fn into_framed(self, alloc: Global) -> Result<Vec<u8>, AllocError>
        requires { length self < 2 ^ 32 }
        ensures { IfOk result (λ bytes. bytes.items ≡ behind_gate self) }
    {
        let Body { bytes, is_framed } = self;
        if is_framed {
            return Ok(bytes);
        }
        framed(alloc, &bytes)
    }
}

// What comes after the gate of the record with this body.
pub(crate) fn framed(alloc: Global, body: &[u8]) -> Result<Vec<u8>, AllocError>
    requires { length body.now < 2 ^ 32 }
    ensures { IfOk result (λ bytes. bytes.items ≡ behind_gate body.now) }
{
    let mut bytes = Vec::with_capacity(alloc, body.len() + 5)?;
    put_body(&mut bytes, body)?;
    bytes.push(CLOSED)?;
    Ok(bytes)
}

// Adds the length of a body, and then the body.
pub(crate) fn put_body(bytes: &mut Vec<u8>, body: &[u8]) -> Result<(), AllocError>
    requires { length body.now < 2 ^ 32 }
    ensures { OnOk result (bytes.new.items ≡ bytes.old.items ++ (to_le_bytes w32 (length body.now) ++ body.now)) }
{
    bytes.extend_from_slice(&(body.len() as u32).to_le_bytes())?;
    bytes.extend_from_slice(body)
}
