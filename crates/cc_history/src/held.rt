// How many bytes a history counts as, so that its owner can see when it is too long.
//
// An entry counts as 256 bytes, plus the unit that a change handed in or the names that answered a list. A unit that answered a `fetch`
// is shared with the library, or with the entry that put it there, and is not counted again.

ghost use Rattle.std.specs.Prelude.{◌≡◌, ◌+◌};
ghost use Rattle.cc_history.specs.Held.{asked_bytes, at_most_told, certificate_bytes, entry_bytes, receipts_bytes, reply_bytes, unit_bytes};

use crate::command::{Asked, Command};
use crate::entry::{Entry, Receipt};
use crate::reply::Reply;
use cc_link::{Certificate, StoredUnit};

// An entry counts as this many bytes, without its unit or its names.
const ENTRY_BYTES: u64 = 256;

// A name counts as this many bytes, which is what it occupies in memory.
const NAME_BYTES: u64 = 48;

fn certificate_held(certificate: &Option<Certificate>) -> u64
    ensures { result ≡ certificate_bytes certificate.now }
{
    match certificate {
        Some(certificate) => certificate.bytes().len() as u64,
        None => 0,
    }
}

fn unit_held(unit: &StoredUnit) -> u64
    ensures { result ≡ at_most_told (unit_bytes unit.now) }
{
    let source = unit.source.bytes().len() as u64;
    let code = unit.image.code.words().len() as u64;
    let globals = unit.image.globals.words().len() as u64;
    (source + 4 * code + 4 * globals).saturating_add(certificate_held(&unit.certificate))
}

fn asked_held(asked: &Asked) -> u64
    ensures { result ≡ at_most_told (asked_bytes asked.now) }
{
    match asked {
        Asked::Change(Command::Add(_, unit)) | Asked::Change(Command::Replace(_, unit)) => {
            unit_held(unit.stored())
        }
        Asked::Change(Command::Withdraw(_)) | Asked::Fetch(_) | Asked::Names => 0,
    }
}

fn reply_held(reply: &Reply) -> u64
    ensures { result ≡ at_most_told (reply_bytes reply.now) }
{
    match reply {
        Reply::Names(names) => NAME_BYTES.saturating_mul(names.as_slice().len() as u64),
        Reply::Done | Reply::Exists | Reply::Absent | Reply::Unit(_) => 0,
    }
}

impl Entry {
    /// How many bytes the entry counts as: 256; for a change that hands in a unit, whatever its answer, also the bytes of the unit's
    /// source and certificate, and 4 for each word of its code and of its globals; for a list also 48 for each name. `u64::MAX` if there
    /// are more.
    pub fn held(&self) -> u64
        ensures { result ≡ at_most_told (entry_bytes self.now) }
    {
        ENTRY_BYTES
            .saturating_add(asked_held(&self.asked))
            .saturating_add(reply_held(&self.reply))
    }
}

/// How many bytes the entries of these receipts count as together. `u64::MAX` if there are more.
pub fn held_by(receipts: &[Receipt]) -> u64
    ensures { result ≡ at_most_told (receipts_bytes receipts.now) }
{
    let mut held = 0u64;
    for receipt in receipts {
        held = held.saturating_add(receipt.entry.entry().held());
    }
    held
}
