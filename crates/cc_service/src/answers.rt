// The answers of the service's look-ups: a receipt, whose entry has the reply.

ghost use Rattle.std.specs.Prelude.{◌≡◌, ◌↔◌, IsTrue};
ghost use Rattle.cc_history.specs.declared.reply.Reply.TheVariants as reply;
ghost use Rattle.cc_service.specs.Serving.{HasNames, HasUnit};

use cc_history::{NameList, Receipt, Reply};
use cc_library::SharedUnit;
use std::marker::Model;

/// The answer of `get`: its receipt, and the name's unit. Contracts see the receipt, whose entry has the unit.
pub struct Found {
    receipt: Receipt,
}

// Written by hand, so that the crates above call it instead of proving again how each part is dropped.
impl Drop for Found {
    fn drop(self) {
        let Found { receipt } = self;
    }
}

impl Model for Found {
    ghost use Rattle.cc_history.specs.declared.entry.Receipt.{Receipt};
    ghost use Rattle.cc_service.specs.Serving.{HasUnit};

    ghost Value = { Receipt };

    ghost view = { λ f. f.receipt };

    ghost invariant = { λ f. HasUnit f.receipt.entry };
}

impl Found {
    pub(crate) fn new(receipt: Receipt) -> Found
        requires { HasUnit receipt.entry }
        ensures { result ≡ receipt }
    {
        Found { receipt }
    }

    /// The receipt. The call needs no memory.
    pub fn receipt(&self) -> &Receipt
        ensures { result.now ≡ self.now }
    {
        &self.receipt
    }

    /// The unit. The call needs no memory.
    pub fn unit(&self) -> &SharedUnit
        ensures { self.now.entry.reply ≡ reply.Unit result.now }
    {
        match &self.receipt.entry.entry().reply {
            Reply::Unit(unit) => unit,
            _ => unreachable!(),
        }
    }
}

/// The answer of `list`: its receipt, and all names in the order of their bytes. Contracts see the receipt, whose entry has the names.
pub struct Listing {
    receipt: Receipt,
}

// Written by hand, so that the crates above call it instead of proving again how each part is dropped.
impl Drop for Listing {
    fn drop(self) {
        let Listing { receipt } = self;
    }
}

impl Model for Listing {
    ghost use Rattle.cc_history.specs.declared.entry.Receipt.{Receipt};
    ghost use Rattle.cc_service.specs.Serving.{HasNames};

    ghost Value = { Receipt };

    ghost view = { λ l. l.receipt };

    ghost invariant = { λ l. HasNames l.receipt.entry };
}

impl Listing {
    pub(crate) fn new(receipt: Receipt) -> Listing
        requires { HasNames receipt.entry }
        ensures { result ≡ receipt }
    {
        Listing { receipt }
    }

    /// The receipt. The call needs no memory.
    pub fn receipt(&self) -> &Receipt
        ensures { result.now ≡ self.now }
    {
        &self.receipt
    }

    /// The names. The call needs no memory.
    pub fn names(&self) -> &NameList
        ensures { self.now.entry.reply ≡ reply.Names result.now }
    {
        match &self.receipt.entry.entry().reply {
            Reply::Names(names) => names,
            _ => unreachable!(),
        }
    }
}

/// Whether the entry of a receipt has a unit.
pub(crate) fn has_unit(receipt: &Receipt) -> bool
    ensures { IsTrue result ↔ HasUnit receipt.now.entry }
{
    matches!(&receipt.entry.entry().reply, Reply::Unit(_))
}
