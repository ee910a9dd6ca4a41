// The caller, as the book knows it.

ghost use Rattle.std.specs.Prelude.{◌≡◌, ◌+◌, [], length};
ghost use Rattle.cc_history.specs.History.{IsOwn};

use crate::named::Based;
use cc_history::Receipt;
use std::alloc::Global;
use std::marker::Model;
use std::sync::ledger::Share;

/// A value that has a number and the receipts of its calls: a member, or a type that contains one.
pub trait HasReceipts {
    ghost use Rattle.cc_history.specs.History.{MemberView};

    /// Its number and its receipts.
    ghost member: { Self → MemberView };

    /// The number.
    fn number(&self) -> u64
        ensures { result ≡ (member self.now).number };

    /// The receipts of its own calls so far, in order. The call needs no memory.
    fn receipts(&self) -> &[Receipt]
        ensures answer { result.now ≡ (member self.now).receipts }
        ensures own { IsOwn (member self.now) };
}

/// What the book knows about a client: its number, the receipts of its calls, and its share of the ledger, which counts them. Contracts see
/// its number and its receipts.
pub struct Member<N: Based> {
    pub(crate) number: u64,
    pub(crate) receipts: Vec<Receipt>,
    pub(crate) share: Share<N>,
}

// Written by hand, so that the crates above call it instead of proving again how each part is dropped.
impl<N: Based> Drop for Member<N> {
    fn drop(self) {
        let Member {
            number: _,
            receipts,
            share,
        } = self;
    }
}

impl<N: Based> Model for Member<N> {
    ghost use Rattle.cc_history.specs.History.{MemberView};
    ghost use Rattle.cc_recorded.specs.Member.{IsMember};

    ghost Value = { MemberView };

    ghost view = { λ c. record { number = c.number; receipts = c.receipts.items } };

    ghost invariant = { λ c. IsMember (record { number = c.number; receipts = c.receipts.items }) c.share.parts c.share.amount };
}

impl<N: Based> Member<N> {
    /// A member that has made no call, with one part of the ledger.
    pub fn new(alloc: Global, number: u64, share: Share<N>) -> Member<N>
        requires part { share.parts ≡ 1 }
        requires none { share.amount ≡ 0 }
        ensures { result ≡ record { number = number; receipts = [] } }
    {
        Member {
            number,
            receipts: Vec::new(alloc),
            share,
        }
    }

    /// Adds the member's share to the rest of the ledger, and returns the member's receipts.
    pub fn leave(self, rest: &mut Share<N>) -> Vec<Receipt>
        ensures receipts { result.items ≡ self.receipts }
        ensures parts { rest.new.parts ≡ rest.old.parts + 1 }
        ensures amount { rest.new.amount ≡ rest.old.amount + length self.receipts }
        ensures own { IsOwn self }
    {
        let Member {
            number: _,
            receipts,
            share,
        } = self;
        rest.merge(share);
        receipts
    }
}

impl<N: Based> HasReceipts for Member<N> {
    ghost member = { λ m. m };

    fn number(&self) -> u64 {
        self.number
    }

    fn receipts(&self) -> &[Receipt] {
        self.receipts.as_slice()
    }
}
