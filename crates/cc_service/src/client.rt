// The caller.

ghost use Rattle.std.specs.Prelude.{◌≡◌, ◌-◌, [], drop, length, slice_get};
ghost use Rattle.std.specs.Option.{option_map};
ghost use Rattle.cc_history.specs.Held.{at_most_told, receipts_bytes};

use crate::named::Named;
use cc_history::{Receipt, held_by};
use cc_pool::Pass;
use cc_recorded::{HasReceipts, Member};
use std::alloc::Global;
use std::marker::Model;
use std::sync::ledger::Share;

/// The caller. It has the receipts of its calls, its share of the ledger counts them, and its pass hands its jobs to the workers.
/// Contracts see its number, its receipts, and what its pass has sent.
pub struct Client<N: Named> {
    pub(crate) member: Member<N>,
    pub(crate) pass: Pass<N>,
    // Whether its changes compact the library if that makes room for them.
    pub(crate) compacts: bool,
}

// This is written by hand, so that the crates above use this proof and need not show again how each part is dropped.
impl<N: Named> Drop for Client<N> {
    fn drop(self) {
        let Client {
            member,
            pass,
            compacts: _,
        } = self;
    }
}

impl<N: Named> Model for Client<N> {
    ghost use Rattle.cc_service.specs.Client.{ClientView};

    ghost Value = { ClientView };

    ghost view = { λ c. record { member = c.member; sent = c.pass.sent } };
}

impl<N: Named> Client<N> {
    /// A client that has made no call, with one part of the ledger.
    pub fn new(alloc: Global, number: u64, share: Share<N>, pass: Pass<N>) -> Client<N>
        requires part { share.parts ≡ 1 }
        requires none { share.amount ≡ 0 }
        ensures member { result.member ≡ record { number = number; receipts = [] } }
        ensures sent { result.sent ≡ pass.sent }
    {
        Client::of(Member::new(alloc, number, share), pass)
    }

    // The client of a member and a pass, whose changes do not compact.
    pub(crate) fn of(member: Member<N>, pass: Pass<N>) -> Client<N>
        ensures { result ≡ record { member = member; sent = pass.sent } }
    {
        Client {
            member,
            pass,
            compacts: false,
        }
    }

    /// The same client, except that its changes compact the library first if they would be refused with 34 now but not after a
    /// compaction, as `Book::commit_compacting` does.
    pub fn compacting(self) -> Client<N>
        ensures { result ≡ self }
    {
        let Client {
            member,
            pass,
            compacts: _,
        } = self;
        Client {
            member,
            pass,
            compacts: true,
        }
    }

    // Its member and its pass.
    pub(crate) fn into_parts(self) -> (Member<N>, Pass<N>)
        ensures member { result.0 ≡ self.member }
        ensures sent { result.1.sent ≡ self.sent }
    {
        let Client {
            member,
            pass,
            compacts: _,
        } = self;
        (member, pass)
    }

    /// Its number.
    pub fn number(&self) -> u64
        ensures { result ≡ self.now.member.number }
    {
        self.member.number()
    }

    /// The receipts so far. The call needs no memory.
    pub fn receipts(&self) -> &[Receipt]
        ensures { result.now ≡ self.now.member.receipts }
    {
        self.member.receipts()
    }

    /// The last receipt. The call needs no memory.
    pub fn last(&self) -> Option<&Receipt>
        ensures { option_map (λ r. r.now) result ≡ slice_get self.now.member.receipts (length self.now.member.receipts - 1) }
    {
        self.receipts().last()
    }

    /// How many bytes the entries of its receipts after the first `seen` hold, as `held_by` counts. If the caller has seen `seen`
    /// receipts, these are the bytes of the new ones.
    pub fn held_since(&self, seen: usize) -> u64
        ensures { result ≡ at_most_told (receipts_bytes (drop seen self.now.member.receipts)) }
    {
        let receipts = self.receipts();
        if receipts.len() <= seen {
            return 0;
        }
        held_by(&receipts[seen..])
    }
}

impl<N: Named> HasReceipts for Client<N> {
    ghost member = { λ c. c.member };

    fn number(&self) -> u64 {
        self.member.number()
    }

    fn receipts(&self) -> &[Receipt] {
        self.member.receipts()
    }
}
