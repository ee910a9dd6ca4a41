// Whether a library with its history can be ended with these clients.

ghost use Rattle.std.specs.Prelude.{◌≡◌, ℕ, ◌↔◌, false, IsTrue, IfErr, OnErr, OnOk, length, map};
ghost use Rattle.cc_history.specs.Closing.{AreApart, AreOwn, IsClosed, IsNotWhole, ReceiptsStand, SomeoneAstray, receipts_of};
ghost use Rattle.cc_recorded.specs.Answers.{IsNotClosed};
ghost use Rattle.cc_recorded.specs.internal.Apart.{HaveOwnNumbers};

use crate::fault::BookFault;
use crate::member::HasReceipts;
use crate::named::Based;
use crate::recorded::RecordedLibrary;
use cc_disk::Disk;
use cc_history::{SharedEntry, all_stand, receipts_count_up};

// Whether all clients have different numbers.
fn are_apart<C: HasReceipts>(clients: &[C]) -> bool
    ensures { IsTrue result ↔ HaveOwnNumbers C.member clients.now }
{
    for i in 0..clients.len() {
        for j in 0..i {
            if clients[i].number() == clients[j].number() {
                return false;
            }
        }
    }
    true
}

// Ok if all receipts of all these clients match the history; else the refusal of `all_stand`.
fn stand_in<C: HasReceipts>(history: &[SharedEntry], clients: &[C]) -> Result<(), BookFault>
    ensures stand { OnOk result (ReceiptsStand history.now (map C.member clients.now)) }
    ensures err { IfErr result (λ f. (made : ℕ) → IsNotClosed history.now made (map C.member clients.now) f) }
    ensures astray { OnErr result (SomeoneAstray history.now (map C.member clients.now)) }
{
    for client in clients {
        match all_stand(history, client.receipts()) {
            Ok(()) => {}
            Err(fault) => return Err(BookFault::from(fault)),
        }
    }
    Ok(())
}

// The number of receipts of all these clients.
fn count_receipts<C: HasReceipts>(clients: &[C]) -> u128
    ensures count { result ≡ receipts_of (map C.member clients.now) }
    // The receipts of each client are those of its own calls.
    ensures own { AreOwn (map C.member clients.now) }
{
    let mut count = 0;
    for client in clients {
        count += client.receipts().len() as u128;
    }
    count
}

impl<N: Based, D: Disk> RecordedLibrary<N, D> {
    // Ok if all receipts of all these clients match the history; else the refusal of `all_stand`.
    fn stands<C: HasReceipts>(&self, clients: &[C]) -> Result<(), BookFault>
        ensures stand { OnOk result (ReceiptsStand self.now.history (map C.member clients.now)) }
        ensures err { IfErr result (λ f. (made : ℕ) → IsNotClosed self.now.history made (map C.member clients.now) f) }
        ensures astray { OnErr result (SomeoneAstray self.now.history (map C.member clients.now)) }
    {
        stand_in(self.history.as_slice(), clients)
    }

    // The number of entries in the history.
    fn entries(&self) -> u64
        ensures { result ≡ length self.now.history }
    {
        self.history.len() as u64
    }

    // Ok if the library can be ended with these clients: they are all of the `made` clients, and their receipts match.
    pub(crate) fn ready<C: HasReceipts>(&self, made: u64, clients: &[C]) -> Result<(), BookFault>
        ensures many { OnOk result (length clients.now ≡ made) }
        ensures apart { OnOk result (AreApart (map C.member clients.now)) }
        ensures stand { OnOk result (ReceiptsStand self.now.history (map C.member clients.now)) }
        ensures err { IfErr result (λ f. IsNotClosed self.now.history made (map C.member clients.now) f) }
    {
        match self.stands(clients) {
            Ok(()) => {}
            Err(fault) => return Err(fault),
        }
        if clients.len() as u64 != made || !are_apart(clients) {
            return Err(BookFault::Estranged {
                number: self.entries(),
                found: None,
            });
        }
        Ok(())
    }

    // Whether these are all clients of the history: all their receipts match, no two have the same number, and there are as many
    // receipts as entries.
    pub(crate) fn is_whole<C: HasReceipts>(&self, clients: &[C]) -> bool
        ensures own { AreOwn (map C.member clients.now) }
        ensures closed { IsTrue result → IsClosed self.now.history (map C.member clients.now) }
        ensures why { result ≡ false → IsNotWhole self.now.history (map C.member clients.now) }
    {
        receipts_count_up();
        let receipts = count_receipts(clients);
        match self.stands(clients) {
            Ok(()) => {}
            Err(fault) => {
                drop(fault);
                return false;
            }
        }
        if !are_apart(clients) {
            return false;
        }
        receipts == u128::from(self.entries())
    }
}
