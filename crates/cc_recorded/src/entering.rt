// Puts an entry into the history and gives its receipt to its client, after the memory for both has been allocated.

ghost use Rattle.std.specs.Prelude.{◌≡◌, ◌+◌, ◌<◌, ◌++◌, [], ◌∷◌, length, vec_len, OnOk, IfOk};
ghost use Rattle.std.specs.Vec.{vec_capacity};

use crate::named::Based;
use cc_history::{Entry, Receipt, SharedEntry};
use std::alloc::{AllocError, Global};
use std::sync::ledger;

// The three owners of an entry: the history, its client, and the caller.
#[derive(Drop)]
pub(crate) struct Owners {
    pub(crate) history: SharedEntry,
    pub(crate) client: SharedEntry,
    pub(crate) caller: SharedEntry,
}

// Allocates the memory for an entry and its receipt.
pub(crate) fn prepare(
    alloc: Global,
    history: &mut Vec<SharedEntry>,
    receipts: &mut Vec<Receipt>,
    entry: Entry,
) -> Result<Owners, AllocError>
    ensures history { history.new.items ≡ history.old.items }
    ensures receipts { receipts.new.items ≡ receipts.old.items }
    ensures history_room { OnOk result (vec_len history.new < vec_capacity history.new) }
    ensures receipts_room { OnOk result (vec_len receipts.new < vec_capacity receipts.new) }
    ensures owners { IfOk result (λ o. (o.history ≡ entry) × (o.client ≡ entry) × (o.caller ≡ entry)) }
{
    history.reserve(1)?;
    receipts.reserve(1)?;
    let one = SharedEntry::new(alloc, entry)?;
    let two = one.again()?;
    let three = one.again()?;
    Ok(Owners {
        history: one,
        client: two,
        caller: three,
    })
}

// Adds the entry to the end of the history, and the receipt to the end of the client's receipts; the client's share counts it.
pub(crate) fn enter<N: Based>(
    history: &mut Vec<SharedEntry>,
    calls: &mut ledger::Book<N>,
    receipts: &mut Vec<Receipt>,
    share: &mut ledger::Share<N>,
    owners: Owners,
) -> Receipt
    requires history_room { vec_len history.old < vec_capacity history.old }
    requires receipts_room { vec_len receipts.old < vec_capacity receipts.old }
    requires share { 0 < share.old.parts }
    requires one { (owners.client ≡ owners.history) × (owners.caller ≡ owners.history) }
    ensures receipt { result ≡ record { number = length history.old.items + 1; entry = owners.history } }
    ensures history { history.new.items ≡ history.old.items ++ owners.history ∷ [] }
    ensures receipts { receipts.new.items ≡ receipts.old.items ++ result ∷ [] }
    ensures total { calls.new.total ≡ calls.old.total + 1 }
    ensures amount { share.new.amount ≡ share.old.amount + 1 }
    ensures parts { share.new.parts ≡ share.old.parts }
{
    calls.add(share, 1);
    history.push_reserved(owners.history);
    let number = history.len() as u64;
    receipts.push_reserved(Receipt {
        number,
        entry: owners.client,
    });
    Receipt {
        number,
        entry: owners.caller,
    }
}
