// Makes a service's clients.

ghost use Rattle.std.specs.Prelude.{◌≡◌, ◌+◌, ◌≤◌, [], IfNone, IfSome};

use crate::named::{MOST_CLIENTS, Named};
use cc_recorded::Member;
use std::alloc::Global;
use std::marker::Model;
use std::sync::ledger::Share;

/// The number of clients that were made, and the parts of the ledger that no client has. Contracts see the number.
#[derive(Drop)]
pub(crate) struct Desk<N: Named> {
    pub(crate) made: u64,
    pub(crate) rest: Share<N>,
}

impl<N: Named> Model for Desk<N> {
    ghost use Rattle.std.specs.Prelude.{◌≡◌, ◌+◌, ℕ};

    ghost Value = { ℕ };

    ghost view = { λ d. d.made };

    ghost invariant = { λ d. (d.rest.parts + d.made ≡ N.parts) × (d.rest.amount ≡ 0) × (N.parts ≡ 1025) };
}

impl<N: Named> Desk<N> {
    pub(crate) fn new(rest: Share<N>) -> Desk<N>
        requires parts { rest.parts ≡ N.parts }
        requires amount { rest.amount ≡ 0 }
        requires many { N.parts ≡ 1025 }
        ensures { result ≡ 0 }
    {
        Desk { made: 0, rest }
    }

    /// One more client, if fewer than 1,024 were made.
    pub(crate) fn seat(&mut self, alloc: Global) -> Option<Member<N>>
        ensures some { IfSome result (λ c. (c ≡ record { number = self.old; receipts = [] }) × (self.new ≡ self.old + 1)) }
        ensures none { IfNone result ((self.new ≡ self.old) × (1024 ≤ self.old)) }
    {
        if self.made >= MOST_CLIENTS {
            return None;
        }
        let Desk { made, rest } = self;
        let share = rest.split_off(1, 0);
        let number = *made;
        *made += 1;
        Some(Member::new(alloc, number, share))
    }
}
