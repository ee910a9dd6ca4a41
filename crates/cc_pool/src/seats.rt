// Who holds a pass of the queue.

ghost use Rattle.std.specs.Prelude.{◌≡◌, ◌+◌, [], ◌++◌, ◌∷◌, OnOk, OnErr, IfSome};
ghost use Rattle.cc_pool.specs.declared.item.Item.TheVariants.{Piece};
ghost use Rattle.cc_pool.specs.declared.rule.Role.TheVariants.{Owner, Out};
ghost use Rattle.cc_pool.specs.Rule.{first_hand, new_hand};

use crate::ends::{Ends, Seat};
use crate::item::{Item, Order};
use crate::named::Queued;
use std::marker::Model;
use std::sync::Wait;

/// A pass for a caller that hands in jobs. Contracts see what it has sent and taken.
pub struct Pass<N: Queued> {
    seat: Seat<N>,
}

// Written by hand, so that crates that use this one rely on this proof and need not prove again how each part is dropped.
impl<N: Queued> Drop for Pass<N> {
    fn drop(self) {
        let Pass { seat } = self;
    }
}

impl<N: Queued> Model for Pass<N> {
    ghost use Rattle.std.specs.Prelude.{◌≡◌, []};
    ghost use Rattle.cc_pool.specs.declared.rule.Role.TheVariants.{Out};
    ghost use Rattle.cc_pool.specs.Shared.{Lists};

    ghost Value = { Lists };

    ghost view = { λ p. record { sent = p.seat.sent; taken = p.seat.taken } };

    ghost invariant = { λ p. (p.seat.role ≡ Out) × (p.seat.taken ≡ []) };
}

/// A worker's pass.
#[derive(Drop)]
pub(crate) struct Taker<N: Queued> {
    seat: Seat<N>,
}

impl<N: Queued> Model for Taker<N> {
    ghost use Rattle.std.specs.Prelude.{◌≡◌, []};
    ghost use Rattle.cc_pool.specs.declared.rule.Role.TheVariants.{Out};
    ghost use Rattle.cc_pool.specs.Shared.{Lists};

    ghost Value = { Lists };

    ghost view = { λ p. record { sent = p.seat.sent; taken = p.seat.taken } };

    ghost invariant = { λ p. (p.seat.role ≡ Out) × (p.seat.sent ≡ []) };
}

/// The pool's own pass, and how many passes are out, if they can be counted. Until the pool ends, this pass has sent and taken
/// nothing.
#[derive(Drop)]
pub(crate) struct Own<N: Queued> {
    seat: Seat<N>,
    out: Option<u64>,
}

impl<N: Queued> Model for Own<N> {
    ghost use Rattle.std.specs.Prelude.{◌≡◌, [], ⊤, IfSome};
    ghost use Rattle.cc_pool.specs.declared.rule.Role.TheVariants.{Owner};

    ghost Value = { ⊤ };

    ghost view = { λ o. tt };

    ghost invariant = { λ o. (o.seat.role ≡ Owner) × (o.seat.joins ≡ 0) × (o.seat.sent ≡ []) × (o.seat.taken ≡ []) × IfSome o.out (λ n. o.seat.splits ≡ n) };
}

/// What is left of a pool: its own pass, into which all others were joined. Contracts see all that was sent and taken.
pub struct Drained<N: Queued> {
    seat: Seat<N>,
}

// Written by hand, so that crates that use this one rely on this proof and need not prove again how each part is dropped.
impl<N: Queued> Drop for Drained<N> {
    fn drop(self) {
        let Drained { seat } = self;
    }
}

impl<N: Queued> Model for Drained<N> {
    ghost use Rattle.std.specs.Prelude.{◌≡◌};
    ghost use Rattle.cc_pool.specs.declared.rule.Role.TheVariants.{Owner};
    ghost use Rattle.cc_pool.specs.Shared.{Lists};

    ghost Value = { Lists };

    ghost view = { λ p. record { sent = p.seat.sent; taken = p.seat.taken } };

    ghost invariant = { λ p. (p.seat.role ≡ Owner) × (p.seat.splits ≡ p.seat.joins) };
}

impl<N: Queued> Pass<N> {
    // Sends an order, which is added to what the pass has sent.
    pub(crate) fn send<R: Wait>(&mut self, rt: &R, ends: &Ends<N>, order: Order) -> Result<(), Item>
        ensures ok { OnOk result (self.new.sent ≡ self.old.sent ++ Piece order ∷ []) }
        ensures err { OnErr result (self.new.sent ≡ self.old.sent) }
        ensures taken { self.new.taken ≡ self.old.taken }
    {
        ends.send(rt, &mut self.seat, Item::Piece(order))
    }

    pub(crate) fn into_seat(self) -> Seat<N>
        ensures role { result.role ≡ Out }
        ensures sent { result.sent ≡ self.sent }
        ensures taken { result.taken ≡ [] }
    {
        let Pass { seat } = self;
        seat
    }
}

impl<N: Queued> Taker<N> {
    // Takes the next item from the queue.
    pub(crate) fn take<R: Wait>(&mut self, rt: &R, ends: &Ends<N>) -> Option<Item> {
        ends.take(rt, &mut self.seat)
    }

    pub(crate) fn into_seat(self) -> Seat<N>
        ensures role { result.role ≡ Out }
        ensures sent { result.sent ≡ [] }
    {
        let Taker { seat } = self;
        seat
    }
}

impl<N: Queued> Own<N> {
    pub(crate) fn new(seat: Seat<N>) -> Own<N>
        requires { seat ≡ first_hand }
    {
        Own { seat, out: Some(0) }
    }

    /// A new pass, which has sent and taken nothing.
    pub(crate) fn pass(&mut self, ends: &Ends<N>) -> Pass<N>
        ensures sent { result.sent ≡ [] }
        ensures taken { result.taken ≡ [] }
    {
        Pass {
            seat: self.split(ends),
        }
    }

    pub(crate) fn taker(&mut self, ends: &Ends<N>) -> Taker<N>
        ensures sent { result.sent ≡ [] }
        ensures taken { result.taken ≡ [] }
    {
        Taker {
            seat: self.split(ends),
        }
    }

    fn split(&mut self, ends: &Ends<N>) -> Seat<N>
        ensures { result ≡ new_hand }
    {
        self.out = match self.out {
            Some(out) => out.checked_add(1),
            None => None,
        };
        ends.split(&mut self.seat)
    }

    // The pool's own pass, and how many passes are out.
    pub(crate) fn into_seat(self) -> (Seat<N>, Option<u64>)
        ensures role { result.0.role ≡ Owner }
        ensures joins { result.0.joins ≡ 0 }
        ensures sent { result.0.sent ≡ [] }
        ensures splits { IfSome result.1 (λ n. result.0.splits ≡ n) }
    {
        let Own { seat, out } = self;
        (seat, out)
    }
}

impl<N: Queued> Drained<N> {
    pub(crate) fn new(seat: Seat<N>) -> Drained<N>
        requires role { seat.role ≡ Owner }
        requires alone { seat.splits ≡ seat.joins }
        ensures sent { result.sent ≡ seat.sent }
        ensures taken { result.taken ≡ seat.taken }
    {
        Drained { seat }
    }
}
