// The queue's two ends, and its passes. Only the functions here call the channel.
//
// Whoever holds one end holds the other. A worker that waits on the queue keeps it open itself, so its receive ends with an item,
// never because all senders are gone.

ghost use Rattle.std.specs.Prelude.{◌≡◌, OnErr, OnOk, IfSome, IfNone};
ghost use Rattle.cc_pool.specs.declared.rule.Role.TheVariants.{Owner, Out};
ghost use Rattle.cc_pool.specs.Rule.{sends_one, takes_one, splits_one, joins_one, new_hand, first_hand, is_live};
ghost use Rattle.cc_pool.specs.internal.AllTaken.{AllTaken};

use crate::item::Item;
use crate::named::Queued;
use crate::rule::{Back, Cut, Hand, Law, Sends, Takes};
use crossbeam_channel::{RuledReceiver, RuledSender, bounded_with};
use std::alloc::{AllocError, Global};
use std::marker::{Model, PhantomData};
use std::sync::Wait;

type Place = crossbeam_channel::Pass<Item, Hand>;

/// The largest number of items that the queue holds.
pub const PLACES: usize = 64;

// The ends of a queue that no type names.
#[derive(Drop)]
struct Queue {
    sender: RuledSender<Item, Hand, Law>,
    receiver: RuledReceiver<Item, Hand, Law>,
}

/// An empty queue for one pool, which no type names yet. Contracts see its name.
pub struct FreshQueue {
    queue: Queue,
    pass: Place,
}

// Written by hand, so that crates that use this one rely on this proof and need not prove again how each part is dropped.
impl Drop for FreshQueue {
    fn drop(self) {
        let FreshQueue { queue, pass } = self;
    }
}

impl Model for FreshQueue {
    ghost use Rattle.std.specs.Prelude.{◌≡◌};
    ghost use Rattle.crossbeam_channel.specs.Ends.{sends_on, receives_on};
    ghost use Rattle.cc_pool.specs.Queue.{QueueName, name_of, IsSeatOf, known};
    ghost use Rattle.cc_pool.specs.Rule.{first_hand};

    ghost Value = { QueueName };

    ghost view = { λ f. name_of (sends_on f.queue.sender) };

    ghost invariant = { λ f. (receives_on f.queue.receiver ≡ sends_on f.queue.sender) × IsSeatOf (name_of (sends_on f.queue.sender)) f.pass × (known f.pass ≡ first_hand) };
}

/// A pass of the queue. Contracts see what it knows.
#[derive(Drop)]
pub struct Seat<N: Queued> {
    pass: Place,
    of: PhantomData<N>,
}

impl<N: Queued> Model for Seat<N> {
    ghost use Rattle.cc_pool.specs.declared.rule.Hand.{Hand};
    ghost use Rattle.cc_pool.specs.Queue.{IsSeatOf, known};

    ghost Value = { Hand };

    ghost view = { λ s. known s.pass };

    ghost invariant = { λ s. IsSeatOf N.queue s.pass };
}

/// The end where items go in, and the end where they come out.
#[derive(Drop)]
pub struct Ends<N: Queued> {
    queue: Queue,
    of: PhantomData<N>,
}

impl<N: Queued> Model for Ends<N> {
    ghost use Rattle.std.specs.Prelude.{◌≡◌, ⊤};
    ghost use Rattle.crossbeam_channel.specs.Ends.{sends_on, receives_on};
    ghost use Rattle.cc_pool.specs.Queue.{name_of};

    ghost Value = { ⊤ };

    ghost view = { λ _. tt };

    ghost invariant = { λ e. (name_of (sends_on e.queue.sender) ≡ N.queue) × (name_of (receives_on e.queue.receiver) ≡ N.queue) };
}

impl FreshQueue {
    /// An empty queue. Err: memory ran out.
    pub fn new(alloc: Global) -> Result<FreshQueue, AllocError> {
        let (sender, receiver, pass) = bounded_with::<Item, Hand, Law, Global>(alloc, PLACES)?;
        Ok(FreshQueue {
            queue: Queue { sender, receiver },
            pass,
        })
    }

    // The two ends and the pool's own pass of a queue that a type names.
    pub(crate) fn open<N: Queued>(self) -> (Ends<N>, Seat<N>)
        requires { self ≡ N.queue }
        ensures { result.1 ≡ first_hand }
    {
        let FreshQueue { queue, pass } = self;
        let ends = Ends {
            queue,
            of: PhantomData,
        };
        let seat = Seat {
            pass,
            of: PhantomData,
        };
        (ends, seat)
    }
}

impl<N: Queued> Ends<N> {
    pub(crate) fn try_clone(&self) -> Result<Ends<N>, AllocError> {
        let sender = self.queue.sender.try_clone()?;
        let receiver = self.queue.receiver.try_clone()?;
        Ok(Ends {
            queue: Queue { sender, receiver },
            of: PhantomData,
        })
    }

    // Adds an item at the end of the queue. Waits while the queue is full, and fails only if all receivers are gone.
    pub(crate) fn send<R: Wait>(&self, rt: &R, seat: &mut Seat<N>, item: Item) -> Result<(), Item>
        requires { is_live seat.old.role ≡ 1 }
        ensures ok { OnOk result (seat.new ≡ sends_one seat.old item) }
        ensures err { OnErr result (seat.new ≡ seat.old) }
    {
        match self
            .queue
            .sender
            .send_as::<Sends, R>(rt, &mut seat.pass, item)
        {
            Ok(()) => Ok(()),
            Err(refused) => Err(refused.into_inner()),
        }
    }

    // Takes the first item. Waits while there is none, and answers `None` only if all senders are gone.
    pub(crate) fn take<R: Wait>(&self, rt: &R, seat: &mut Seat<N>) -> Option<Item>
        requires { is_live seat.old.role ≡ 1 }
        ensures some { IfSome result (λ item. seat.new ≡ takes_one seat.old item) }
        ensures none { IfNone result (seat.new ≡ seat.old) }
    {
        self.queue
            .receiver
            .recv_as::<Takes, R>(rt, &mut seat.pass)
            .ok()
    }

    // Takes the first item, if there is one. If there is none, and the pool's own pass is the only one left, all that was sent
    // has been taken.
    pub(crate) fn try_take<R: Wait>(&self, rt: &R, seat: &mut Seat<N>) -> Option<Item>
        requires { is_live seat.old.role ≡ 1 }
        ensures some { IfSome result (λ item. seat.new ≡ takes_one seat.old item) }
        ensures none { IfNone result ((seat.new ≡ seat.old) × AllTaken seat.old) }
    {
        match self
            .queue
            .receiver
            .try_recv_as::<Takes, R>(rt, &mut seat.pass)
        {
            Ok(item) => Some(item),
            Err(_) => None,
        }
    }

    // Splits one more pass off the pool's own.
    pub(crate) fn split(&self, own: &mut Seat<N>) -> Seat<N>
        requires { own.old.role ≡ Owner }
        ensures own { own.new ≡ splits_one own.old }
        ensures answer { result ≡ new_hand }
    {
        Seat {
            pass: self.queue.sender.another::<Cut>(&mut own.pass),
            of: PhantomData,
        }
    }

    // Joins a pass into the pool's own.
    pub(crate) fn join(&self, own: &mut Seat<N>, other: Seat<N>)
        requires own { own.old.role ≡ Owner }
        requires other { other.role ≡ Out }
        ensures { own.new ≡ joins_one own.old other }
    {
        let Seat { pass, of: _ } = other;
        self.queue.sender.absorb::<Back>(&mut own.pass, pass);
    }
}
