// What a client asks a book to do.

ghost use Rattle.std.specs.Prelude.{◌≡◌, ◌⊎◌, ◌++◌, ◌∷◌, [], List, IfErr, IfOk};
ghost use Rattle.cc_history.specs.declared.reply.Reply.TheVariants as reply;
ghost use Rattle.cc_recorded.specs.Answers.{IsLook, LookAnswers};
ghost use Rattle.cc_recorded.specs.Book.{BookView};
ghost use Rattle.cc_recorded.specs.Changed.{AllRecover, ChangesAtOnce, IsBookChanged};
ghost use Rattle.cc_recorded.specs.Compacting.{IsCompactedFor};
ghost use Rattle.cc_service.specs.Serving.{IsEntered, IsTurnedDown};
ghost use Rattle.cc_service.specs.Updating.{UpdatesBook};
ghost use Rattle.cc_service.specs.internal.Under.{HasCompared, UpdatesSeen};
ghost use Rattle.cc_library.specs.declared.command.Change.TheVariants.{Replace};

use crate::client::Client;
use crate::fault::ServiceFault;
use crate::named::Named;
use cc_disk::Disk;
use cc_history::{Asked, Command, Receipt, Reply};
use cc_library::Name;
use cc_link::CompiledUnit;
use cc_recorded::{Book, BookFault};
use std::alloc::Global;

// What a look-up of a name found.
#[derive(Clone, Copy, Drop)]
pub(crate) enum Compared {
    // No unit.
    NoUnit,
    // A unit with a source other than the expected one.
    Other,
    // A unit with the expected source.
    Same,
}

// Whether the reply of a look-up has a unit, and whether its source is the expected one.
fn comparison_of(seen: &Receipt, expected: &[u8]) -> Compared
    ensures { HasCompared seen.now.entry.reply expected.now result }
{
    match &seen.entry.entry().reply {
        Reply::Unit(unit) => if unit.stored().source.bytes() == expected {
            Compared::Same
        } else {
            Compared::Other
        },
        Reply::Done | Reply::Exists | Reply::Absent | Reply::Names(_) => Compared::NoUnit,
    }
}

impl<N: Named> Client<N> {
    /// Makes a change of the book: with `commit_compacting` if the client's changes compact, else with `commit`. The contracts of these
    /// two calls say how the book changes.
    #[tactic(auto, using(crate::proofs::Answering::entered_where_ok, crate::proofs::Answering::turned_down_where_err, crate::proofs::Mending::compacting_entered, crate::proofs::Mending::compacting_turned_down))]
    pub fn change<D: Disk>(
        &mut self,
        alloc: Global,
        book: &mut Book<N, D>,
        command: Command,
    ) -> Result<Receipt, BookFault>
        ensures answers { IsBookChanged D.Disk book.old.book self.old.member command book.new.book self.new.member result
            ⊎ IsCompactedFor D.Disk book.old.book self.old.member command book.new.book self.new.member result }
        ensures since { (book.new ≡ book.old) ⊎ ((between : List (BookView D)) × (book.new.since ≡ book.old.since ++ (between ++ book.new.book ∷ []))) }
        ensures moments { ChangesAtOnce D.Disk command book.old.book book.new.book }
        ensures kept { AllRecover D.Disk book.new.book }
        ensures ok { IfOk result (λ receipt. IsEntered (λ c. c ≡ command) self.old.member reply.Done self.new.member receipt) }
        ensures err { IfErr result (λ fault. IsTurnedDown (λ c. c ≡ command) self.old.member self.new.member fault) }
        ensures sent { self.new.sent ≡ self.old.sent }
    {
        let Client {
            member,
            compacts,
            ..
        } = self;
        if *compacts {
            return book.commit_compacting(alloc, member, command);
        }
        book.commit(alloc, member, command)
    }

    /// Looks up a name or all names of the book.
    pub fn look<D: Disk>(
        &mut self,
        alloc: Global,
        book: &mut Book<N, D>,
        asked: Asked,
    ) -> Result<Receipt, BookFault>
        requires { IsLook asked }
        ensures answers { LookAnswers book.old.book self.old.member asked book.new.book self.new.member result }
        ensures since { book.new.since ≡ book.old.since ++ book.new.book ∷ [] }
        ensures sent { self.new.sent ≡ self.old.sent }
    {
        book.look(alloc, &mut self.member, asked)
    }

    /// Replaces the unit under a name if its source is the expected one: this is `look` and then `change`, with no other call in between.
    ///
    /// Refusals, in this order: 36, 39, 32, 60 if the name's unit has another source, 34, 35. 40 if memory ran out. After 32, 60, 34, 35
    /// and a 40 of the change, the look-up has an entry, and its receipt is the client's last.
    pub fn update<D: Disk>(
        &mut self,
        alloc: Global,
        book: &mut Book<N, D>,
        name: Name,
        expected: &[u8],
        unit: CompiledUnit,
    ) -> Result<Receipt, ServiceFault>
        ensures answers { UpdatesBook D.Disk book.old.book self.old.member name expected.now (Replace name unit) book.new.book self.new.member result }
        ensures since { (book.new ≡ book.old) ⊎ ((between : List (BookView D)) × (book.new.since ≡ book.old.since ++ (between ++ book.new.book ∷ []))) }
        ensures moments { ChangesAtOnce D.Disk (Replace name unit) book.old.book book.new.book }
        ensures kept { AllRecover D.Disk book.new.book }
        ensures sent { self.new.sent ≡ self.old.sent }
    {
        book.kept();
        if book.is_closed() {
            return Err(ServiceFault::Book(BookFault::Closed));
        }
        let Ok(asked) = name.clone() else {
            return Err(ServiceFault::Book(BookFault::OutOfMemory));
        };
        match self.look(alloc, book, Asked::Fetch(asked)) {
            Ok(seen) => self.update_seen(alloc, book, name, expected, unit, seen),
            Err(fault) => Err(ServiceFault::Book(fault)),
        }
    }

    // Does what remains after the look-up.
    pub(crate) fn update_seen<D: Disk>(
        &mut self,
        alloc: Global,
        book: &mut Book<N, D>,
        name: Name,
        expected: &[u8],
        unit: CompiledUnit,
        seen: Receipt,
    ) -> Result<Receipt, ServiceFault>
        ensures answers { UpdatesSeen D.Disk book.old.book self.old.member expected.now (Replace name unit) seen book.new.book self.new.member result }
        ensures since { (book.new ≡ book.old) ⊎ ((between : List (BookView D)) × (book.new.since ≡ book.old.since ++ (between ++ book.new.book ∷ []))) }
        ensures moments { ChangesAtOnce D.Disk (Replace name unit) book.old.book book.new.book }
        ensures kept { AllRecover D.Disk book.new.book }
        ensures sent { self.new.sent ≡ self.old.sent }
    {
        book.kept();
        match comparison_of(&seen, expected) {
            Compared::NoUnit => Err(ServiceFault::Book(BookFault::Absent(seen))),
            Compared::Other => Err(ServiceFault::Changed(seen)),
            Compared::Same => {
                drop(seen);
                match self.change(alloc, book, Command::Replace(name, unit)) {
                    Ok(receipt) => Ok(receipt),
                    Err(fault) => Err(ServiceFault::Book(fault)),
                }
            }
        }
    }
}
