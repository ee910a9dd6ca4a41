// What a state holds: the library with its order and its disk, how far a commit or a rewrite has come, the jobs, and what workers
// have taken.

use crate::command::Numbered;
use crate::ids::ClientId;
use crate::job::{Job, Work};
use crate::sequence::Sequence;
use crate::sequence_number::SequenceNumber;
use crate::store::Store;
use crate::table::Table;
use cc_journal::Commit;
use cc_library::UnitMap;

/// What comes next in a commit: a device step, or the reply.
#[derive(Drop)]
pub enum Due {
    /// The write of the record's body and of a closed gate after it.
    WriteBody,
    /// The sync that settles the body and that closed gate.
    SyncBody,
    /// The write that opens the record's gate.
    WriteGate,
    /// The sync that settles the gate.
    SyncGate,
    /// The reply: the record is on the disk.
    Acknowledge,
}

/// What comes next in a rewrite after its first write: one of the other three device steps.
#[derive(Drop)]
pub enum RewriteDue {
    /// The sync that settles the new area.
    SyncAll,
    /// The write of the area byte.
    WriteArea,
    /// The sync that settles the area byte.
    SyncArea,
}

/// Whether a command is in commit or a rewrite is under way, and whether the disk is usable.
#[derive(Drop)]
pub enum Phase {
    /// No command is in commit, no rewrite is under way, and the disk is usable.
    Idle,
    /// The command of a client is in commit, and a step of the commit is due next.
    Committing(ClientId, Numbered, Due),
    /// The records are being rewritten by a commit of the journal, and a step of the rewrite is due next.
    Rewriting(Commit, RewriteDue),
    /// A device step has failed. If a command was in commit, it is kept here. No further device step is made until the library is
    /// opened again.
    Failed(Option<Numbered>),
    /// The disk has crashed, and the library has to be opened.
    Crashed,
}

impl Phase {
    ghost use Rattle.std.specs.Prelude.{◌≡◌};
    ghost use Rattle.cc_core.specs.declared.command.Numbered.{Numbered};
    ghost use Rattle.cc_journal.specs.Commit as journal;
    ghost use Rattle.cc_core.specs.declared.contents.Due.{Due};
    ghost use Rattle.cc_core.specs.declared.contents.RewriteDue.{RewriteDue};
    ghost use Rattle.cc_core.specs.declared.ids.ClientId.{ClientId};
    ghost use Rattle.cc_core.specs.declared.contents.Phase.TheVariants.{Committing, Rewriting};

    /// In a commit, makes this step the next one.
    pub(crate) fn go_on(&mut self, next: Due)
        ensures { (client : ClientId) (numbered : Numbered) (due : Due)
            → self.old ≡ Committing client numbered due → self.new ≡ Committing client numbered next }
    {
        if let Phase::Committing(_, _, due) = self {
            *due = next;
        }
    }

    /// In a rewrite, makes this step the next one.
    pub(crate) fn rewrite_on(&mut self, next: RewriteDue)
        ensures { (commit : journal.Commit) (due : RewriteDue) → self.old ≡ Rewriting commit due → self.new ≡ Rewriting commit next }
    {
        if let Phase::Rewriting(_, due) = self {
            *due = next;
        }
    }
}

/// What commits work on: the library, its order and the disk.
#[derive(Drop)]
pub struct Core {
    /// The live map.
    pub library: UnitMap,
    /// The commands that were accepted, in the order in which they began.
    pub order: Sequence<Numbered>,
    /// The commands whose reply was given, in the order of the replies.
    pub acknowledged: Sequence<Numbered>,
    pub phase: Phase,
    /// The disk.
    pub store: Store,
    /// The sequence number of the next Begin.
    pub upcoming: SequenceNumber,
}

impl Core {
    ghost use Rattle.std.specs.Prelude.{◌≡◌};

    /// Enters this phase.
    pub(crate) fn enter(&mut self, phase: Phase)
        ensures { self.new ≡ record self.old { phase = phase } }
    {
        self.phase = phase;
    }
}

/// What a state of the core holds, apart from its build.
#[derive(Drop)]
pub struct Contents<P> {
    pub core: Core,
    /// The job of each client that has one.
    pub jobs: Table<Job<P>>,
    /// What each worker has taken; a worker without an entry is idle.
    pub workers: Table<Work>,
}
