// Which steps of the protocol core a call is, from a state that the book shows.

ghost use Rattle.std.specs.Prelude.{◌≡◌, [], false, true, IsTrue, Option, Result};
ghost use Rattle.cc_disk.specs.Images.{LeavesAlone};
ghost use Rattle.cc_journal.specs.Format.{HoldsRecords};
ghost use Rattle.cc_library.specs.Recovered.{StandFor};
ghost use Rattle.cc_core.specs.Run.{IsOpened};
ghost use Rattle.cc_core.specs.declared.contents.Contents.{Contents};
ghost use Rattle.cc_core.specs.declared.ids.ClientId.{ClientId};
ghost use Rattle.cc_history.specs.declared.entry.Receipt.{Receipt};
ghost use Rattle.cc_history.specs.Calls.{Command};
ghost use Rattle.cc_history.specs.History.{MemberView};
ghost use Rattle.cc_recorded.specs.declared.fault.BookFault.{BookFault};
ghost use Rattle.cc_recorded.specs.Book.{BookView};
ghost use Rattle.cc_recorded.specs.Answers.{CommitAnswers, CompactAnswers};
ghost use Rattle.cc_recorded.specs.Disk.{ChangesDisk, CompactsDisk};
ghost use Rattle.cc_recorded.specs.Core.{Has, IsBeside, IsCommitOf, IsRewriteOf, Shows};
ghost use Rattle.cc_core.specs.Step.{Step};
ghost use Rattle.cc_core.specs.declared.event.Event.{Event};
ghost use Rattle.cc_core.specs.declared.command.Reply.{Reply};

use cc_core::build::Build;
use cc_disk::Disk;

/// For every state of the core that a book shows, and every client that has a job with the command: a commit with its answer is the steps
/// from Begin to Ack, or to a refusal or a Fail; and the book afterwards shows the state that is reached.
pub fn commits_are_steps<D: Disk, B: Build>()
    ensures { (before after : BookView D) (old new : MemberView) (command : Command) (result : Result Receipt BookFault) (s : Contents B.Piece) (client : ClientId)
        → CommitAnswers D.failures before old command after new result
        → (IsTrue D.honest → ChangesDisk D.Disk command before.library after.library result)
        → Shows D.Disk before s → Has B.rules s client command
        → IsCommitOf B.rules (Shows D.Disk after) s client result }
{}

/// A book over a library that was opened on an honest disk shows a state of the core, and that state is an initial one: so an invariant of
/// the core's runs holds for every state that the book shows later.
pub fn opened_books_begin<D: Disk, B: Build>()
    ensures { (book : BookView D) → book.history ≡ [] → book.failed ≡ [] → book.library.closed ≡ false → book.base ≡ book.library.units
        → StandFor book.library.bodies book.library.units → HoldsRecords (D.seen book.library.disk) book.library.area book.library.bodies
        → LeavesAlone (D.seen book.library.disk) (D.may_leave book.library.disk)
        → (s : Contents B.Piece) × Shows (record D.Disk { honest = true }) book s × IsOpened s }
{}

/// Handing in a job, taking a piece and handing in its result change nothing that a book shows.
pub fn jobs_are_beside<D: Disk, B: Build>()
    ensures { (book : BookView D) (old new : Contents B.Piece) (event : Event B.Piece) (reply : Option Reply)
        → IsBeside event → Step B.rules old event reply new → Shows D.Disk book old → Shows D.Disk book new }
{}

/// For every state of the core that a book shows, a compaction is the four device steps of a rewrite, or those up to the failure.
pub fn compactions_are_rewrites<D: Disk, B: Build>()
    ensures { (before after : BookView D) (result : Result (Unit {0}) BookFault) (s : Contents B.Piece)
        → CompactAnswers D.failures before after result
        → (IsTrue D.honest → CompactsDisk D.Disk before.library after.library result)
        → Shows D.Disk before s → IsRewriteOf B.rules (Shows D.Disk after) s result }
{}
