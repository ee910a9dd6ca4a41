// Laws of the protocol core. Each is the contract of a function that does nothing: what holds after every run, and how a run can go on.

ghost use Rattle.std.specs.Prelude.{◌≡◌, ◌++◌, ℕ, Option, None, List};
ghost use Rattle.std.specs.FinMap.{get, empty};
ghost use Rattle.cc_library.specs.Apply.{Units, after};
ghost use Rattle.cc_library.specs.Change.{LibraryCommand};
ghost use Rattle.cc_core.specs.declared.contents.Contents.{Contents};
ghost use Rattle.cc_core.specs.declared.event.Event.{Event};
ghost use Rattle.cc_core.specs.declared.command.Numbered.{Numbered};
ghost use Rattle.cc_core.specs.declared.command.Reply.{Reply};
ghost use Rattle.cc_core.specs.declared.contents.Core.{Core};
ghost use Rattle.cc_core.specs.declared.contents.Phase.TheVariants.{Idle, Crashed};
ghost use Rattle.cc_core.specs.declared.ids.ClientId.{ClientId};
ghost use Rattle.cc_core.specs.declared.ids.WorkerId.{WorkerId};
ghost use Rattle.cc_core.specs.Rules.{HasBuilt};
ghost use Rattle.cc_core.specs.Step.{Step, RewritesAll, Reopens, StepsCore, IsUp};
ghost use Rattle.cc_core.specs.Run.{Turn, Run, EachUnit, IsRightCommand, IsRightOr, EachImageSurvives, EachImageIsRight, HandsIn, IsBeginning, IsAnyPiece, IsOfCrash, PutsSource, Commits, LeavesRecord, Rewrites, LeavesCompacted, live};
ghost use Rattle.cc_core.specs.Turns.{BeginsSpelled, IsNoSubmit, IsNoTake, CanBeReady};

use crate::build::Build;

/// These clauses hold for any rules by which units are made, any pieces that workers hand in, and any events, from a fresh disk or from
/// an opened one with any units on it. The only condition is that each command put into the order has a spelling, which the types of
/// names and units guarantee. Whatever a crash leaves of the disk survives, and the live map is what the order gives. In a crashed
/// state only the recovery and another crash are possible, and the recovery always is. A commit leaves exactly the bytes of its record.
/// Between two commits a rewrite is always possible, since it never takes more room than the records do, and it leaves one Add per
/// name.
pub fn survival_law<B: Build>()
    ensures survives { (first new : Contents B.Piece) (events : List (Event B.Piece))
        → IsBeginning first → Run B.rules IsAnyPiece first events new → EachImageSurvives new.core }
    ensures replay { (first new : Contents B.Piece) (events : List (Event B.Piece))
        → IsBeginning first → Run B.rules IsAnyPiece first events new → new.core.library ≡ live new.core.phase new.core.order }
    ensures recovers { (first new : Contents B.Piece) (events : List (Event B.Piece))
        → IsBeginning first → Run B.rules IsAnyPiece first events new → new.core.phase ≡ Crashed
        → (reply : Option Reply) × (after : Contents B.Piece) × StepsCore Reopens new reply after }
    ensures quiet { (first new after : Contents B.Piece) (events : List (Event B.Piece)) (event : Event B.Piece) (reply : Option Reply)
        → IsBeginning first → Run B.rules IsAnyPiece first events new → new.core.phase ≡ Crashed
        → Step B.rules new event reply after → IsOfCrash event }
    ensures leaves_record { (first new : Contents B.Piece) (events : List (Event B.Piece)) (client : ClientId) (numbered : Numbered) (after : Core)
        → IsBeginning first → Run B.rules IsAnyPiece first events new → Commits client numbered new.core after → LeavesRecord numbered new.core after }
    ensures rewrites { (first new : Contents B.Piece) (events : List (Event B.Piece))
        → IsBeginning first → Run B.rules IsAnyPiece first events new → new.core.phase ≡ Idle
        → (reply : Option Reply) × (after : Contents B.Piece) × StepsCore RewritesAll new reply after }
    ensures leaves_compacted { (first new : Contents B.Piece) (events : List (Event B.Piece)) (after : Core)
        → IsBeginning first → Run B.rules IsAnyPiece first events new → Rewrites new.core after → LeavesCompacted new.core after }
{}

/// What holds if each piece keeps what its type keeps. Whatever a crash leaves of the disk survives. Each unit on it is right, or was
/// found at the opening, so all units are right if those found at the opening were. A command that begins has the source that was
/// handed in.
pub fn crash_law<B: Build>()
    ensures survives { (first new : Contents B.Piece) (events : List (Event B.Piece))
        → IsBeginning first → Run B.rules B.keeps first events new → EachImageSurvives new.core }
    ensures units { (first new : Contents B.Piece) (events : List (Event B.Piece))
        → IsBeginning first → Run B.rules B.keeps first events new → EachImageIsRight (IsRightOr B.is_right first.core.library) new.core }
    ensures right { (first new : Contents B.Piece) (events : List (Event B.Piece))
        → IsBeginning first → EachUnit B.is_right first.core.library → Run B.rules B.keeps first events new → EachImageIsRight B.is_right new.core }
    ensures source { (first new after : Contents B.Piece) (events : List (Event B.Piece)) (client : ClientId)
        → IsBeginning first → Run B.rules B.keeps first events new → PutsSource B.rules client new after }
{
    survival_law::<B>();
}

/// What a command does to the units of a map. If the command's unit and each unit of the map are right, each unit is right after the
/// command. The same holds for units that are right or found in a base. The empty map has no units.
pub fn units_law<B: Build>()
    ensures right { (library : Units) (command : LibraryCommand)
        → EachUnit B.is_right library → IsRightCommand B.is_right command → EachUnit B.is_right (after library command) }
    ensures found { (base library : Units) (command : LibraryCommand)
        → EachUnit (IsRightOr B.is_right base) library → IsRightCommand (IsRightOr B.is_right base) command → EachUnit (IsRightOr B.is_right base) (after library command) }
    ensures none { EachUnit B.is_right empty }
{}

/// How a run can go on. Each step of an event is a turn of a run, if each piece handed in has what its type keeps, and each command put
/// into the order has a spelling. A run can be continued by another. Only a Submit gives a client a job, and only a Take gives a worker
/// a piece. Unless the disk has crashed, a client without a job can hand in the request for any command whose unit can be built from
/// pieces, and an idle worker can then make the job ready to begin.
pub fn turn_law<B: Build>()
    ensures turn { (old new : Contents B.Piece) (event : Event B.Piece) (reply : Option Reply)
        → Step B.rules old event reply new → HandsIn B.keeps event → BeginsSpelled B.rules old event → Turn B.rules B.keeps old event new }
    ensures goes_on { (old mid new : Contents B.Piece) (events later : List (Event B.Piece))
        → Run B.rules B.keeps old events mid → Run B.rules B.keeps mid later new → Run B.rules B.keeps old (events ++ later) new }
    ensures no_job { (old new : Contents B.Piece) (event : Event B.Piece) (reply : Option Reply)
        → Step B.rules old event reply new → IsNoSubmit event → (k : ℕ) → get old.jobs k ≡ None → get new.jobs k ≡ None }
    ensures no_work { (old new : Contents B.Piece) (event : Event B.Piece) (reply : Option Reply)
        → Step B.rules old event reply new → IsNoTake event → (k : ℕ) → get old.workers k ≡ None → get new.workers k ≡ None }
    ensures ready { (old : Contents B.Piece) (client : ClientId) (worker : WorkerId) (command : LibraryCommand)
        → IsUp old.core.phase → get old.jobs client.number ≡ None → get old.workers worker.number ≡ None
        → HasBuilt B.rules B.keeps command → CanBeReady B.rules B.keeps old client worker command }
{}
