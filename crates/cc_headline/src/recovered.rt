// The headline: what is recovered after any events and any crash, and that each recovered unit does what its source says.

ghost use Rattle.std.specs.Prelude.{◌≡◌, List, IfOk, IfErr};
ghost use Rattle.cc_core.specs.declared.contents.Contents.{Contents};
ghost use Rattle.cc_core.specs.declared.event.Event.{Event};
ghost use Rattle.cc_core.specs.Run.{IsBeginning, IsAnyPiece, EachImageSurvives, Run};
ghost use Rattle.cc_headline.specs.Compiling.{compiling, Keeps};
ghost use Rattle.cc_headline.specs.Recovered.{AfterEveryRun, EachUnitAgrees, AgreesWhereFound, IsFoundOrAgrees};

use crate::build::CcBuild;
use cc_core::build::Build;
use cc_core::event::Event;
use cc_core::fault::CoreFault;
use cc_core::laws::{crash_law, survival_law};
use cc_core::state::{State, run_events};
use cc_emit::Piece;
use cc_link::linked_units_follow;
use std::alloc::Global;

/// The clauses hold for every interleaving of clients, workers and committer, with crashes and failures of the disk at any point,
/// starting from a fresh disk or from one that was opened with a library on it. Each command put into the order has a spelling, which
/// the types of names and units guarantee.
pub fn headline<B: Build>()
    // Whatever a crash leaves of the disk recovers to the library of a prefix of the commands, in the order of their commits. The prefix
    // has every acknowledged command and lacks at most the last one. This clause holds for any build, so also for the one that compiles,
    // whatever pieces workers hand in, and whatever units were found at the opening. Reading the clause needs no knowledge of C.
    ensures survives { (first new : Contents B.Piece) (events : List (Event B.Piece))
        → IsBeginning first → Run B.rules IsAnyPiece first events new → EachImageSurvives new.core }
    // With the build that compiles, if the units found at the opening agree with their sources, each recovered unit, when it
    // runs, does what its stored C source says. Nothing is promised for an input on which that source goes wrong: `a[3] = 5` on
    // `int a[3]` may write what lies next to `a`.
    ensures agrees { AfterEveryRun AgreesWhereFound }
    // Whatever units were found at the opening, each recovered unit is one of them or agrees with its source.
    ensures units { AfterEveryRun IsFoundOrAgrees }
{
    linked_units_follow();
    survival_law::<B>();
    crash_law::<CcBuild>();
}

/// Takes these events in order, with the build that compiles, and skips each event that is not possible when its turn comes. The only
/// refusal is 40 `OutOfMemory`, after which the state is lost.
pub fn run(
    alloc: Global,
    state: State<CcBuild>,
    events: Vec<Event<Piece>>,
) -> Result<State<CcBuild>, CoreFault>
    ensures run { IfOk result (λ new. Run compiling Keeps state events.items new) }
    // Whatever a crash leaves of the disk recovers to a library that has every acknowledged command.
    ensures survives { IfOk result (λ new. EachImageSurvives new.core) }
    // Each unit of the recovered library agrees with its stored source.
    ensures agrees { IfOk result (λ new. EachUnitAgrees new.core) }
    ensures refused { IfErr result (λ fault. fault ≡ CoreFault.OutOfMemory) }
{
    run_events(alloc, state, events)
}
