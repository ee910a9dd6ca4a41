// The device steps of a rewrite, and their failure. Together these steps carry out one commit of the journal, which is made
// before the first of them.

ghost use Rattle.cc_core.specs.declared.contents.Contents.{Contents};
ghost use Rattle.cc_core.specs.declared.contents.RewriteDue.TheVariants as left;
ghost use Rattle.cc_core.specs.internal.Answers.{Answers};
ghost use Rattle.cc_core.specs.Step.{RewritesAll, RewriteAdvances, RewriteFails, FailsStep};
ghost use Rattle.cc_core.specs.internal.Ready.{IsReady};

use crate::contents::{Contents, Core, Phase, RewriteDue};
use crate::device::fail_job;
use crate::events::Answer;
use crate::fault::CoreFault;
use std::alloc::Global;

// Makes the first write, to the area that is not in use: one Add per name, and a closed gate after them. These records always
// fit, since they never take more room than those that represent the map now.
pub(crate) fn rewrite_all(alloc: Global, core: &mut Core) -> Answer
    requires { IsReady core.old }
    ensures { Answers (RewritesAll core.old) result core.old core.new }
{
    let Phase::Idle = &core.phase else {
        return Err(CoreFault::NotNow);
    };
    // Gives the proof what the type keeps about the size of an area.
    let _kept = core.store.used();
    let bodies = core.library.bodies(alloc)?;
    let commit = core.store.rewrite(alloc, &bodies)?;
    core.store.write_first(&commit);
    core.enter(Phase::Rewriting(commit, RewriteDue::SyncAll));
    Ok(None)
}

// Syncs the new records.
pub(crate) fn sync_all(core: &mut Core) -> Answer
    ensures { Answers (RewriteAdvances left.SyncAll core.old) result core.old core.new }
{
    let Phase::Rewriting(_, RewriteDue::SyncAll) = &core.phase else {
        return Err(CoreFault::NotNow);
    };
    core.store.sync();
    core.phase.rewrite_on(RewriteDue::WriteArea);
    Ok(None)
}

// Writes the area byte.
pub(crate) fn write_area(core: &mut Core) -> Answer
    requires { IsReady core.old }
    ensures { Answers (RewriteAdvances left.WriteArea core.old) result core.old core.new }
{
    let Phase::Rewriting(commit, due) = &core.phase else {
        return Err(CoreFault::NotNow);
    };
    let RewriteDue::WriteArea = due else {
        return Err(CoreFault::NotNow);
    };
    core.store.decide(commit);
    core.phase.rewrite_on(RewriteDue::SyncArea);
    Ok(None)
}

// Syncs the area byte: the other area is now in use, and its records are now the journal's.
pub(crate) fn sync_area(core: &mut Core) -> Answer
    requires { IsReady core.old }
    ensures { Answers (RewriteAdvances left.SyncArea core.old) result core.old core.new }
{
    let Phase::Rewriting(commit, due) = &core.phase else {
        return Err(CoreFault::NotNow);
    };
    let RewriteDue::SyncArea = due else {
        return Err(CoreFault::NotNow);
    };
    let area_byte = commit.deciding_byte();
    let used = commit.bytes().len() - 1;
    core.store.sync();
    core.store.take_area(area_byte, used);
    core.enter(Phase::Idle);
    Ok(None)
}

// The device step that is due in a rewrite fails. If that step is a write, all its bytes are on the disk, but unsettled.
fn fail_rewrite(core: &mut Core) -> Answer
    requires { IsReady core.old }
    ensures { Answers (RewriteFails core.old) result core.old core.new }
{
    let Phase::Rewriting(commit, due) = &core.phase else {
        return Err(CoreFault::NotNow);
    };
    if let RewriteDue::WriteArea = due {
        core.store.decide(commit);
    }
    core.enter(Phase::Failed(None));
    Ok(None)
}

// The device step that is due fails, in a commit or in a rewrite.
pub(crate) fn fail<P: Drop>(alloc: Global, contents: &mut Contents<P>) -> Answer
    requires { IsReady contents.old.core }
    ensures { Answers (FailsStep contents.old) result contents.old contents.new }
{
    match &contents.core.phase {
        Phase::Rewriting(_, _) => fail_rewrite(&mut contents.core),
        _ => fail_job(alloc, contents),
    }
}
