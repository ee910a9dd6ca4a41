// The device steps of a command's commit, and their failure.

ghost use Rattle.std.specs.Prelude.{◌≡◌, Some, IfOk, length};
ghost use Rattle.cc_core.specs.declared.command.Reply.{Reply};
ghost use Rattle.cc_core.specs.declared.contents.Contents.{Contents};
ghost use Rattle.cc_core.specs.declared.contents.Due.TheVariants as due;
ghost use Rattle.cc_core.specs.Store.{append_of};
ghost use Rattle.cc_core.specs.internal.Answers.{Answers};
ghost use Rattle.cc_core.specs.Step.{Advances, Fails, FailsJob};
ghost use Rattle.cc_core.specs.internal.Ready.{IsReady, IsFitting, IsWithin};

use crate::command::Reply;
use crate::contents::{Contents, Core, Due, Phase};
use crate::events::Answer;
use crate::fault::{CoreFault, Refusal};
use crate::ids::ClientId;
use crate::store::Store;
use cc_journal::Commit;
use cc_library::{LibraryCommand, body_length, body_of_command};
use std::alloc::{AllocError, Global};

// The commit that appends the record of a command to the journal.
fn append_of(alloc: Global, store: &Store, command: &LibraryCommand) -> Result<Commit, AllocError>
    requires { IsFitting store.now command.now }
    ensures commit { IfOk result (λ commit. commit ≡ append_of store.now command.now) }
    ensures within { IfOk result (λ commit. IsWithin commit store.now) }
{
    let body = body_of_command(alloc, command)?;
    store.append(alloc, &body)
}

// Writes the body. The bytes are made before the device is called.
pub(crate) fn write_body(alloc: Global, core: &mut Core) -> Answer
    requires { IsReady core.old }
    ensures { Answers (Advances due.WriteBody core.old) result core.old core.new }
{
    let Phase::Committing(_, numbered, due) = &core.phase else {
        return Err(CoreFault::NotNow);
    };
    let Due::WriteBody = due else {
        return Err(CoreFault::NotNow);
    };
    let commit = append_of(alloc, &core.store, &numbered.command)?;
    core.store.write_first(&commit);
    core.phase.go_on(Due::SyncBody);
    Ok(None)
}

// Syncs the body.
pub(crate) fn sync_body(core: &mut Core) -> Answer
    requires { IsReady core.old }
    ensures { Answers (Advances due.SyncBody core.old) result core.old core.new }
{
    let Phase::Committing(_, _, Due::SyncBody) = &core.phase else {
        return Err(CoreFault::NotNow);
    };
    core.store.sync();
    core.phase.go_on(Due::WriteGate);
    Ok(None)
}

// Writes the record's gate as open.
pub(crate) fn write_gate(alloc: Global, core: &mut Core) -> Answer
    requires { IsReady core.old }
    ensures { Answers (Advances due.WriteGate core.old) result core.old core.new }
{
    let Phase::Committing(_, numbered, due) = &core.phase else {
        return Err(CoreFault::NotNow);
    };
    let Due::WriteGate = due else {
        return Err(CoreFault::NotNow);
    };
    let commit = append_of(alloc, &core.store, &numbered.command)?;
    core.store.decide(&commit);
    core.phase.go_on(Due::SyncGate);
    Ok(None)
}

// Syncs the gate: the record now belongs to the journal.
pub(crate) fn sync_gate(core: &mut Core) -> Answer
    requires { IsReady core.old }
    ensures { Answers (Advances due.SyncGate core.old) result core.old core.new }
{
    let Phase::Committing(_, numbered, due) = &core.phase else {
        return Err(CoreFault::NotNow);
    };
    let Due::SyncGate = due else {
        return Err(CoreFault::NotNow);
    };
    let length = body_length(&numbered.command);
    core.store.sync();
    let used = core.store.used();
    core.store.set_used(used + (length + 5));
    core.phase.go_on(Due::Acknowledge);
    Ok(None)
}

// The device step that is due in a commit fails. If that step is a write, all its bytes are on the disk, but
// unsettled.
fn fail_core(alloc: Global, core: &mut Core, client: ClientId) -> Answer
    requires { IsReady core.old }
    ensures { Answers (Fails client core.old) result core.old core.new }
{
    let Phase::Committing(committing, numbered, due) = &core.phase else {
        return Err(CoreFault::NotNow);
    };
    if committing.number != client.number {
        return Err(CoreFault::NotNow);
    }
    if let Due::Acknowledge = due {
        return Err(CoreFault::NotNow);
    }
    let failed = numbered.again()?;
    match due {
        Due::WriteBody => {
            let commit = append_of(alloc, &core.store, &numbered.command)?;
            core.store.write_first(&commit);
        }
        Due::WriteGate => {
            let commit = append_of(alloc, &core.store, &numbered.command)?;
            core.store.decide(&commit);
        }
        Due::SyncBody | Due::SyncGate | Due::Acknowledge => {}
    }
    core.enter(Phase::Failed(Some(failed)));
    Ok(Some(Reply::Refused(Refusal::DiskFault)))
}

// The device step that is due in a commit fails, and the job in commit ends.
pub(crate) fn fail_job<P: Drop>(alloc: Global, contents: &mut Contents<P>) -> Answer
    requires { IsReady contents.old.core }
    ensures { Answers (FailsJob contents.old) result contents.old contents.new }
{
    let Phase::Committing(client, _, _) = &contents.core.phase else {
        return Err(CoreFault::NotNow);
    };
    let client = *client;
    match fail_core(alloc, &mut contents.core, client) {
        Ok(reply) => {
            contents.jobs.remove(client.number);
            Ok(reply)
        }
        Err(fault) => Err(fault),
    }
}
