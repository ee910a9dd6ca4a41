// The step of each event: whether it is possible, what it changes, and what it answers.

ghost use Rattle.std.specs.Prelude.{◌≡◌, ◌↔◌, ℕ, Option, None, Some, Ok, Result, IfOk, IfErr, OnErr, OnOk, IsTrue};
ghost use Rattle.std.specs.FinMap as table;
ghost use Rattle.cc_core.specs.declared.command.Reply.{Reply};
ghost use Rattle.cc_core.specs.declared.contents.Contents.{Contents};
ghost use Rattle.cc_core.specs.declared.contents.Due.TheVariants as due;
ghost use Rattle.cc_core.specs.declared.contents.Phase.TheVariants.{Committing};
ghost use Rattle.cc_core.specs.declared.job.Job.{Job};
ghost use Rattle.cc_core.specs.Fault.{RefusesAs, RefusesPlan};
ghost use Rattle.cc_core.specs.Job.{IsPlanned, planned, source_in, verdict, built, command_of, command_refusal, map_refusal, with_piece};
ghost use Rattle.cc_core.specs.internal.Answers.{Answers};
ghost use Rattle.cc_library.specs.Body.{IsCommand};
ghost use Rattle.cc_core.specs.internal.Ready.{IsReady};
ghost use Rattle.cc_core.specs.Run.{PutsCommand, HandsIn};
ghost use Rattle.cc_core.specs.Step.{Step, Submits, Takes, Finishes, Refuses, BeginsCommit, Begun, Acknowledges, EndsJob, IsFree, IsUp};

use crate::build::Build;
use crate::command::{Numbered, Reply, Request};
use crate::contents::{Contents, Core, Due, Phase};
use crate::device::{sync_body, sync_gate, write_body, write_gate};
use crate::event::Event;
use crate::fault::{BuildRefusal, CoreFault, Refusal};
use crate::ids::{CallId, ClientId, PartIndex, WorkerId};
use crate::job::{
    Job, Progress, Work, all_made, all_waiting, are_all_there, least_refused, set_progress,
};
use crate::recovery::{crash, recover};
use crate::rewriting::{fail, rewrite_all, sync_all, sync_area, write_area};
use cc_library::{LibraryCommand, SharedUnit, UnitMap, body_length};
use std::alloc::{AllocError, Global};

/// What an event answers: a reply, or no reply. It fails with 29 if the event is not possible, and with 40 if memory ran out.
pub(crate) type Answer = Result<Option<Reply>, CoreFault>;

// The number of pieces of a request, or the number that refuses the request.
fn plan_of<B: Build>(build: &B, alloc: Global, request: &Request) -> Result<u32, BuildRefusal>
    ensures answer { IfOk result (λ pieces. IsPlanned B.rules request.now (Ok pieces)) }
    ensures refused { IfErr result (λ fault. RefusesPlan fault (IsPlanned B.rules request.now)) }
{
    match request {
        Request::Add(_, source) | Request::Replace(_, source) => {
            build.plan(alloc, source.as_slice())
        }
        Request::Withdraw(_) => Ok(0),
    }
}

// The job that a request becomes when it is planned.
fn plan_job<B: Build>(
    build: &B,
    alloc: Global,
    call: CallId,
    request: Request,
) -> Result<Job<B::Piece>, AllocError>
    ensures { IfOk result (λ job. (plan : Result ℕ ℕ) × IsPlanned B.rules request plan × (job ≡ planned call request plan)) }
{
    let (refusal, count) = match plan_of(build, alloc, &request) {
        Ok(count) => (None, count),
        Err(BuildRefusal::Refused(number)) => (Some(number), 0),
        Err(BuildRefusal::OutOfMemory) => {
            drop(request);
            return Err(AllocError);
        }
    };
    match all_waiting(alloc, count) {
        Ok(pieces) => Ok(Job {
            call,
            request,
            refusal,
            pieces,
        }),
        Err(fault) => {
            drop(request);
            Err(fault)
        }
    }
}

// Whether clients may hand in jobs: the disk has not crashed.
fn is_up(phase: &Phase) -> bool
    ensures { IsTrue result ↔ IsUp phase.now }
{
    match phase {
        Phase::Idle | Phase::Committing(_, _, _) | Phase::Rewriting(_, _) | Phase::Failed(_) =>
            true,
        Phase::Crashed => false,
    }
}

// A client without a job hands one in.
pub(crate) fn submit<B: Build>(
    build: &B,
    alloc: Global,
    contents: &mut Contents<B::Piece>,
    client: ClientId,
    call: CallId,
    request: Request,
) -> Answer
    ensures { Answers (Submits B.rules client call request contents.old) result contents.old contents.new }
{
    if !is_up(&contents.core.phase) || contents.jobs.get(client.number).is_some() {
        drop(request);
        return Err(CoreFault::NotNow);
    }
    let job = plan_job(build, alloc, call, request)?;
    contents.jobs.put(client.number, job)?;
    Ok(None)
}

// An idle worker takes a waiting piece of a client's job.
pub(crate) fn take<P: Drop>(
    contents: &mut Contents<P>,
    worker: WorkerId,
    client: ClientId,
    part: PartIndex,
) -> Answer
    ensures { Answers (Takes worker client part contents.old) result contents.old contents.new }
{
    if contents.workers.get(worker.number).is_some() {
        return Err(CoreFault::NotNow);
    }
    let Some(job) = contents.jobs.get(client.number) else {
        return Err(CoreFault::NotNow);
    };
    let Some(Progress::Waiting) = job.pieces.get(part.index as usize) else {
        return Err(CoreFault::NotNow);
    };
    contents.workers.put(worker.number, Work { client, part })?;
    set_progress(&mut contents.jobs, client, part, Progress::Taken);
    Ok(None)
}

// Whether a piece names the source that a request hands in, and names this part of that source.
fn names_part<B: Build>(build: &B, request: &Request, piece: &B::Piece, part: PartIndex) -> bool
    ensures named { IsTrue result ↔ ((source_in request.now ≡ Some (B.rules.source_of piece.now)) × (B.rules.part_of piece.now ≡ part.index)) }
    ensures kept { IsTrue result → B.keeps piece.now }
{
    match request {
        Request::Add(_, source) | Request::Replace(_, source) => {
            build.names(piece, source.as_slice(), part.index)
        }
        Request::Withdraw(_) => false,
    }
}

// Sets the progress of the piece that a worker took, and makes the worker idle.
fn settle<P: Drop>(contents: &mut Contents<P>, worker: WorkerId, work: Work, progress: Progress<P>)
    ensures { (job : Job P) → table.get contents.old.jobs work.client.number ≡ Some job
        → contents.new ≡ record contents.old {
          jobs = table.insert contents.old.jobs work.client.number (with_piece job work.part progress);
          workers = table.remove contents.old.workers worker.number;
        } }
{
    set_progress(&mut contents.jobs, work.client, work.part, progress);
    contents.workers.remove(worker.number);
}

// A busy worker hands in the piece that it took.
pub(crate) fn finish<B: Build>(
    build: &B,
    contents: &mut Contents<B::Piece>,
    worker: WorkerId,
    piece: B::Piece,
) -> Answer
    ensures answers { Answers (Finishes B.rules worker piece contents.old) result contents.old contents.new }
    ensures hands { OnOk result (B.keeps piece) }
{
    let Some(work) = contents.workers.get(worker.number).copied() else {
        return Err(CoreFault::NotNow);
    };
    let Some(job) = contents.jobs.get(work.client.number) else {
        return Err(CoreFault::NotNow);
    };
    if !names_part(build, &job.request, &piece, work.part) {
        return Err(CoreFault::NotNow);
    }
    settle(contents, worker, work, Progress::Made(piece));
    Ok(None)
}

// A busy worker refuses the piece that it took.
pub(crate) fn refuse<P: Drop>(contents: &mut Contents<P>, worker: WorkerId, number: u32) -> Answer
    ensures { Answers (Refuses worker number contents.old) result contents.old contents.new }
{
    let Some(work) = contents.workers.get(worker.number).copied() else {
        return Err(CoreFault::NotNow);
    };
    if contents.jobs.get(work.client.number).is_none() {
        return Err(CoreFault::NotNow);
    }
    settle(contents, worker, work, Progress::Refused(number));
    Ok(None)
}

// The unit built from a job's source, or the first number that refuses the source or a piece.
fn build_unit<B: Build>(
    build: &B,
    alloc: Global,
    job: &Job<B::Piece>,
    source: &[u8],
) -> Result<SharedUnit, BuildRefusal>
    ensures ok { IfOk result (λ unit. built B.rules job.now source.now ≡ Ok unit) }
    ensures err { IfErr result (λ fault. RefusesAs fault (built B.rules job.now source.now)) }
{
    if let Some(number) = job.refusal {
        return Err(BuildRefusal::Refused(number));
    }
    if let Some(number) = least_refused(job.pieces.as_slice()) {
        return Err(BuildRefusal::Refused(number));
    }
    let made = all_made(alloc, job.pieces.as_slice())?;
    let unit = build.unit(alloc, source, made.as_slice())?;
    Ok(SharedUnit::new(unit))
}

// The command of a job, or the number that refuses the job before the library is asked.
fn make_command<B: Build>(
    build: &B,
    alloc: Global,
    job: &Job<B::Piece>,
) -> Result<LibraryCommand, BuildRefusal>
    ensures ok { IfOk result (λ command. command_of B.rules job.now job.now.request ≡ Ok command) }
    ensures err { IfErr result (λ fault. RefusesAs fault (command_of B.rules job.now job.now.request)) }
{
    match &job.request {
        Request::Add(name, source) => {
            let name = name.clone()?;
            let unit = build_unit(build, alloc, job, source.as_slice())?;
            Ok(LibraryCommand::Add(name, unit))
        }
        Request::Replace(name, source) => {
            let name = name.clone()?;
            let unit = build_unit(build, alloc, job, source.as_slice())?;
            Ok(LibraryCommand::Replace(name, unit))
        }
        Request::Withdraw(name) => Ok(LibraryCommand::Withdraw(name.clone()?)),
    }
}

// Why the map refuses a command, or `None` if it does not.
fn map_refusal(library: &UnitMap, command: &LibraryCommand) -> Option<Refusal>
    ensures { result ≡ map_refusal library.now command.now }
{
    match command {
        LibraryCommand::Add(name, _) => {
            if library.contains(name) {
                return Some(Refusal::Exists);
            }
        }
        LibraryCommand::Replace(name, _) | LibraryCommand::Withdraw(name) => {
            if !library.contains(name) {
                return Some(Refusal::Absent);
            }
        }
    }
    None
}

// Why a command is refused, if it is: 36 is tried first, then 31 or 32, then 34. The last test needs only the length of the
// command's body, so a body that does not fit is never made.
fn refusal_of(core: &Core, command: &LibraryCommand) -> Option<Refusal>
    ensures refusal { result ≡ command_refusal core.now.phase core.now.library core.now.store command.now }
    ensures spelled { result ≡ None → IsCommand command.now }
{
    if let Phase::Failed(_) = core.phase {
        return Some(Refusal::Closed);
    }
    if let Some(refusal) = map_refusal(&core.library, command) {
        return Some(refusal);
    }
    // Gives the proof what the type keeps about the size of an area.
    let _kept = core.store.used();
    if core.store.fits(body_length(command)) {
        None
    } else {
        Some(Refusal::Full)
    }
}

// The command with which a job begins, or why the job is refused.
fn decide<B: Build>(
    build: &B,
    alloc: Global,
    core: &Core,
    job: &Job<B::Piece>,
) -> Result<Result<LibraryCommand, Refusal>, AllocError>
    ensures verdict { IfOk result (λ decided. decided ≡ verdict B.rules core.now.phase core.now.library core.now.store job.now) }
    ensures command { IfOk result (λ decided. IfOk decided (λ command. IsCommand command)) }
{
    let command = match make_command(build, alloc, job) {
        Ok(command) => command,
        Err(BuildRefusal::Refused(number)) => return Ok(Err(Refusal::Build(number))),
        Err(BuildRefusal::OutOfMemory) => return Err(AllocError),
    };
    match refusal_of(core, &command) {
        None => Ok(Ok(command)),
        Some(refusal) => {
            drop(command);
            Ok(Err(refusal))
        }
    }
}

// Adds a command at the end of the order. The command is then in commit for this client.
fn put_in_order(
    core: &mut Core,
    client: ClientId,
    command: LibraryCommand,
) -> Result<(), AllocError>
    ensures answer { OnOk result (Begun core.old client (Ok command) None core.new) }
    ensures leaves { OnErr result (core.new ≡ core.old) }
{
    let numbered = Numbered {
        number: core.upcoming.same(),
        command,
    };
    let Ok(again) = numbered.again() else {
        drop(numbered);
        return Err(AllocError);
    };
    if core.order.push(again).is_err() {
        drop(numbered);
        return Err(AllocError);
    }
    core.enter(Phase::Committing(client, numbered, Due::WriteBody));
    core.upcoming = core.upcoming.next();
    Ok(())
}

// Whether a Begin may take its step. After a failed device step it may, but its command is then refused.
fn is_free(phase: &Phase) -> bool
    ensures { IsTrue result ↔ IsFree phase.now }
{
    match phase {
        Phase::Idle | Phase::Failed(_) => true,
        Phase::Committing(_, _, _) | Phase::Rewriting(_, _) | Phase::Crashed => false,
    }
}

// A job whose pieces have all been answered begins, if no other command is in commit and no rewrite is under way.
pub(crate) fn begin<B: Build>(
    build: &B,
    alloc: Global,
    contents: &mut Contents<B::Piece>,
    client: ClientId,
) -> Answer
    ensures answers { Answers (BeginsCommit B.rules client contents.old) result contents.old contents.new }
    ensures puts { OnOk result (PutsCommand contents.old.core contents.new.core) }
{
    if !is_free(&contents.core.phase) {
        return Err(CoreFault::NotNow);
    }
    let Some(job) = contents.jobs.get(client.number) else {
        return Err(CoreFault::NotNow);
    };
    if !are_all_there(job.pieces.as_slice()) {
        return Err(CoreFault::NotNow);
    }
    match decide(build, alloc, &contents.core, job)? {
        Ok(command) => {
            put_in_order(&mut contents.core, client, command)?;
            Ok(None)
        }
        Err(refusal) => {
            contents.jobs.remove(client.number);
            contents.core.upcoming = contents.core.upcoming.next();
            Ok(Some(Reply::Refused(refusal)))
        }
    }
}

// The reply is given to the client whose command is in commit, and the command is carried out on the library.
fn acknowledge_core(core: &mut Core, client: ClientId) -> Answer
    ensures { Answers (Acknowledges client core.old) result core.old core.new }
{
    let Phase::Committing(committing, numbered, due) = &core.phase else {
        return Err(CoreFault::NotNow);
    };
    if committing.number != client.number {
        return Err(CoreFault::NotNow);
    }
    let Due::Acknowledge = due else {
        return Err(CoreFault::NotNow);
    };
    core.acknowledged.push(numbered.again()?)?;
    if core.library.apply(&numbered.command).is_err() {
        core.acknowledged.drop_last();
        return Err(CoreFault::OutOfMemory);
    }
    core.enter(Phase::Idle);
    Ok(Some(Reply::Done))
}

// The reply is given, and the client's job ends.
pub(crate) fn acknowledge<P: Drop>(contents: &mut Contents<P>, client: ClientId) -> Answer
    ensures { Answers (EndsJob client (Acknowledges client) contents.old) result contents.old contents.new }
{
    match acknowledge_core(&mut contents.core, client) {
        Ok(reply) => {
            contents.jobs.remove(client.number);
            Ok(reply)
        }
        Err(fault) => Err(fault),
    }
}

/// Takes the step of one event, and answers the reply, if the event gives one. Fails with 29 if the event is not possible, and
/// with 40 if memory ran out; the contents are then as before.
pub(crate) fn take_step<B: Build>(
    build: &B,
    alloc: Global,
    contents: &mut Contents<B::Piece>,
    event: Event<B::Piece>,
) -> Answer
    requires { IsReady contents.old.core }
    ensures answers { Answers (Step B.rules contents.old event) result contents.old contents.new }
    ensures hands { OnOk result (HandsIn B.keeps event) }
    ensures puts { OnOk result (PutsCommand contents.old.core contents.new.core) }
{
    match event {
        Event::Submit(client, call, request) => {
            submit(build, alloc, contents, client, call, request)
        }
        Event::Take(worker, client, part) => take(contents, worker, client, part),
        Event::Done(worker, piece) => finish(build, contents, worker, piece),
        Event::Refuse(worker, number) => refuse(contents, worker, number),
        Event::Begin(client) => begin(build, alloc, contents, client),
        Event::WriteBody => write_body(alloc, &mut contents.core),
        Event::SyncBody => sync_body(&mut contents.core),
        Event::WriteGate => write_gate(alloc, &mut contents.core),
        Event::SyncGate => sync_gate(&mut contents.core),
        Event::RewriteAll => rewrite_all(alloc, &mut contents.core),
        Event::SyncAll => sync_all(&mut contents.core),
        Event::WriteArea => write_area(&mut contents.core),
        Event::SyncArea => sync_area(&mut contents.core),
        Event::Fail => fail(alloc, contents),
        Event::Ack(client) => acknowledge(contents, client),
        Event::Crash(choice) => crash(alloc, contents, &choice),
        Event::Recover => recover(alloc, &mut contents.core),
    }
}
