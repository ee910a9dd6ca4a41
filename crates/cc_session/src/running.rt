// A session, from the opening of its service to the end.

ghost use Rattle.std.specs.Prelude.{◌≡◌, ◌≤◌, ◌<◌, ℕ, List, [], Option, IsTrue, IfOk, IfErr, vec_len};
ghost use Rattle.std.specs.Vec.{vec_capacity};
ghost use Rattle.cc_c_semantics.specs.declared.mode.Mode.TheVariants.{Plain};
ghost use Rattle.cc_disk.specs.Images.{OnlyReads};
ghost use Rattle.cc_library.specs.Answers.{OpenFaults};
ghost use Rattle.cc_library.specs.Apply.{Units};
ghost use Rattle.cc_library.specs.Recovered.{Recovers};
ghost use Rattle.cc_recorded.specs.Opened.{IsOpened};
ghost use Rattle.cc_recorded.specs.Since.{IsPast};
ghost use Rattle.cc_service.specs.Client.{members};
ghost use Rattle.cc_session.specs.Session.{EndsSince, HaveCalled, IsEnded, SessionEnds};
ghost use Rattle.cc_session.specs.internal.Ends.{given_up_after};
ghost use Rattle.cc_session.specs.internal.Steps.{EndsFor};

use crate::calls::{Player, tell_halt};
use crate::end::SessionEnd;
use crate::patience::Unhurried;
use crate::reading::Reading;
use crate::telling::{refused, tell_estranged};
use cc_answers::tell_no_memory;
use cc_disk::Disk;
use cc_library::{Library, LibraryFault};
use cc_link::Mode;
use cc_script::{Dialect, ScriptFault};
use cc_service::{Client, Closed, Fresh, Gate, Named, NoGate, Service, ServiceFault};
use std::alloc::Global;
use std::io::{self, Read, Write};
use std::marker::Brand;
use std::snapshot::Snapshot;
use std::sync::Wait;
use std::thread::Threads;

// What a service begins with: the library as its opening left it, and the disk as it was before. No type names them yet.
#[derive(Drop)]
pub(crate) struct Begun<D: Disk> {
    pub(crate) library: Library<D>,
    pub(crate) before: Snapshot<D>,
    pub(crate) fresh: Fresh,
}

// What a service on this disk begins with. The map of the library is the one that the service's type will name.
pub(crate) fn begin<D: Disk + Drop>(alloc: Global, disk: D) -> Result<Begun<D>, (LibraryFault, D)>
    ensures opened { IfOk result (λ b. IsOpened D.Disk b.library) }
    ensures recovered { IfOk result (λ b. IsTrue D.honest → Recovers (D.seen b.library.disk) b.library.units) }
    ensures sound { IfOk result (λ b. D.failures b.library.disk ≡ D.failures disk) }
    ensures refused { IfErr result (λ e. OpenFaults D.honest (D.seen disk) (D.failures disk) (D.failures e.1) e.0) }
    ensures before { IfOk result (λ b. b.before.value ≡ disk) }
    ensures reads { IfOk result (λ b. IsTrue D.honest → OnlyReads D.seen D.may_leave D.moment D.left_since disk b.library.disk) }
    ensures past { IfOk result (λ b. IsTrue D.honest → IsPast D.Disk (D.moment b.before.value) (D.may_leave b.before.value) b.library.disk) }
    ensures reads_refused { IfErr result (λ e. IsTrue D.honest → OnlyReads D.seen D.may_leave D.moment D.left_since disk e.1) }
{
    let before = Snapshot::of(&disk);
    let library = match Library::open(alloc, disk) {
        Ok(library) => library,
        Err(refused) => return Err(refused),
    };
    match Fresh::new(alloc) {
        Ok(fresh) => Ok(Begun {
            library,
            before,
            fresh,
        }),
        Err(_) => Err((LibraryFault::OutOfMemory, library.into_disk())),
    }
}

// The end of a service that was given up. If its clients' receipts are not all in the history, it is 39, whatever fault ended
// their work. If they are, it is the fault that ended the work; if none did, it is 40, since there was no memory to end the
// service. The line is written only for a fault that first arises here.
fn given_up<W: Write, E: Write>(
    alloc: Global,
    are_all: bool,
    played: SessionEnd,
    answers: &mut W,
    explanations: &mut E,
) -> SessionEnd
    ensures end { result ≡ given_up_after are_all played }
    ensures still { result ≡ played → W.contents answers.new ≡ W.contents answers.old }
{
    match played {
        SessionEnd::Fault(first) if are_all || first == 39 => SessionEnd::Fault(first),
        SessionEnd::Finished if are_all => {
            let _ = tell_no_memory(answers, explanations);
            SessionEnd::Fault(40)
        }
        SessionEnd::Fault(_) | SessionEnd::Finished => {
            tell_estranged(alloc, answers, explanations);
            SessionEnd::Fault(39)
        }
    }
}

// How a session ended if its script ended like this.
fn ended(played: Result<(), ScriptFault>) -> SessionEnd
    ensures { EndsFor played result }
{
    match played {
        Ok(()) => SessionEnd::Finished,
        Err(fault) => SessionEnd::Fault(fault.number()),
    }
}

// Runs a script with one client of a service. The clause holds however the session ends afterwards, if nothing is written in
// between.
fn play_alone<N, H, R, W, E, D>(
    rt: &H,
    alloc: Global,
    mode: Mode,
    script: &mut Reading<R>,
    service: &Service<N, D>,
    clients: &mut Vec<Client<N>>,
    answers: &mut W,
    explanations: &mut E,
) -> SessionEnd
where
    N: Named + Send + Sync + 'static,
    H: Wait,
    R: Read,
    W: Write,
    E: Write,
    D: Disk,
    requires room { vec_len clients.old < vec_capacity clients.old }
    requires none { clients.old.items ≡ [] }
    requires fresh { script.old.left ≡ 16777216 }
    ensures { (end : SessionEnd) (after : Option (List ℕ)) → (end ≡ result → after ≡ W.contents answers.new)
        → HaveCalled mode script.old.rest (W.contents answers.old) after end (members clients.new.items) result }
{
    match service.client(rt, alloc) {
        Ok(mut client) => {
            let player = Player {
                rt,
                alloc,
                service,
                mode,
                most: None,
                patience: &Unhurried,
            };
            let halted = player.play(&mut client, script, Dialect::Plain, answers, explanations);
            clients.push_reserved(client);
            ended(tell_halt(halted, answers, explanations))
        }
        Err(fault) => SessionEnd::Fault(refused(alloc, fault, answers, explanations)),
    }
}

// The disk of a service that was ended.
fn disk_of<D: Disk>(closed: Closed<D>) -> D
    ensures { result ≡ closed.library.disk }
{
    let Closed { library, .. } = closed;
    library.into_disk()
}

// Ends a service whose clients' work ended like this. If the service can't be ended, it is given up.
pub(crate) fn finish<N, H, W, E, D>(
    rt: &H,
    alloc: Global,
    service: Service<N, D>,
    clients: Vec<Client<N>>,
    played: SessionEnd,
    answers: &mut W,
    explanations: &mut E,
) -> (D, SessionEnd)
where
    N: Named + Send + Sync + 'static,
    H: Wait,
    W: Write,
    E: Write,
    D: Disk,
    // The clause holds for any bytes that recover to the map that the service's type names.
    ensures ended { (bytes : List ℕ) → (IsTrue D.honest → Recovers bytes N.base)
        → IsEnded D.Disk N.failures bytes N.from N.left (members clients.items) played result.1 result.0 }
    // Nothing is written if the service ends as the clients' work did.
    ensures still { result.1 ≡ played → W.contents answers.new ≡ W.contents answers.old }
{
    match service.finish(rt, alloc, clients) {
        Ok(closed) => (disk_of(closed), played),
        Err((fault, service, clients)) => {
            drop(fault);
            let (disk, are_all) = service.give_up(rt, alloc, clients);
            (
                disk,
                given_up(alloc, are_all, played, answers, explanations),
            )
        }
    }
}

// Opens a service, runs a script and ends the service.
fn do_script<N, H, R, W, E, D, G>(
    rt: &H,
    alloc: Global,
    mode: Mode,
    script: &mut Reading<R>,
    begun: Begun<D>,
    workers: usize,
    gate: G,
    answers: &mut W,
    explanations: &mut E,
) -> (D, SessionEnd)
where
    N: Named + Send + Sync + 'static,
    H: Threads + Wait + Copy + Send + 'static,
    R: Read,
    W: Write,
    E: Write,
    D: Disk + Drop,
    G: Gate + Drop + Send + Sync + 'static,
    requires ledger { begun.fresh.ledger ≡ N.name }
    requires parts { N.parts ≡ 1025 }
    requires queue { begun.fresh.queue ≡ N.queue }
    requires opened { IsOpened D.Disk begun.library }
    requires recovered { IsTrue D.honest → Recovers (D.seen begun.library.disk) begun.library.units }
    requires named { IsTrue D.honest → begun.library.units ≡ N.base }
    requires past { IsTrue D.honest → IsPast D.Disk N.from N.left begun.library.disk }
    requires failures { N.failures ≡ D.failures begun.library.disk }
    requires some { 1 ≤ workers }
    requires few { workers ≤ 8 }
    requires fresh { script.old.left ≡ 16777216 }
    ensures { EndsSince D.Disk N.from N.left (Unit {0}) (HaveCalled mode script.old.rest (W.contents answers.old) (W.contents answers.new) result.1) begun.library.disk result.0 result.1 }
{
    let Begun {
        library,
        before: _,
        fresh,
    } = begun;
    let Ok(mut clients) = Vec::with_capacity(alloc, 1) else {
        drop(fresh);
        let fault = ServiceFault::Opening(LibraryFault::OutOfMemory);
        let number = refused(alloc, fault, answers, explanations);
        return (library.into_disk(), SessionEnd::Fault(number));
    };
    match Service::<N, D>::over(rt, alloc, fresh, library, workers, gate) {
        Ok(service) => {
            let played = play_alone(
                rt,
                alloc,
                mode,
                script,
                &service,
                &mut clients,
                answers,
                explanations,
            );
            finish(rt, alloc, service, clients, played, answers, explanations)
        }
        Err((fault, disk)) => {
            let number = refused(alloc, fault, answers, explanations);
            (disk, SessionEnd::Fault(number))
        }
    }
}

/// Does the commands of a script as `session` does, in a mode, and explains faults to a person in `explanations`: the place in the
/// source that was sent, as `check` reports it, or a few words. If such a write fails, the session goes on. The workers pass
/// `gate`, which can show how far a long `add` has got.
pub fn session_and_explain<H, R: Read, W: Write, E: Write, D: Disk + Drop, G>(
    rt: &H,
    alloc: Global,
    mode: Mode,
    reader: &mut R,
    writer: &mut W,
    explanations: &mut E,
    disk: D,
    workers: usize,
    gate: G,
) -> (Option<D>, SessionEnd)
where
    H: Threads + Wait + Copy + Send + 'static,
    G: Gate + Drop + Send + Sync + 'static,
    requires some { 1 ≤ workers }
    requires few { workers ≤ 8 }
    ensures answers { SessionEnds mode D.Disk (R.remaining reader.old) (W.contents writer.old) (W.contents writer.new) disk result.0 result.1 }
{
    let mut script = Reading::new(reader);
    match begin(alloc, disk) {
        Ok(begun) => {
            let (disk, end) = do_script::<Brand, H, &mut R, W, E, D, G>(
                rt,
                alloc,
                mode,
                &mut script,
                begun,
                workers,
                gate,
                writer,
                explanations,
            );
            (Some(disk), end)
        }
        Err((fault, disk)) => {
            let fault = ServiceFault::Opening(fault);
            let number = refused(alloc, fault, writer, explanations);
            (Some(disk), SessionEnd::Fault(number))
        }
    }
}

/// Opens the library on a disk as a service with this many workers, 1 to 8, does the commands of a script with one client, and
/// ends the service.
///
/// The script, a plain one, comes from `reader`; each answer goes to `writer`, which is flushed after it. If the session ends as
/// the script did (`Finished`, or 51 to 53), the writer got the lines of the script's turns, in order, and no other byte. For a
/// call that is refused the fault's line is written, and the session goes on; a fault of the opening, of the script (51 to 54; 54
/// has no line) or of the service's end (39, 40) ends it. The end is the first of these faults, but 39 takes precedence over a
/// fault of the script. The disk is handed back whatever the end is.
///
/// 51 comes only if the script ends within a line's source, 52 only if it has more than 16,777,216 bytes. After each end but 39
/// the library has everything that the client's receipts say. 39 says that a receipt is not in the history, or that other calls
/// are: then the library has some legal history.
pub fn session<H, R: Read, W: Write, D: Disk + Drop>(
    rt: &H,
    alloc: Global,
    reader: &mut R,
    writer: &mut W,
    disk: D,
    workers: usize,
) -> (Option<D>, SessionEnd)
where
    H: Threads + Wait + Copy + Send + 'static,
    requires some { 1 ≤ workers }
    requires few { workers ≤ 8 }
    ensures answers { SessionEnds Plain D.Disk (R.remaining reader.old) (W.contents writer.old) (W.contents writer.new) disk result.0 result.1 }
{
    session_and_explain(
        rt,
        alloc,
        Mode::Plain,
        reader,
        writer,
        &mut io::sink(),
        disk,
        workers,
        NoGate,
    )
}
