// Many clients of one service, each in a thread of its own with the scripts that its spool gives, from the opening of the service
// to its end.
//
// All memory that this needs, except the clients' own, is allocated before the service is opened, so that no client is lost once
// it works. The disk and the spools are handed back, so that another service can go on with them.

ghost use Rattle.std.specs.Prelude.{◌≡◌, ◌≤◌, ℕ, All, List, [], IsTrue, IfOk, IfErr, OnErr, OnOk, map, vec_len};
ghost use Rattle.std.specs.Vec.{vec_capacity};
ghost use Rattle.cc_library.specs.Apply.{Units};
ghost use Rattle.cc_library.specs.Recovered.{Recovers};
ghost use Rattle.cc_service.specs.Client.{members};
ghost use Rattle.cc_service.specs.Fault.{fault_number};
ghost use Rattle.cc_service.specs.Serving.{IsNotStarted};
ghost use Rattle.cc_recorded.specs.Opened.{IsOpened};
ghost use Rattle.cc_recorded.specs.Since.{IsPast};
ghost use Rattle.cc_service.specs.declared.fault.ServiceFault.TheVariants.{TooManyClients};
ghost use Rattle.cc_session.specs.Session.{EndsSince, IsEnded};
ghost use Rattle.cc_session.specs.declared.end.SessionEnd.TheVariants.{Fault, Finished};
ghost use Rattle.cc_session.specs.Spooling.{HasDone, HaveServed, ServingEnds, given_by};

use crate::attending::attend;
use crate::bounds::{Bounds, Meter};
use crate::end::SessionEnd;
use crate::running::{Begun, begin, finish};
use crate::steward::Steward;
use crate::telling::tell_end;
use cc_disk::Disk;
use cc_library::LibraryFault;
use cc_link::Mode;
use cc_service::{Client, Gate, Named, Service, ServiceFault};
use cc_spool::Spool;
use std::alloc::{AllocError, Global};
use std::io::{self, Write};
use std::marker::Brand;
use std::sync::Wait;
use std::thread;
use std::thread::Threads;

// A client with its spool.
#[derive(Drop)]
struct Post<N: Named, S> {
    client: Client<N>,
    spool: S,
}

// Room for the clients and the spools, while they work and afterwards.
#[derive(Drop)]
struct Room<N: Named, S> {
    posts: Vec<Post<N, S>>,
    clients: Vec<Client<N>>,
    spools: Vec<S>,
}

fn room_for<N: Named, S: Drop>(alloc: Global, count: usize) -> Result<Room<N, S>, AllocError>
    ensures posts { IfOk result (λ room. (room.posts.items ≡ []) × (count ≤ vec_capacity room.posts)) }
    ensures clients { IfOk result (λ room. (room.clients.items ≡ []) × (count ≤ vec_capacity room.clients)) }
    ensures spools { IfOk result (λ room. (room.spools.items ≡ []) × (count ≤ vec_capacity room.spools)) }
{
    let posts = Vec::with_capacity(alloc, count)?;
    let clients = Vec::with_capacity(alloc, count)?;
    let spools = Vec::with_capacity(alloc, count)?;
    Ok(Room {
        posts,
        clients,
        spools,
    })
}

// Makes this many clients of a service; 30 if the service does not have that many.
fn hire<N, H, D>(
    rt: &H,
    alloc: Global,
    service: &Service<N, D>,
    count: usize,
    clients: &mut Vec<Client<N>>,
) -> Result<(), ServiceFault>
where
    N: Named + Send + Sync + 'static,
    H: Wait,
    D: Disk,
    requires room { count ≤ vec_capacity clients.old }
    requires none { clients.old.items ≡ [] }
    ensures fresh { All (λ c. c.member.receipts ≡ []) clients.new.items }
    ensures all { OnOk result (vec_len clients.new ≡ count) }
    ensures capacity { vec_capacity clients.new ≡ vec_capacity clients.old }
    ensures refused { IfErr result (λ fault. fault ≡ TooManyClients) }
{
    for _ in 0..count {
        clients.push_reserved(service.client(rt, alloc)?.compacting());
    }
    Ok(())
}

// Pairs each spool with a client of its own.
fn pair<N: Named, S: Drop>(
    clients: &mut Vec<Client<N>>,
    spools: Vec<S>,
    posts: &mut Vec<Post<N, S>>,
)
    requires many { vec_len clients.old ≡ vec_len spools }
    requires fresh { All (λ c. c.member.receipts ≡ []) clients.old.items }
    requires room { vec_len spools ≤ vec_capacity posts.old }
    requires none { posts.old.items ≡ [] }
    ensures spools { map (λ p. p.spool) posts.new.items ≡ spools.items }
    ensures fresh { All (λ p. p.client.member.receipts ≡ []) posts.new.items }
    ensures paired { clients.new.items ≡ [] }
    ensures capacity { vec_capacity clients.new ≡ vec_capacity clients.old }
{
    for spool in spools {
        match clients.pop() {
            Some(client) => posts.push_reserved(Post { client, spool }),
            None => unreachable!(),
        }
    }
}

// Takes the clients and the spools apart.
fn dismiss<N: Named, S: Drop>(
    posts: Vec<Post<N, S>>,
    clients: &mut Vec<Client<N>>,
    spools: &mut Vec<S>,
)
    requires room { vec_len posts ≤ vec_capacity clients.old }
    requires none { clients.old.items ≡ [] }
    requires room_for_spools { vec_len posts ≤ vec_capacity spools.old }
    requires no_spools { spools.old.items ≡ [] }
    ensures clients { clients.new.items ≡ map (λ p. p.client) posts.items }
    ensures spools { spools.new.items ≡ map (λ p. p.spool) posts.items }
{
    for post in posts {
        let Post { client, spool } = post;
        clients.push_reserved(client);
        spools.push_reserved(spool);
    }
}

// Makes a client for each spool and pairs the two. If the service has too few clients, the spools are handed back.
fn staff<N, H, S, D>(
    rt: &H,
    alloc: Global,
    service: &Service<N, D>,
    spools: Vec<S>,
    room: &mut Room<N, S>,
) -> Result<(), Vec<S>>
where
    N: Named + Send + Sync + 'static,
    H: Wait,
    S: Drop,
    D: Disk,
    requires posts { (room.old.posts.items ≡ []) × (vec_len spools ≤ vec_capacity room.old.posts) }
    requires clients { (room.old.clients.items ≡ []) × (vec_len spools ≤ vec_capacity room.old.clients) }
    requires spools { (room.old.spools.items ≡ []) × (vec_len spools ≤ vec_capacity room.old.spools) }
    ensures paired { OnOk result (map (λ p. p.spool) room.new.posts.items ≡ spools.items) }
    ensures fresh { OnOk result (All (λ p. p.client.member.receipts ≡ []) room.new.posts.items) }
    ensures clients { OnOk result ((room.new.clients.items ≡ []) × (vec_len room.new.posts ≤ vec_capacity room.new.clients)) }
    ensures spools { OnOk result ((room.new.spools.items ≡ []) × (vec_len room.new.posts ≤ vec_capacity room.new.spools)) }
    ensures back { IfErr result (λ left. left ≡ spools) }
    ensures unused { OnErr result (All (λ c. c.member.receipts ≡ []) room.new.clients.items) }
{
    match hire(rt, alloc, service, spools.len(), &mut room.clients) {
        Ok(()) => {
            pair(&mut room.clients, spools, &mut room.posts);
            Ok(())
        }
        Err(fault) => {
            drop(fault);
            Err(spools)
        }
    }
}

// What is left when the clients have ended their work: the clients, their spools, and how the work ended.
#[derive(Drop)]
struct Worked<N: Named, S> {
    clients: Vec<Client<N>>,
    spools: Vec<S>,
    end: SessionEnd,
}

// What is left when all clients have done their work.
fn done<N: Named, S: Drop>(room: Room<N, S>) -> Worked<N, S>
    requires clients { (room.clients.items ≡ []) × (vec_len room.posts ≤ vec_capacity room.clients) }
    requires spools { (room.spools.items ≡ []) × (vec_len room.posts ≤ vec_capacity room.spools) }
    ensures clients { result.clients.items ≡ map (λ p. p.client) room.posts.items }
    ensures spools { result.spools.items ≡ map (λ p. p.spool) room.posts.items }
    ensures end { result.end ≡ Finished }
{
    let Room {
        posts,
        mut clients,
        mut spools,
    } = room;
    dismiss(posts, &mut clients, &mut spools);
    Worked {
        clients,
        spools,
        end: SessionEnd::Finished,
    }
}

// What is left if the service had too few clients: 30.
fn unhired<N: Named, S: Drop>(spools: Vec<S>, room: Room<N, S>) -> Worked<N, S>
    ensures clients { result.clients ≡ room.clients }
    ensures spools { result.spools ≡ spools }
    ensures end { result.end ≡ Fault (fault_number TooManyClients) }
{
    let Room { clients, .. } = room;
    Worked {
        clients,
        spools,
        end: SessionEnd::Fault(ServiceFault::TooManyClients.number()),
    }
}

/// What serving hands back: the disk; the spools, in order; and how serving ended.
#[derive(Drop)]
pub struct Served<D: Drop, S: Drop> {
    pub disk: D,
    pub spools: Vec<S>,
    pub end: SessionEnd,
}

// What serving hands back if no service was opened, for this reason.
fn unserved<S: Spool + Drop, D: Disk + Drop>(
    spools: Vec<S>,
    disk: D,
    fault: ServiceFault,
) -> Served<D, S>
    ensures disk { result.disk ≡ disk }
    ensures spools { result.spools ≡ spools }
    ensures end { result.end ≡ Fault (fault_number fault) }
{
    let number = fault.number();
    drop(fault);
    Served {
        disk,
        spools,
        end: SessionEnd::Fault(number),
    }
}

// Ends a service whose clients have done this work, and reports that to the steward if scripts were taken.
fn end_service<N, H, S, E, D, T>(
    rt: &H,
    alloc: Global,
    service: Service<N, D>,
    worked: Worked<N, S>,
    meter: &Meter,
    steward: &mut T,
    explanations: &mut E,
) -> Served<D, S>
where
    N: Named + Send + Sync + 'static,
    H: Wait,
    S: Spool + Drop,
    E: Write,
    D: Disk + Drop,
    T: Steward,
    // The clause holds for any bytes that recover to the map that the service's type names.
    ensures ended { (bytes : List ℕ) → (IsTrue D.honest → Recovers bytes N.base)
        → IsEnded D.Disk N.failures bytes N.from N.left (members worked.clients.items) worked.end result.end result.disk }
    ensures spools { result.spools ≡ worked.spools }
{
    let Worked {
        clients,
        spools,
        end: worked,
    } = worked;
    let (disk, end) = finish(
        rt,
        alloc,
        service,
        clients,
        worked,
        &mut io::sink(),
        &mut io::sink(),
    );
    if worked == SessionEnd::Finished {
        steward.ended(meter.generation(end), explanations);
    }
    Served { disk, spools, end }
}

// Opens a service, with room for this many clients and spools.
fn open_service<N, H, S, D, G>(
    rt: &H,
    alloc: Global,
    begun: Begun<D>,
    count: usize,
    workers: usize,
    gate: G,
) -> Result<(Service<N, D>, Room<N, S>), (ServiceFault, D)>
where
    N: Named + Send + Sync + 'static,
    H: Threads + Wait + Copy + Send + 'static,
    S: Drop,
    D: Disk + Drop,
    G: Gate + Drop + Send + Sync + 'static,
    requires ledger { begun.fresh.ledger ≡ N.name }
    requires parts { N.parts ≡ 1025 }
    requires queue { begun.fresh.queue ≡ N.queue }
    requires opened { IsOpened D.Disk begun.library }
    requires named { IsTrue D.honest → begun.library.units ≡ N.base }
    requires past { IsTrue D.honest → IsPast D.Disk N.from N.left begun.library.disk }
    requires failures { N.failures ≡ D.failures begun.library.disk }
    requires some { 1 ≤ workers }
    requires few { workers ≤ 8 }
    ensures posts { IfOk result (λ r. (r.1.posts.items ≡ []) × (count ≤ vec_capacity r.1.posts)) }
    ensures clients { IfOk result (λ r. (r.1.clients.items ≡ []) × (count ≤ vec_capacity r.1.clients)) }
    ensures spools { IfOk result (λ r. (r.1.spools.items ≡ []) × (count ≤ vec_capacity r.1.spools)) }
    ensures refused { IfErr result (λ e. IsNotStarted e.0) }
    ensures back { IfErr result (λ e. e.1 ≡ begun.library.disk) }
{
    let Begun {
        library,
        before: _,
        fresh,
    } = begun;
    let Ok(room) = room_for(alloc, count) else {
        drop(fresh);
        return Err((ServiceFault::OutOfMemory, library.into_disk()));
    };
    match Service::<N, D>::over(rt, alloc, fresh, library, workers, gate) {
        Ok(service) => Ok((service, room)),
        Err(refused) => {
            drop(room);
            Err(refused)
        }
    }
}

// Opens a service with a client for each spool, which runs the spool's scripts, in a thread of its own if one can be made;
// clients for which no thread can be made begin when others have ended. If the service has too few clients, nothing is run. Then
// the service is ended.
fn serve_begun<N, H, S, E, D, G, T>(
    rt: &H,
    alloc: Global,
    mode: Mode,
    begun: Begun<D>,
    spools: Vec<S>,
    workers: usize,
    gate: G,
    bounds: Bounds,
    steward: &mut T,
    explanations: &mut E,
) -> Served<D, S>
where
    N: Named + Send + Sync + 'static,
    H: Threads + Wait + Copy + Send + Sync + 'static,
    S: Spool + Send + Drop,
    E: Write,
    D: Disk + Send + Drop,
    G: Gate + Drop + Send + Sync + 'static,
    T: Steward,
    requires ledger { begun.fresh.ledger ≡ N.name }
    requires parts { N.parts ≡ 1025 }
    requires queue { begun.fresh.queue ≡ N.queue }
    requires opened { IsOpened D.Disk begun.library }
    requires recovered { IsTrue D.honest → Recovers (D.seen begun.library.disk) begun.library.units }
    requires named { IsTrue D.honest → begun.library.units ≡ N.base }
    requires past { IsTrue D.honest → IsPast D.Disk N.from N.left begun.library.disk }
    requires failures { N.failures ≡ D.failures begun.library.disk }
    requires some { 1 ≤ workers }
    requires few { workers ≤ 8 }
    ensures { let before = map (given_by S.taken S.ended) spools.items in let after = map (given_by S.taken S.ended) result.spools.items in
        EndsSince D.Disk N.from N.left (after ≡ before) (HaveServed mode before after) begun.library.disk result.disk result.end }
{
    match open_service::<N, H, S, D, G>(rt, alloc, begun, spools.len(), workers, gate) {
        Ok((service, mut room)) => {
            let meter = Meter::new(bounds);
            match staff(rt, alloc, &service, spools, &mut room) {
                Ok(()) => {
                    steward.opened(explanations);
                    let count = room.posts.len().max(1);
                    thread::for_each_mut(
                        rt,
                        room.posts.as_mut_slice(),
                        count,
                        &|_: usize, post: &mut Post<N, S>|
                            ensures { HasDone mode (given_by S.taken S.ended post.entry.now.spool) post.entry.now.client.member (given_by S.taken S.ended post.exit.now.spool) post.exit.now.client.member }
                        {
                            attend(
                                rt,
                                alloc,
                                mode,
                                &service,
                                &mut post.client,
                                &mut post.spool,
                                &meter,
                            )
                        },
                    );
                    let worked = done(room);
                    end_service(rt, alloc, service, worked, &meter, steward, explanations)
                }
                Err(spools) => {
                    let worked = unhired(spools, room);
                    end_service(rt, alloc, service, worked, &meter, steward, explanations)
                }
            }
        }
        Err((fault, disk)) => unserved(spools, disk, fault),
    }
}

// Serves as `serve` does, but writes no line for a fault.
pub(crate) fn serve_quietly<H, S, E, D, G, T>(
    rt: &H,
    alloc: Global,
    mode: Mode,
    spools: Vec<S>,
    explanations: &mut E,
    disk: D,
    workers: usize,
    gate: G,
    bounds: Bounds,
    steward: &mut T,
) -> Served<D, S>
where
    H: Threads + Wait + Copy + Send + Sync + 'static,
    S: Spool + Send + Drop,
    E: Write,
    D: Disk + Send + Drop,
    G: Gate + Drop + Send + Sync + 'static,
    T: Steward,
    requires some { 1 ≤ workers }
    requires few { workers ≤ 8 }
    ensures answers { ServingEnds mode D.Disk
        (map (given_by S.taken S.ended) spools.items) (map (given_by S.taken S.ended) result.spools.items) disk result.disk result.end }
{
    match begin(alloc, disk) {
        Ok(begun) => serve_begun::<Brand, H, S, E, D, G, T>(
            rt,
            alloc,
            mode,
            begun,
            spools,
            workers,
            gate,
            bounds,
            steward,
            explanations,
        ),
        Err((fault, disk)) => unserved(spools, disk, ServiceFault::Opening(fault)),
    }
}

/// Opens the library on a disk as a service with this many workers, 1 to 8, and a client for each spool, at most 1,024. Each
/// client runs the scripts that its spool gives in a mode, one after another, until the spool is over or the clients together
/// have done as much as `bounds` says; then the service is ended. Each client does so in a thread of its own if one can be made;
/// clients for which no thread can be made begin when others have ended. The workers pass `gate`, which can show how far a long
/// `add` has got. `steward` is called when scripts are taken and, if they were, with how the service ended.
///
/// At most 65,536 lines of each script are done, and none after those whose receipts hold more than 256 MiB; if a script has more,
/// its answer ends with the line for 52. A script that has run for long and is not at its end ends with 61 after its current line,
/// or within a `run`, if others wait (`is_long`, `is_awaited`) or the bounds are reached. A fault that ends a script, 51 to 54 or
/// 61, ends only that script: its answer is handed over with the fault's number, and the next is taken. The line of the fault is
/// the answer's last, but 54 has no line: the spool decides what becomes of an answer that can't be written.
///
/// The line for a fault of the opening (35, 37, 38, 40, 41; 30 if there are too many spools) or of the end (39, 40) goes to
/// `writer`, and its explanation for a person to `explanations`. `end` is the first of these faults, or 39, and its line is
/// written. A fault that ends a script is reported only in the script's answer. The disk and the spools are handed back after any
/// fault.
pub fn serve<H, S, W, E, D, G, T>(
    rt: &H,
    alloc: Global,
    mode: Mode,
    spools: Vec<S>,
    writer: &mut W,
    explanations: &mut E,
    disk: D,
    workers: usize,
    gate: G,
    bounds: Bounds,
    steward: &mut T,
) -> Served<D, S>
where
    H: Threads + Wait + Copy + Send + Sync + 'static,
    S: Spool + Send + Drop,
    W: Write,
    E: Write,
    D: Disk + Send + Drop,
    G: Gate + Drop + Send + Sync + 'static,
    T: Steward,
    requires some { 1 ≤ workers }
    requires few { workers ≤ 8 }
    ensures answers { ServingEnds mode D.Disk
        (map (given_by S.taken S.ended) spools.items) (map (given_by S.taken S.ended) result.spools.items) disk result.disk result.end }
    // If no fault ended serving, nothing is written.
    ensures still { result.end ≡ Finished → W.contents writer.new ≡ W.contents writer.old }
{
    let left = serve_quietly(
        rt,
        alloc,
        mode,
        spools,
        explanations,
        disk,
        workers,
        gate,
        bounds,
        steward,
    );
    tell_end(alloc, left.end, writer, explanations);
    left
}
