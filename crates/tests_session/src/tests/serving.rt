// Many clients at once: the scripts of spools in memory are answered as in a session, whatever the other clients do.

use crate::tests::helpers::{formatted, written_on};
use crate::tests::spools::{
    CLIENTS, Page, Paper, ROOM, SCRIPTS, answers_of, is_right, of_client, page_of, script_of,
    spool_of, spools_of_all, without_numbers,
};
use cc_disk::MemoryDisk;
use cc_link::Mode;
use cc_session::{BOUNDS, NoGate, NoSteward, Served, SessionEnd, serve};
use cc_spool::MemorySpool;
use std::alloc::Global;
use std::io;
use std::sync::Wait;
use std::test::Fail;
use std::thread::Threads;

/// Serves the scripts of these spools once, with two workers.
pub fn served<H>(
    rt: &H,
    alloc: Global,
    spools: Vec<MemorySpool<Paper, Page>>,
    disk: MemoryDisk,
    written: &mut Vec<u8>,
) -> Served<MemoryDisk, MemorySpool<Paper, Page>>
where
    H: Threads + Wait + Copy + Send + Sync + 'static,
{
    serve(
        rt,
        alloc,
        Mode::Plain,
        spools,
        written,
        &mut io::sink(),
        disk,
        2,
        NoGate,
        BOUNDS,
        &mut NoSteward,
    )
}

// What a session answers to the scripts of a client, one after the other.
fn answered_alone<H>(rt: &H, alloc: Global, letter: u8, count: usize) -> Result<Vec<u8>, Fail>
where
    H: Threads + Wait + Copy + Send + 'static,
{
    let mut scripts = Vec::new(alloc);
    for (script, _) in SCRIPTS.iter().take(count) {
        scripts.extend_from_slice(of_client(alloc, script, letter)?.as_slice())?;
    }
    written_on(rt, alloc, scripts.as_slice(), formatted(alloc, 65536)?)
}

#[test]
fn three_clients_with_forty_scripts(rt: HostRuntime) -> Result<(), Fail> {
    let alloc = rt.alloc();
    let spools = spools_of_all(alloc)?;
    let mut written = Vec::new(alloc);
    let left = served(&rt, alloc, spools, formatted(alloc, 65536)?, &mut written);
    assert!(rt; left.end == SessionEnd::Finished && written.is_empty());
    assert!(rt; left.spools.len() == 3);
    for ((letter, count), spool) in CLIENTS.iter().zip(left.spools.as_slice()) {
        let all = answers_of(alloc, spool)?;
        assert!(rt; is_right(alloc, *letter, *count, spool)?, "for {letter}");
        let alone = answered_alone(&rt, alloc, *letter, *count)?;
        assert!(rt; without_numbers(alloc, alone.as_slice())?.as_slice() == all.as_slice());
    }
    // What is left after the forty scripts: what the last script of the first client left.
    let listed = written_on(&rt, alloc, b"list\n", left.disk)?;
    assert!(rt; listed.as_slice() == b"unit a\nok 1\n".as_slice());
    Ok(())
}

/// A script, whether it is torn, and the room for its answer; its answer, and the fault that ends it.
type Case<'a> = (&'a [u8], bool, usize, &'a [u8], Option<u32>);

// Whether the scripts of one client are answered like this, in turn.
fn are_answered<H>(rt: &H, alloc: Global, cases: &[Case<'_>]) -> Result<bool, Fail>
where
    H: Threads + Wait + Copy + Send + Sync + 'static,
{
    let mut scripts = Vec::new(alloc);
    for (script, is_torn, room, _, _) in cases {
        scripts.push((script_of(alloc, script, *is_torn)?, page_of(alloc, *room)))?;
    }
    let mut spools = Vec::new(alloc);
    spools.push(MemorySpool::new(alloc, scripts)?)?;
    let mut written = Vec::new(alloc);
    let left = served(rt, alloc, spools, formatted(alloc, 4096)?, &mut written);
    let Some(spool) = left.spools.as_slice().first() else {
        return Ok(false);
    };
    let mut right = left.end == SessionEnd::Finished && written.is_empty();
    right = right && spool.answered().len() == cases.len();
    for ((_, _, _, lines, fault), done) in cases.iter().zip(spool.answered()) {
        right = right && done.answer.bytes.as_slice() == *lines && done.fault == *fault;
    }
    Ok(right)
}

// 51 or 53 ends only its own script: the next script is answered as if there had been no fault.
#[test]
fn a_fault_ends_its_script_alone(rt: HostRuntime) -> Result<(), Fail> {
    let cases: [Case<'_>; 4] = [
        (
            b"add a 99\nint main(v",
            false,
            ROOM,
            b"fault 51 EndOfScript\n",
            Some(51),
        ),
        (
            b"add a 16\nint main(void){}\n",
            false,
            ROOM,
            b"ok 1\n",
            None,
        ),
        (
            b"list\nadd c 16\nint ma",
            true,
            ROOM,
            b"unit a\nok 2\nfault 53 ReadFault\n",
            Some(53),
        ),
        (b"run a 1000\n", false, ROOM, b"exited 0\n", None),
    ];
    assert!(rt; are_answered(&rt, rt.alloc(), cases.as_slice())?);
    Ok(())
}

// One answer has no room for a line, another none for the line of the fault itself, and others none for an image or a source.
#[test]
fn an_answer_without_room(rt: HostRuntime) -> Result<(), Fail> {
    let refused = b"fault 50 BadLine\n".as_slice();
    let cases: [Case<'_>; 5] = [
        (
            b"add a 16\nint main(void){}\nlist\n",
            false,
            5,
            b"ok 1\n",
            Some(54),
        ),
        (b"add a 99\nint", false, 0, b"", Some(54)),
        (b"hello\nimage a\nlist\n", false, 20, refused, Some(54)),
        (b"hello\nsource a\nlist\n", false, 20, refused, Some(54)),
        (b"list\n", false, ROOM, b"unit a\nok 5\n", None),
    ];
    assert!(rt; are_answered(&rt, rt.alloc(), cases.as_slice())?);
    Ok(())
}

// If no service is opened, no script is taken, and the disk and the spools come back.
#[test]
fn a_disk_that_is_no_library(rt: HostRuntime) -> Result<(), Fail> {
    let alloc = rt.alloc();
    let mut spools = Vec::new(alloc);
    spools.push(spool_of(alloc, b'a', 1)?)?;
    let mut written = Vec::new(alloc);
    let left = served(
        &rt,
        alloc,
        spools,
        MemoryDisk::new(alloc, 64)?,
        &mut written,
    );
    assert!(rt; left.end == SessionEnd::Fault(38));
    assert!(rt; written.as_slice() == b"fault 38 NotALibrary\n".as_slice());
    assert!(rt; left.spools.len() == 1 && left.spools[0].answered().is_empty());
    // The scripts are run on a disk that has a library.
    let left = served(
        &rt,
        alloc,
        left.spools,
        formatted(alloc, 4096)?,
        &mut written,
    );
    assert!(rt; left.end == SessionEnd::Finished && left.spools.len() == 1);
    let done = left.spools[0].answered();
    assert!(rt;
        done.len() == 1 && done[0].answer.bytes.as_slice() == b"ok 1\nexited 0\n".as_slice()
    );
    Ok(())
}

// A service has 1,024 clients. If there are more spools, no script is taken from any.
#[test]
fn more_spools_than_clients(rt: HostRuntime) -> Result<(), Fail> {
    let alloc = rt.alloc();
    let mut spools = Vec::new(alloc);
    for _ in 0..1025 {
        spools.push(spool_of(alloc, b'a', 1)?)?;
    }
    let mut written = Vec::new(alloc);
    let left = served(&rt, alloc, spools, formatted(alloc, 4096)?, &mut written);
    assert!(rt; left.end == SessionEnd::Fault(30));
    assert!(rt; written.as_slice() == b"fault 30 TooManyClients\n".as_slice());
    assert!(rt; left.spools.len() == 1025);
    for spool in left.spools.as_slice() {
        assert!(rt; spool.answered().is_empty());
    }
    Ok(())
}
