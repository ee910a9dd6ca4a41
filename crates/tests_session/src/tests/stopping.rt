// Scripts that have been at work for long while others wait: they end after the line at work, or within a run.

use crate::tests::helpers::formatted;
use crate::tests::spools::{Page, Paper, ROOM, page_of, script_of};
use cc_link::Mode;
use cc_session::{Bounds, NoGate, NoSteward, SessionEnd, serve};
use cc_spool::MemorySpool;
use std::alloc::{AllocError, Global};
use std::io;
use std::sync::Wait;
use std::test::Fail;
use std::thread::Threads;

// One spool with these scripts, and what it answers when it is asked whether its script has been at work for long, and whether
// others wait.
fn spool_of(
    alloc: Global,
    scripts: &[&str],
    is_long: bool,
    is_awaited: bool,
) -> Result<Vec<MemorySpool<Paper, Page>>, AllocError> {
    let mut all = Vec::new(alloc);
    for script in scripts {
        all.push((
            script_of(alloc, script.as_bytes(), false)?,
            page_of(alloc, ROOM),
        ))?;
    }
    let mut spool = MemorySpool::new(alloc, all)?;
    spool.set_awaited(is_long, is_awaited);
    let mut spools = Vec::new(alloc);
    spools.push(spool)?;
    Ok(spools)
}

/// A script, its answer, and the fault that ends it.
type Case = (&'static str, &'static str, Option<u32>);

// Whether these scripts of one client are answered like this, in a generation that takes `scripts` of them.
fn are_answered<H>(
    rt: &H,
    alloc: Global,
    cases: &[Case],
    is_long: bool,
    is_awaited: bool,
    scripts: u64,
) -> Result<bool, Fail>
where
    H: Threads + Wait + Copy + Send + Sync + 'static,
{
    let mut texts = Vec::new(alloc);
    for (script, _, _) in cases {
        texts.push(*script)?;
    }
    let bounds = Bounds {
        ends: u64::MAX,
        most: u64::MAX,
        scripts,
    };
    let left = serve(
        rt,
        alloc,
        Mode::Plain,
        spool_of(alloc, texts.as_slice(), is_long, is_awaited)?,
        &mut io::sink(),
        &mut io::sink(),
        formatted(alloc, 4096)?,
        1,
        NoGate,
        bounds,
        &mut NoSteward,
    );
    let Some(spool) = left.spools.as_slice().first() else {
        return Ok(false);
    };
    let mut right = left.end == SessionEnd::Finished && spool.answered().len() == cases.len();
    for ((_, lines, fault), done) in cases.iter().zip(spool.answered()) {
        right = right && done.answer.bytes.as_slice() == lines.as_bytes() && done.fault == *fault;
    }
    Ok(right)
}

// The last line of a script is run, an empty script has no line, and a line that can't be run counts as one.
static LINES: [Case; 4] = [
    ("list\nlist\nlist\n", "ok 1\nfault 61 Stopped\n", Some(61)),
    ("list\n", "ok 2\n", None),
    ("", "", None),
    (
        "hello\nwithdraw a\n",
        "fault 50 BadLine\nfault 61 Stopped\n",
        Some(61),
    ),
];

// Scripts are run to their end if nobody waits, or if none has been at work for long.
static WHOLE: [Case; 2] = [
    ("list\nlist\nlist\n", "ok 1\nok 2\nok 3\n", None),
    (
        "hello\nwithdraw a\n",
        "fault 50 BadLine\nfault 32 Absent\n",
        None,
    ),
];

#[test]
fn scripts_that_end_behind_a_line(rt: HostRuntime) -> Result<(), Fail> {
    let alloc = rt.alloc();
    assert!(rt; are_answered(&rt, alloc, LINES.as_slice(), true, true, 9)?);
    assert!(rt; are_answered(&rt, alloc, WHOLE.as_slice(), true, false, 9)?);
    assert!(rt; are_answered(&rt, alloc, WHOLE.as_slice(), false, true, 9)?);
    // The generation is to end: it has taken its last script.
    assert!(rt; are_answered(&rt, alloc, &LINES[..1], true, false, 1)?);
    Ok(())
}

// What is added, and how it runs: `a` never ends, `b` ends at once, and `c` needs more than 1,000,000 instructions for the sum
// of the numbers below 2,000,000, which is 1,999,999,000,000, or -1,455,759,936 as a word.
static RUNS: [Case; 7] = [
    ("add a 26\nint main(void){while(1){}}\n", "ok 1\n", None),
    ("add b 16\nint main(void){}\n", "ok 2\n", None),
    (
        "add c 82\nint main(void){int i;int s=0;for(i=0;i<2000000;i++){s+=i;}write_word(s);return 7;}\n",
        "ok 3\n",
        None,
    ),
    ("run a 25000000\n", "going\n", None),
    ("run b 25000000\n", "exited 0\n", None),
    ("run c 25000000\n", "-1455759936\nexited 7\n", None),
    (
        "run a 10000001\nlist\n",
        "going\nunit a\nunit b\nunit c\nok 8\n",
        None,
    ),
];

// If others wait, a run that is not at its end is cut off after 1,000,000 instructions. Its unit was fetched, and no part of
// its output is written.
static CUTS: [Case; 8] = [
    ("add a 26\nint main(void){while(1){}}\n", "ok 1\n", None),
    ("add b 16\nint main(void){}\n", "ok 2\n", None),
    (
        "add c 82\nint main(void){int i;int s=0;for(i=0;i<2000000;i++){s+=i;}write_word(s);return 7;}\n",
        "ok 3\n",
        None,
    ),
    ("run a 1000000\n", "going\n", None),
    ("run a 1000001\n", "fault 61 Stopped\n", Some(61)),
    ("run b 25000000\n", "exited 0\n", None),
    ("run c 25000000\nlist\n", "fault 61 Stopped\n", Some(61)),
    ("list\n", "unit a\nunit b\nunit c\nok 8\n", None),
];

#[test]
fn runs_in_slices(rt: HostRuntime) -> Result<(), Fail> {
    let alloc = rt.alloc();
    assert!(rt; are_answered(&rt, alloc, RUNS.as_slice(), true, false, 9)?);
    assert!(rt; are_answered(&rt, alloc, CUTS.as_slice(), true, true, 9)?);
    Ok(())
}
