// One service after the other: each ends when its bounds are reached, and the next goes on with the disk and the spools that it
// left.

use crate::tests::helpers::{formatted, written_on};
use crate::tests::spools::{
    CLIENTS, Page, Paper, ROOM, is_right, page_of, script_of, spools_of_all,
};
use cc_disk::{Disk, FuseDisk, FuseMode, MemoryDisk};
use cc_link::Mode;
use cc_session::{Bounds, Generation, GenerationEnd, Meter, Served, SessionEnd, Steward, serve_on};
use cc_spool::MemorySpool;
use std::alloc::{AllocError, Global};
use std::io::Write;
use std::rt::Clock;
use std::sync::Wait;
use std::test::Fail;
use std::thread::Threads;

// A bound that nothing reaches.
const NEVER: u64 = u64::MAX;

// A generation ends only after this many scripts.
fn by_scripts(scripts: u64) -> Bounds {
    Bounds {
        ends: NEVER,
        most: NEVER,
        scripts,
    }
}

// A generation ends only at these two bounds on its bytes.
fn by_bytes(ends: u64, most: u64) -> Bounds {
    Bounds {
        ends,
        most,
        scripts: NEVER,
    }
}

/// A steward that keeps what is reported to it, and writes a line each time.
#[derive(Drop)]
struct Keeper {
    opened: usize,
    ended: Vec<Generation>,
}

impl Steward for Keeper {
    fn opened<E: Write>(&mut self, told: &mut E) {
        self.opened = self.opened.saturating_add(1);
        let _ = writeln!(told, "opened");
    }

    fn ended<E: Write>(&mut self, generation: Generation, told: &mut E) {
        let _ = self.ended.push(generation);
        let _ = writeln!(told, "ended");
    }
}

/// What serving left (the disk, the spools and the end), what was reported of its generations, and what was written.
#[derive(Drop)]
struct Told<D: Drop> {
    left: Served<D, MemorySpool<Paper, Page>>,
    generations: Vec<Generation>,
    opened: usize,
    written: Vec<u8>,
    told: Vec<u8>,
}

fn served_on<H, D: Disk + Send + Drop>(
    rt: &H,
    alloc: Global,
    spools: Vec<MemorySpool<Paper, Page>>,
    disk: D,
    bounds: Bounds,
) -> Told<D>
where
    H: Threads + Wait + Clock + Copy + Send + Sync + 'static,
{
    let mut keeper = Keeper {
        opened: 0,
        ended: Vec::new(alloc),
    };
    let mut written = Vec::new(alloc);
    let mut told = Vec::new(alloc);
    let left = serve_on(
        rt,
        alloc,
        Mode::Plain,
        spools,
        &mut written,
        &mut told,
        disk,
        2,
        bounds,
        &mut keeper,
    );
    let Keeper { opened, ended } = keeper;
    Told {
        left,
        generations: ended,
        opened,
        written,
        told,
    }
}

fn served_in_memory<H>(
    rt: &H,
    alloc: Global,
    spools: Vec<MemorySpool<Paper, Page>>,
    area: u32,
    bounds: Bounds,
) -> Result<Told<MemoryDisk>, Fail>
where
    H: Threads + Wait + Clock + Copy + Send + Sync + 'static,
{
    let disk = formatted(alloc, area)?;
    Ok(served_on(rt, alloc, spools, disk, bounds))
}

// What serving leaves on a disk that fails for good after this many calls.
fn served_until<H>(
    rt: &H,
    alloc: Global,
    spools: Vec<MemorySpool<Paper, Page>>,
    passes: u64,
    bounds: Bounds,
) -> Result<Told<FuseDisk<MemoryDisk>>, Fail>
where
    H: Threads + Wait + Clock + Copy + Send + Sync + 'static,
{
    let disk = FuseDisk::new(formatted(alloc, 4096)?, passes, FuseMode::Before);
    Ok(served_on(rt, alloc, spools, disk, bounds))
}

// One spool with these scripts.
fn one_spool(
    alloc: Global,
    scripts: &[&[u8]],
) -> Result<Vec<MemorySpool<Paper, Page>>, AllocError> {
    let mut all = Vec::new(alloc);
    for script in scripts {
        all.push((script_of(alloc, script, false)?, page_of(alloc, ROOM)))?;
    }
    let mut spools = Vec::new(alloc);
    spools.push(MemorySpool::new(alloc, all)?)?;
    Ok(spools)
}

// Whether the scripts of the first spool were answered with these lines.
fn are_lines(spools: &[MemorySpool<Paper, Page>], lines: &[&[u8]]) -> bool {
    let Some(spool) = spools.first() else {
        return false;
    };
    let mut right = spool.answered().len() == lines.len();
    for (done, wanted) in spool.answered().iter().zip(lines) {
        right = right && done.fault.is_none() && done.answer.bytes.as_slice() == *wanted;
    }
    right
}

// A generation whose service ended well.
fn ended_well(scripts: u64, entries: u64, bytes: u64, why: GenerationEnd) -> Generation {
    Generation {
        scripts,
        entries,
        bytes,
        why,
        end: SessionEnd::Finished,
    }
}

// Three calls are counted as 768 bytes. At that bound the next script is run by the next generation, in which numbers begin at
// 1.
#[test]
fn generations_that_end_by_bytes(rt: HostRuntime) -> Result<(), Fail> {
    let alloc = rt.alloc();
    let scripts = [b"list\nlist\nwithdraw x\n".as_slice(), b"list\n".as_slice()];
    let first = b"ok 1\nok 2\nfault 32 Absent\n".as_slice();
    for (ends, most) in [(768, NEVER), (NEVER, 768)] {
        let spools = one_spool(alloc, scripts.as_slice())?;
        let done = served_in_memory(&rt, alloc, spools, 4096, by_bytes(ends, most))?;
        assert!(rt; done.left.end == SessionEnd::Finished && done.written.is_empty());
        assert!(rt;
            are_lines(
                done.left.spools.as_slice(),
                [first, b"ok 1\n".as_slice()].as_slice()
            )
        );
        let wanted = [
            ended_well(1, 3, 768, GenerationEnd::Bytes),
            ended_well(1, 1, 256, GenerationEnd::Over),
        ];
        assert!(rt; done.generations.as_slice() == wanted.as_slice() && done.opened == 2);
        let told = b"opened\nended\nopened\nended\n".as_slice();
        assert!(rt; done.told.as_slice() == told);
    }
    // If the bound is one byte higher, there is one generation.
    let spools = one_spool(alloc, scripts.as_slice())?;
    let done = served_in_memory(&rt, alloc, spools, 4096, by_bytes(769, 769))?;
    assert!(rt;
        are_lines(
            done.left.spools.as_slice(),
            [first, b"ok 4\n".as_slice()].as_slice()
        )
    );
    assert!(rt;
        done.generations.as_slice() == [ended_well(2, 4, 1024, GenerationEnd::Over)].as_slice()
    );
    Ok(())
}

// A list counts its names; a change counts its unit, whether it is made or refused.
#[test]
fn what_a_generation_counts(rt: HostRuntime) -> Result<(), Fail> {
    let alloc = rt.alloc();
    let scripts = [
        b"add a 16\nint main(void){}\n".as_slice(),
        b"add a 16\nint main(void){}\n".as_slice(),
        b"list\n".as_slice(),
        b"run a 9\n".as_slice(),
        b"withdraw a\n".as_slice(),
    ];
    let spools = one_spool(alloc, scripts.as_slice())?;
    let done = served_in_memory(&rt, alloc, spools, 4096, by_scripts(1))?;
    let told = done.generations.as_slice();
    assert!(rt; done.left.end == SessionEnd::Finished && told.len() == 5);
    // The bytes are 256, the 16 bytes of the source, and what was compiled from it.
    let bytes = told[0].bytes;
    assert!(rt; 256 + 16 < bytes && bytes < 4096);
    assert!(rt; told[0] == ended_well(1, 1, bytes, GenerationEnd::Scripts));
    assert!(rt; told[1] == ended_well(1, 1, bytes, GenerationEnd::Scripts));
    assert!(rt; told[2] == ended_well(1, 1, 256 + 48, GenerationEnd::Scripts));
    assert!(rt; told[3] == ended_well(1, 1, 256, GenerationEnd::Scripts));
    assert!(rt; told[4] == ended_well(1, 1, 256, GenerationEnd::Over));
    Ok(())
}

// While a script is being run, a generation goes on at the lower bound of bytes, and ends at the upper one and after its
// scripts. Once it was found to be at its end, it does not go on.
#[test]
fn a_meter_that_clients_share(rt: HostRuntime) -> Result<(), Fail> {
    let bounds = Bounds {
        ends: 10,
        most: 20,
        scripts: 4,
    };
    let meter = Meter::new(bounds);
    assert!(rt; !meter.is_full());
    meter.begin_script();
    meter.begin_script();
    meter.end_script(1, 10);
    assert!(rt; !meter.is_full());
    meter.end_script(1, 0);
    assert!(rt; meter.is_full());
    meter.begin_script();
    assert!(rt; meter.is_full());
    let meter = Meter::new(bounds);
    meter.begin_script();
    meter.begin_script();
    meter.end_script(1, 19);
    assert!(rt; !meter.is_full());
    meter.begin_script();
    meter.end_script(1, 1);
    assert!(rt; meter.is_full());
    let meter = Meter::new(bounds);
    for _ in 0..3 {
        meter.begin_script();
    }
    assert!(rt; !meter.is_full());
    meter.begin_script();
    assert!(rt; meter.is_full());
    Ok(())
}

// The calls of one script may hold 256 MiB. How much one of them holds is known from the first generation. The last line of a
// script may exceed the bound, and after a line that did so no further one is begun.
#[test]
fn a_history_that_is_too_long(rt: HostRuntime) -> Result<(), Fail> {
    let alloc = rt.alloc();
    let line = b"replace a 29\nint a[65536];int main(void){}\n".as_slice();
    let spools = one_spool(alloc, [line].as_slice())?;
    let done = served_in_memory(&rt, alloc, spools, 4096, by_scripts(1))?;
    let Some(first) = done.generations.as_slice().first() else {
        return Err(Fail::from("no generation"));
    };
    // The table by itself is 262,144 bytes.
    assert!(rt; 262_144 < first.bytes && first.bytes < 264_000);
    let count = (268_435_456 / first.bytes).saturating_add(1) as usize;
    let refusals = b"fault 32 Absent\n".repeat(alloc, count)?;
    for (more, fault) in [(0usize, None), (1, Some(52))] {
        let script = line.repeat(alloc, count.saturating_add(more))?;
        let spools = one_spool(alloc, [script.as_slice()].as_slice())?;
        let done = served_in_memory(&rt, alloc, spools, 4096, by_scripts(1))?;
        let mut lines = Vec::from_slice(alloc, refusals.as_slice())?;
        if more > 0 {
            lines.extend_from_slice(b"fault 52 ScriptTooLong\n")?;
        }
        let Some(spool) = done.left.spools.as_slice().first() else {
            return Err(Fail::from("no spool"));
        };
        let answered = spool.answered();
        assert!(rt; answered.len() == 1 && answered[0].fault == fault);
        assert!(rt; answered[0].answer.bytes.as_slice() == lines.as_slice());
    }
    Ok(())
}

// After two scripts no further one is taken; even if the bound is 0, each generation runs one script.
#[test]
fn generations_that_end_by_scripts(rt: HostRuntime) -> Result<(), Fail> {
    let alloc = rt.alloc();
    let scripts = [b"list\n".as_slice(); 5];
    let spools = one_spool(alloc, scripts.as_slice())?;
    let done = served_in_memory(&rt, alloc, spools, 4096, by_scripts(2))?;
    let one = b"ok 1\n".as_slice();
    let next = b"ok 2\n".as_slice();
    assert!(rt;
        are_lines(
            done.left.spools.as_slice(),
            [one, next, one, next, one].as_slice()
        )
    );
    let wanted = [
        ended_well(2, 2, 512, GenerationEnd::Scripts),
        ended_well(2, 2, 512, GenerationEnd::Scripts),
        ended_well(1, 1, 256, GenerationEnd::Over),
    ];
    assert!(rt; done.generations.as_slice() == wanted.as_slice());
    let none = Bounds {
        ends: 0,
        most: 0,
        scripts: 0,
    };
    let spools = one_spool(alloc, scripts.as_slice())?;
    let done = served_in_memory(&rt, alloc, spools, 4096, none)?;
    assert!(rt; are_lines(done.left.spools.as_slice(), [one; 5].as_slice()));
    assert!(rt; done.generations.len() == 5 && done.opened == 5);
    Ok(())
}

// Forty scripts of three clients, ten in a generation; each client that was waiting at its end may have taken one more. All are
// answered as always.
#[test]
fn three_clients_over_four_generations(rt: HostRuntime) -> Result<(), Fail> {
    let alloc = rt.alloc();
    let spools = spools_of_all(alloc)?;
    let Told {
        left,
        generations,
        opened,
        written,
        ..
    } = served_in_memory(&rt, alloc, spools, 65536, by_scripts(10))?;
    assert!(rt; left.end == SessionEnd::Finished && written.is_empty());
    for ((letter, count), spool) in CLIENTS.iter().zip(left.spools.as_slice()) {
        assert!(rt; is_right(alloc, *letter, *count, spool)?, "for {letter}");
    }
    assert!(rt; generations.len() == 4 && opened == 4);
    let mut scripts = 0u64;
    for generation in generations.as_slice() {
        assert!(rt; 1 <= generation.scripts && generation.scripts <= 12);
        scripts = scripts.saturating_add(generation.scripts);
    }
    assert!(rt; scripts == 40);
    let listed = written_on(&rt, alloc, b"list\n", left.disk)?;
    assert!(rt; listed.as_slice() == b"unit a\nok 1\n".as_slice());
    Ok(())
}

// If the disk that one generation left can't be opened, serving ends with that fault; what was acknowledged is on the disk.
#[test]
fn a_disk_that_fails_in_a_later_generation(rt: HostRuntime) -> Result<(), Fail> {
    let alloc = rt.alloc();
    let scripts = [
        b"add a 16\nint main(void){}\n".as_slice(),
        b"add b 16\nint main(void){}\n".as_slice(),
        b"add c 16\nint main(void){}\n".as_slice(),
    ];
    let mut in_second = 0u32;
    for passes in 3..14 {
        let spools = one_spool(alloc, scripts.as_slice())?;
        let done = served_until(&rt, alloc, spools, passes, by_scripts(1))?;
        assert!(rt; done.left.end == SessionEnd::Fault(35));
        assert!(rt; done.written.as_slice() == b"fault 35 DiskFault\n".as_slice());
        assert!(rt; done.opened == done.generations.len());
        let Served { disk, spools, .. } = done.left;
        let Some(spool) = spools.as_slice().first() else {
            return Err(Fail::from("no spool"));
        };
        let answered = spool.answered();
        // The script whose change failed was the last one.
        let mut units = 0usize;
        let mut failed = 0u32;
        for answer in answered {
            match answer.answer.bytes.as_slice() {
                b"ok 1\n" => units = units.saturating_add(1),
                b"fault 35 DiskFault\n" => failed = failed.saturating_add(1),
                _ => return Err(Fail::from("another answer")),
            }
        }
        assert!(rt; failed <= 1 && answered.len() == done.generations.len());
        if units == 1 {
            in_second = in_second.saturating_add(1);
        }
        let listed = written_on(&rt, alloc, b"list\n", disk.into_disk())?;
        let names = [
            b"ok 1\n".as_slice(),
            b"unit a\nok 1\n".as_slice(),
            b"unit a\nunit b\nok 1\n".as_slice(),
        ];
        // A change that failed may be on the disk.
        let is_here = names.get(units) == Some(&listed.as_slice());
        let is_more = failed == 1 && names.get(units.saturating_add(1)) == Some(&listed.as_slice());
        assert!(rt; is_here || is_more);
    }
    assert!(rt; 1 <= in_second);
    Ok(())
}
