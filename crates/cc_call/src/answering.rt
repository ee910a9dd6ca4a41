// What the command `call` writes, and its status. What is explained to a person is left to the caller, but for the lines of an input.

ghost use Rattle.std.specs.Prelude.{◌≡◌, ℕ, Bool, false, true, IfErr, IfOk, IfSome, IsOk, IsTrue};
ghost use Rattle.std.specs.Arc.{arc_value};
ghost use Rattle.std.specs.Io.KnownBytes.{Keeps};
ghost use Rattle.cc_tasks.specs.Part.{IsNoPartOn};
ghost use Rattle.cc_call.specs.Answered.{AnswersLive, AnswersTheLines, CallsImage, CallsLinesOn, CallsLiveOn, CallsOn, IsAnswer};
ghost use Rattle.cc_call.specs.Call.{IsUnitOn};

use crate::calling::{call, unit_on};
use crate::lines::{LinesEnd, call_lines};
use crate::live::call_live;
use cc_answers::{Stands, write_fault_line};
use cc_disk::Disk;
use cc_runs::{CountedRun, LiveEnd, run_words_within, write_counted_run};
use cc_rv32::image::Image;
use cc_tasks::{Done, PartFault};
use cc_unit::StoredUnit;
use std::alloc::Global;
use std::io::{self, BufRead, Write};
use std::sync::Arc;

/// What was written for a call, and what may be explained of it.
#[derive(Drop)]
pub struct Called {
    /// The status, and whether all could be written.
    pub done: Done,
    /// The fault whose line was written, if one was.
    pub fault: Option<PartFault>,
    /// Whether the one run has stopped in place.
    pub is_final: bool,
}

// Flushes what was written.
fn flushed<W: Write>(write: io::Result<()>, status: u8, writer: &mut W) -> Done
    ensures written { result.is_written ≡ true → IsOk write × Keeps (W.contents writer.old) (W.contents writer.new) × (result.status ≡ status) }
    ensures unwritten { result.is_written ≡ false → result.status ≡ 1 }
{
    match write {
        Ok(()) => match writer.flush() {
            Ok(()) => return Done {
                status,
                is_written: true,
            },
            Err(_) => {}
        },
        Err(_) => {}
    }
    Done {
        status: 1,
        is_written: false,
    }
}

// Writes a run.
#[tactic(auto, using(crate::proofs::Answered::settled_text))]
fn answer_run<W: Write>(run: &CountedRun, writer: &mut W) -> Done
    ensures written { result.is_written ≡ true → IsAnswer (Ok run.now) (W.contents writer.old) (W.contents writer.new) result.status }
    ensures unwritten { result.is_written ≡ false → result.status ≡ 1 }
{
    let write = write_counted_run(run, writer);
    flushed(write, 0, writer)
}

// Writes the line for a fault.
#[tactic(auto, using(crate::proofs::Answered::settled_text))]
fn answer_fault<W: Write>(fault: PartFault, writer: &mut W) -> Done
    ensures written { result.is_written ≡ true → IsAnswer (Err fault) (W.contents writer.old) (W.contents writer.new) result.status }
    ensures unwritten { result.is_written ≡ false → result.status ≡ 1 }
{
    let write = write_fault_line(fault.number(), Stands::Nowhere, b"", writer);
    flushed(write, 1, writer)
}

// Writes a run, or the line for the fault.
fn answer<W: Write>(found: &Result<CountedRun, PartFault>, writer: &mut W) -> Called
    ensures written { result.done.is_written ≡ true → IsAnswer found.now (W.contents writer.old) (W.contents writer.new) result.done.status }
    ensures unwritten { result.done.is_written ≡ false → result.done.status ≡ 1 }
{
    match found {
        Ok(run) => Called {
            done: answer_run(run, writer),
            fault: None,
            is_final: run.is_final,
        },
        Err(fault) => Called {
            done: answer_fault(*fault, writer),
            fault: Some(*fault),
            is_final: false,
        },
    }
}

/// Runs the unit with this name in the library on a disk once, as `call` does, and writes what `run` would write, or the line for the fault.
/// The disk is dropped before anything is written. The status is 0 for a run and 1 for a fault, and 1 if not all could be written.
pub fn call_on<D: Disk + Drop, W: Write, E: Write>(
    alloc: Global,
    disk: D,
    name: &[u8],
    words: &[u32],
    steps: u64,
    most: Option<u32>,
    is_counted: bool,
    writer: &mut W,
    explanations: &mut E,
) -> Called
    ensures written { result.done.is_written ≡ true → CallsOn D.honest (D.seen disk) (D.failures disk) name.now is_counted steps most words.now
        (W.contents writer.old) (W.contents writer.new) result.done.status }
    ensures unwritten { result.done.is_written ≡ false → result.done.status ≡ 1 }
{
    let (found, disk) = call(
        alloc,
        disk,
        name,
        words,
        steps,
        most,
        is_counted,
        explanations,
    );
    drop(disk);
    let called = answer(&found, writer);
    drop(found);
    called
}

/// Runs an image once on input words, and writes what `run` would write, or the line for 40.
pub fn call_image<W: Write>(
    alloc: Global,
    image: &Image,
    words: &[u32],
    steps: u64,
    most: Option<u32>,
    is_counted: bool,
    writer: &mut W,
) -> Called
    ensures written { result.done.is_written ≡ true → CallsImage image.now is_counted steps most words.now (W.contents writer.old) (W.contents writer.new) result.done.status }
    ensures unwritten { result.done.is_written ≡ false → result.done.status ≡ 1 }
{
    match run_words_within(alloc, image, words, steps, most, is_counted) {
        Ok(run) => Called {
            done: answer_run(&run, writer),
            fault: None,
            is_final: run.is_final,
        },
        Err(_) => Called {
            done: answer_fault(PartFault::OutOfMemory, writer),
            fault: Some(PartFault::OutOfMemory),
            is_final: false,
        },
    }
}

// The unit with this name in the library on a disk, which is then dropped.
fn unit_of<D: Disk + Drop, E: Write>(
    alloc: Global,
    disk: D,
    name: &[u8],
    explanations: &mut E,
) -> Result<Arc<StoredUnit>, PartFault>
    ensures found { IfOk result (λ unit. IsTrue D.honest → IsUnitOn (D.seen disk) name.now (arc_value unit)) }
    ensures refused { IfErr result (λ fault. (after : ℕ) × IsNoPartOn D.honest (D.seen disk) (D.failures disk) after name.now fault) }
{
    let (found, disk) = unit_on(alloc, disk, name, explanations);
    drop(disk);
    found
}

// The status of lines that have ended like this, and whether all could be written.
fn lines_done(end: LinesEnd) -> Done
    ensures answered { end ≡ LinesEnd.Answered → result ≡ record { status = 0; is_written = true } }
    ensures refused { end ≡ LinesEnd.Refused → result ≡ record { status = 1; is_written = true } }
    ensures unwritten { end ≡ LinesEnd.Unwritten → result ≡ record { status = 1; is_written = false } }
{
    match end {
        LinesEnd::Answered => Done {
            status: 0,
            is_written: true,
        },
        LinesEnd::Refused => Done {
            status: 1,
            is_written: true,
        },
        LinesEnd::Unwritten => Done {
            status: 1,
            is_written: false,
        },
    }
}

/// Runs an image once for each line of a reader, as `call_lines` does. The status is 0 if each line was answered with its run, else 1.
pub fn answer_lines<R: BufRead, W: Write, E: Write>(
    alloc: Global,
    image: &Image,
    steps: u64,
    most: Option<u32>,
    is_counted: bool,
    reader: &mut R,
    writer: &mut W,
    explanations: &mut E,
) -> Done
    // For a reader whose bytes are known.
    ensures written { result.is_written ≡ true → IfSome (R.remaining reader.old) (λ input.
        AnswersTheLines image.now is_counted steps most input (W.contents writer.old) (W.contents writer.new) result.status) }
    ensures unwritten { result.is_written ≡ false → result.status ≡ 1 }
{
    let end = call_lines(
        alloc,
        image,
        steps,
        most,
        is_counted,
        reader,
        writer,
        explanations,
    );
    lines_done(end)
}

/// Runs the unit with this name in the library on a disk, once for each line of a reader. The disk is dropped once the unit is read.
pub fn call_lines_on<D: Disk + Drop, R: BufRead, W: Write, E: Write>(
    alloc: Global,
    disk: D,
    name: &[u8],
    steps: u64,
    most: Option<u32>,
    is_counted: bool,
    reader: &mut R,
    writer: &mut W,
    explanations: &mut E,
) -> Called
    // For a reader whose bytes are known.
    ensures written { result.done.is_written ≡ true → IfSome (R.remaining reader.old) (λ input.
        CallsLinesOn D.honest (D.seen disk) (D.failures disk) name.now is_counted steps most input (W.contents writer.old) (W.contents writer.new) result.done.status) }
    ensures unwritten { result.done.is_written ≡ false → result.done.status ≡ 1 }
{
    match unit_of(alloc, disk, name, explanations) {
        Ok(unit) => {
            let image = &unit.image;
            let done = answer_lines(
                alloc,
                image,
                steps,
                most,
                is_counted,
                reader,
                writer,
                explanations,
            );
            Called {
                done,
                fault: None,
                is_final: false,
            }
        }
        Err(fault) => Called {
            done: answer_fault(fault, writer),
            fault: Some(fault),
            is_final: false,
        },
    }
}

// The status of a run whose input came, and whether all could be written.
fn live_done(end: LiveEnd) -> Done
    ensures ended { (is_final : Bool) → end ≡ LiveEnd.Ended is_final false → result ≡ record { status = 0; is_written = true } }
    ensures bad { (is_final : Bool) → end ≡ LiveEnd.Ended is_final true → result ≡ record { status = 1; is_written = true } }
    ensures refused { end ≡ LiveEnd.Refused → result ≡ record { status = 1; is_written = true } }
    ensures unwritten { end ≡ LiveEnd.Unwritten → result ≡ record { status = 1; is_written = false } }
{
    match end {
        LiveEnd::Ended {
            is_final: _,
            has_bad_line,
        } => Done {
            status: u8::from(has_bad_line),
            is_written: true,
        },
        LiveEnd::Refused => Done {
            status: 1,
            is_written: true,
        },
        LiveEnd::Unwritten => Done {
            status: 1,
            is_written: false,
        },
    }
}

/// Runs an image while its input comes, as `call_live` does. The status is 0 if no line was refused, else 1.
pub fn answer_live<R: BufRead, W: Write, E: Write>(
    alloc: Global,
    image: &Image,
    steps: u64,
    reads_zeros: bool,
    reader: &mut R,
    writer: &mut W,
    explanations: &mut E,
) -> Done
    // For a reader whose bytes are known.
    ensures written { result.is_written ≡ true → IfSome (R.remaining reader.old) (λ input.
        AnswersLive image.now steps reads_zeros input (W.contents writer.old) (W.contents writer.new) result.status) }
    ensures unwritten { result.is_written ≡ false → result.status ≡ 1 }
{
    let end = call_live(
        alloc,
        image,
        steps,
        reads_zeros,
        reader,
        writer,
        explanations,
    );
    live_done(end)
}

/// Runs the unit with this name in the library on a disk, while its input comes. The disk is dropped once the unit is read.
pub fn call_live_on<D: Disk + Drop, R: BufRead, W: Write, E: Write>(
    alloc: Global,
    disk: D,
    name: &[u8],
    steps: u64,
    reads_zeros: bool,
    reader: &mut R,
    writer: &mut W,
    explanations: &mut E,
) -> Called
    // For a reader whose bytes are known.
    ensures written { result.done.is_written ≡ true → IfSome (R.remaining reader.old) (λ input.
        CallsLiveOn D.honest (D.seen disk) (D.failures disk) name.now steps reads_zeros input (W.contents writer.old) (W.contents writer.new) result.done.status) }
    ensures unwritten { result.done.is_written ≡ false → result.done.status ≡ 1 }
{
    match unit_of(alloc, disk, name, explanations) {
        Ok(unit) => {
            let image = &unit.image;
            let done = answer_live(
                alloc,
                image,
                steps,
                reads_zeros,
                reader,
                writer,
                explanations,
            );
            Called {
                done,
                fault: None,
                is_final: false,
            }
        }
        Err(fault) => Called {
            done: answer_fault(fault, writer),
            fault: Some(fault),
            is_final: false,
        },
    }
}
