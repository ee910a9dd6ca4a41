// Runs of a text while their input comes.

ghost use Rattle.std.specs.Prelude.{◌≡◌, ◌≤◌};
ghost use Rattle.cc_sources.specs.Joined.{joined};
ghost use Rattle.cc_tasks.specs.Live.{IsRunLive, IsTurnedDown, live_status, live_written};

use super::answer::{compiled, mode_of};
use super::explain::{explanation_of_fault, write_explanation};
use super::fault::Fault;
use super::work::{Done, is_told, refused};
use cc_runs::{LiveEnd, explain_final, run_live};
use cc_sources::{NamedText, Origin, join};
use cc_task::Kind;
use std::alloc::Global;
use std::io::{BufRead, Write};

// How a task ended whose run went on while its input came.
fn done_of(end: LiveEnd) -> Done
    ensures status { result.status ≡ live_status end }
    ensures written { result.is_written ≡ live_written end }
    ensures bound { result.status ≤ 1 }
{
    let (status, is_written) = match end {
        LiveEnd::Ended {
            is_final: _,
            has_bad_line: false,
        } => (0, true),
        LiveEnd::Ended {
            is_final: _,
            has_bad_line: true,
        }
        | LiveEnd::Refused => (1, true),
        LiveEnd::Unwritten => (1, false),
    };
    Done { status, is_written }
}

// Explains that a run has stopped in place, if it has.
fn explain_end<E: Write>(end: LiveEnd, told: &mut E) {
    if let LiveEnd::Ended {
        is_final: true,
        has_bad_line: _,
    } = end
    {
        let _ = explain_final(told);
    }
}

// Explains the fault of a text.
fn explain_refused<E: Write>(
    alloc: Global,
    text: &[u8],
    origin: Origin<'_>,
    fault: &Fault,
    told: &mut E,
) {
    let explanation = explanation_of_fault(alloc, text, fault);
    let _ = write_explanation(alloc, text, origin, &explanation, told);
    let _ = told.flush();
}

// Writes the line of a fault, and explains it.
#[tactic(auto, using(crate::proofs::Living::turned_down))]
pub(crate) fn turn_down<W: Write, E: Write>(
    alloc: Global,
    fault: Fault,
    text: &[u8],
    origin: Origin<'_>,
    writer: &mut W,
    told: &mut E,
) -> Done
    ensures turned { IsTurnedDown fault text.now (W.contents writer.old) (W.contents writer.new) result.status result.is_written }
    ensures bound { result.status ≤ 1 }
{
    let fault = refused(fault, text, writer);
    explain_refused(alloc, text, origin, &fault, told);
    Done {
        status: 1,
        is_written: is_told(&fault),
    }
}

// Compiles a text, and runs its image while its input comes.
fn run_text<R: BufRead, W: Write, E: Write>(
    alloc: Global,
    kind: Kind,
    steps: u64,
    reads_zeros: bool,
    text: &[u8],
    origin: Origin<'_>,
    reader: &mut R,
    writer: &mut W,
    told: &mut E,
) -> Done
    ensures live { IsRunLive kind steps reads_zeros text.now (R.remaining reader.old) (W.contents writer.old) (W.contents writer.new) result.status
        result.is_written }
    ensures bound { result.status ≤ 1 }
{
    let unit = match compiled(alloc, mode_of(kind), text) {
        Ok(unit) => unit,
        Err(fault) => return turn_down(alloc, fault, text, origin, writer, told),
    };
    let image = &unit.stored().image;
    let end = run_live(alloc, image, steps, reads_zeros, reader, writer, told);
    explain_end(end, told);
    done_of(end)
}

/// Compiles a text as `run` does, and runs its image while its input comes, as `cc_runs::run_live` does: each line of `reader` has the next
/// words of the input, and what the program writes until it waits for more is written to `writer`, which is flushed then. A turn may take
/// `steps` instructions. If the text has no image, the line for its fault is written, as by `run`.
///
/// The status is 1 for a fault, if a line was no list of words (50), if a line could not be read (53) and if memory was refused (40); otherwise
/// it is 0. To `told` goes what helps a person: why the text or a line has a fault, and whether the run has stopped in place.
pub fn perform_live<H: AllocGlobal, R: BufRead, W: Write, E: Write>(
    rt: &H,
    kind: Kind,
    steps: u64,
    reads_zeros: bool,
    text: &[u8],
    reader: &mut R,
    writer: &mut W,
    told: &mut E,
) -> Done
    ensures live { IsRunLive kind steps reads_zeros text.now (R.remaining reader.old) (W.contents writer.old) (W.contents writer.new) result.status
        result.is_written }
    ensures bound { result.status ≤ 1 }
{
    run_text(
        rt.alloc(),
        kind,
        steps,
        reads_zeros,
        text,
        Origin::Input,
        reader,
        writer,
        told,
    )
}

/// Does what `perform_live` does for the text to which `texts` are joined, and gives each place as `perform_texts_and_explain` does.
pub fn perform_live_texts<H: AllocGlobal, R: BufRead, W: Write, E: Write>(
    rt: &H,
    kind: Kind,
    steps: u64,
    reads_zeros: bool,
    texts: &[NamedText],
    reader: &mut R,
    writer: &mut W,
    told: &mut E,
) -> Done
    ensures live { IsRunLive kind steps reads_zeros (joined texts.now) (R.remaining reader.old) (W.contents writer.old) (W.contents writer.new)
        result.status result.is_written }
    ensures bound { result.status ≤ 1 }
{
    let origin = Origin::Texts(texts);
    match join(rt.alloc(), texts) {
        Ok(whole) => run_text(
            rt.alloc(),
            kind,
            steps,
            reads_zeros,
            whole.as_slice(),
            origin,
            reader,
            writer,
            told,
        ),
        Err(_) => turn_down(rt.alloc(), Fault::OutOfMemory, b"", origin, writer, told),
    }
}
