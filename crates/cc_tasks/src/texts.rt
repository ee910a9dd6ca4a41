// Does a task for several texts that are joined to one.

ghost use Rattle.std.specs.Prelude.{◌≡◌, ◌≤◌, Bool, [], Some, IfOk, IfSome, IsErrAnd};
ghost use Rattle.cc_sources.specs.Joined.{joined};
ghost use Rattle.cc_tasks.specs.Written.{IsPerformed};
ghost use Rattle.cc_tasks.specs.internal.Working.{IsDoneFor, RefusesBy};
ghost use Rattle.cc_tasks.specs.declared.fault.Fault.TheVariants.{OutOfMemory};

use super::fault::Fault;
use super::stages::{explain_stages, try_stages};
use super::work::{Done, Performed, emptied, ended, explain, refused, status, try_perform};
use cc_answers::Telling;
use cc_sources::{NamedText, NoText, NoTexts, Origin, join, read_texts, tell_unread};
use cc_task::{Kind, Task};
use std::alloc::{AllocError, Global};
use std::io::{self, BufWriter, Input, Write};
use std::rt::Files;

// Writes that a text could not be read, and explains which one and why.
fn refuse_unread<W: Write, E: Write>(
    name: &str,
    why: &io::Error,
    writer: &mut W,
    told: &mut E,
) -> io::Result<()> {
    Fault::Read.write_line(b"", writer)?;
    writer.flush()?;
    tell_unread(name, why, told)
}

/// The texts of the files with these names. `None` if a file could not be read: then 53 is written, and the explanation says
/// which file it was and why. `Err` if memory runs out.
pub fn read_or_refuse<R: AllocGlobal + Input, F: Files, W: Write, E: Write>(
    rt: &R,
    files: &F,
    names: &[String],
    writer: &mut W,
    told: &mut E,
) -> Result<Option<Vec<NamedText>>, AllocError>
    // If the texts could be read, nothing is written.
    ensures { IfOk result (λ texts. IfSome texts (λ _. W.contents writer.new ≡ W.contents writer.old)) }
{
    match read_texts(rt, files, rt.alloc(), names) {
        Ok(texts) => Ok(Some(texts)),
        Err(NoTexts { number, why }) => match why {
            NoText::Unread(why) => {
                let name = match names.get(number) {
                    Some(name) => name.as_str(),
                    None => "",
                };
                let _ = refuse_unread(name, &why, writer, told);
                Ok(None)
            }
            NoText::OutOfMemory => Err(AllocError),
        },
    }
}

// Writes that memory ran out as the texts were joined.
fn unjoined<W: Write>(alloc: Global, writer: &mut W) -> Performed
    ensures { IsErrAnd result.told (λ told. RefusesBy OutOfMemory [] (W.contents writer.old) (W.contents writer.new) told) }
{
    Performed {
        text: Vec::new(alloc),
        told: Err(refused(Fault::OutOfMemory, b"", writer)),
    }
}

// Does a task for the text to which the texts are joined.
#[tactic(auto, using(crate::proofs::Working::undone))]
fn try_texts<W: Write>(alloc: Global, task: &Task, texts: &[NamedText], writer: &mut W) -> Performed
    ensures { IsDoneFor task.now (Some (joined texts.now)) (W.contents writer.old) (W.contents writer.new) result.told }
{
    match join(alloc, texts) {
        Ok(whole) => try_perform(alloc, task, &mut whole.as_slice(), writer),
        Err(_) => unjoined(alloc, writer),
    }
}

/// Does a task as `carry_out` does, for the text to which `texts` are joined: one after the other, with a newline between two if
/// the first does not end with one.
pub fn carry_out_texts<H: AllocGlobal, W: Write>(
    rt: &H,
    task: Task,
    texts: &[NamedText],
    writer: &mut W,
) -> Done
    ensures { IsPerformed task (Some (joined texts.now)) (W.contents writer.old) (W.contents writer.new) result.status result.is_written }
{
    let performed = try_texts(rt.alloc(), &task, texts, writer);
    ended(performed)
}

/// Does a task as `carry_out_texts` does. The result is the status.
pub fn perform_texts<H: AllocGlobal, W: Write>(
    rt: &H,
    task: Task,
    texts: &[NamedText],
    writer: &mut W,
) -> u8
    ensures { (written : Bool) × IsPerformed task (Some (joined texts.now)) (W.contents writer.old) (W.contents writer.new) result written }
{
    let done = carry_out_texts(rt, task, texts, writer);
    done.status
}

/// Does a task as `carry_out_texts` does, and writes to `explanations` what `perform_and_explain` writes there, but gives each
/// place as the name of its text with the line and column in that text.
pub fn perform_texts_and_explain<H: AllocGlobal, W: Write, E: Write>(
    rt: &H,
    task: Task,
    texts: &[NamedText],
    writer: &mut W,
    explanations: &mut E,
) -> Done
    ensures { IsPerformed task (Some (joined texts.now)) (W.contents writer.old) (W.contents writer.new) result.status result.is_written }
{
    let performed = try_texts(rt.alloc(), &task, texts, writer);
    let origin = Origin::Texts(texts);
    explain(rt.alloc(), &task, &performed, origin, explanations);
    ended(performed)
}

/// Does a task as `perform_into` does, for the text to which `texts` are joined, and gives each place as
/// `perform_texts_and_explain` does. The only error is that memory for the buffer is refused. Then nothing was written, and `out`
/// is dropped.
pub fn perform_texts_into<H: AllocGlobal, A: Write + Drop, E: Write + Drop>(
    rt: &H,
    task: Task,
    texts: &[NamedText],
    out: A,
    explanations: &mut Telling<E>,
) -> Result<(Done, A), AllocError>
    ensures { IfOk result (λ it. IsPerformed task (Some (joined texts.now)) (A.contents out) (A.contents it.1) it.0.status it.0.is_written) }
{
    let Ok(mut buffered) = BufWriter::new(rt.alloc(), out) else {
        drop(task);
        return Err(AllocError);
    };
    let performed = try_texts(rt.alloc(), &task, texts, &mut buffered);
    let (performed, out) = emptied(performed, buffered);
    if !explanations.is_quiet {
        let origin = Origin::Texts(texts);
        explain(rt.alloc(), &task, &performed, origin, explanations);
    }
    Ok((ended(performed), out))
}

// Shows the functions of the text to which the texts are joined.
fn try_stages_of_texts<W: Write>(
    alloc: Global,
    kind: Kind,
    function: Option<&[u8]>,
    texts: &[NamedText],
    writer: &mut W,
) -> Performed {
    match join(alloc, texts) {
        Ok(whole) => try_stages(alloc, kind, function, &mut whole.as_slice(), writer),
        Err(_) => unjoined(alloc, writer),
    }
}

/// Shows functions as `perform_stages` does, for the text to which `texts` are joined.
pub fn perform_stages_of_texts<H: AllocGlobal, W: Write>(
    rt: &H,
    kind: Kind,
    function: Option<&[u8]>,
    texts: &[NamedText],
    writer: &mut W,
) -> u8
    ensures { result ≤ 1 }
{
    let performed = try_stages_of_texts(rt.alloc(), kind, function, texts, writer);
    status(performed)
}

/// Shows functions as `perform_stages_of_texts` does, and explains as `perform_texts_and_explain` does.
pub fn perform_and_explain_stages_of_texts<H: AllocGlobal, W: Write, E: Write>(
    rt: &H,
    kind: Kind,
    function: Option<&[u8]>,
    texts: &[NamedText],
    writer: &mut W,
    explanations: &mut E,
) -> u8
    ensures { result ≤ 1 }
{
    let performed = try_stages_of_texts(rt.alloc(), kind, function, texts, writer);
    explain_stages(
        rt.alloc(),
        function,
        &performed,
        Origin::Texts(texts),
        explanations,
    );
    status(performed)
}
