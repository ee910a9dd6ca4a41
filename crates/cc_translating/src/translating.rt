// What is written, and the status.

ghost use Rattle.std.specs.Prelude.{◌++◌, Some, IfOk, IfErr, OnOk, codes};
ghost use Rattle.std.specs.Io.KnownBytes.{Appends};
ghost use Rattle.cc_answers.specs.Text.{fault_line, line, place_text};
ghost use Rattle.cc_sources.specs.Joined.{joined};
ghost use Rattle.cc_translate.specs.Refused.{IsTranslateRefusal};
ghost use Rattle.cc_translating.specs.Written.{Answers, IsDone, answer_text, fault_text};
ghost use Rattle.cc_translating.specs.internal.Working.{Flushes, IsDoneAs, IsDoneFor, IsTold, IsUnreadDone};

use crate::explaining::{explain, explain_number};
use cc_answers::{Stands, write_fault_line};
use cc_link::TextFault;
use cc_sources::{NamedText, NoText, Origin, join, read_text};
use cc_tokens::{Place, SyntaxFault};
use cc_translate::{TranslateFault, Translation, translate, translate_bare};
use std::alloc::Global;
use std::io::{self, Read, Write};

/// What is written of a text that has a translation.
#[derive(Clone, Copy, Debug, Drop, PartialEq, Eq)]
pub enum Wanted {
    /// `ok`.
    Verdict,
    /// The translation, with the lines of the text in its comments.
    Text,
    /// The translation alone.
    Bare,
}

/// How the command ended.
#[derive(Clone, Copy, Debug, Drop, PartialEq, Eq)]
pub struct Done {
    /// 0, or 1 for a fault.
    pub status: u8,
    /// Whether all that was to be written is written. If not, the status is 1.
    pub is_written: bool,
}

// Why there is no translation, and whether all that was to be written is written.
#[derive(Drop)]
struct Told {
    fault: Option<TranslateFault>,
    is_written: bool,
}

// The translation that is wanted.
fn translated(alloc: Global, wanted: Wanted, wide: &[u8]) -> Result<Translation, TranslateFault>
    ensures answer { IfOk result (λ t. Answers wanted wide.now t.printed.text.items) }
    ensures refused { IfErr result (λ fault. IsTranslateRefusal wide.now fault) }
{
    match wanted {
        Wanted::Verdict | Wanted::Text => translate(alloc, wide),
        Wanted::Bare => translate_bare(alloc, wide),
    }
}

fn write_answer<W: Write>(wanted: Wanted, text: &[u8], writer: &mut W) -> io::Result<()>
    ensures { OnOk result (Appends (W.contents writer.old) (W.contents writer.new) (answer_text wanted text.now)) }
{
    match wanted {
        Wanted::Verdict => writer.write_all(b"ok\n"),
        Wanted::Text | Wanted::Bare => writer.write_all(text),
    }
}

// Writes the line of a fault that other commands have too.
fn write_line<W: Write>(number: u32, place: Option<Place>, writer: &mut W) -> io::Result<()>
    ensures { OnOk result (Appends (W.contents writer.old) (W.contents writer.new) (fault_line number (place_text place))) }
{
    match place {
        Some(place) => {
            let at = TextFault::Syntax(SyntaxFault::Unexpected(place));
            write_fault_line(number, Stands::Text(&at), b"", writer)
        }
        None => write_fault_line(number, Stands::Nowhere, b"", writer),
    }
}

fn write_place<W: Write>(place: Option<Place>, writer: &mut W) -> io::Result<()>
    ensures { OnOk result (Appends (W.contents writer.old) (W.contents writer.new) (place_text place)) }
{
    match place {
        Some(Place { line, column }) => write!(writer, " at {line}:{column}"),
        None => Ok(()),
    }
}

// Writes the line of 42.
#[tactic(auto, using(cc_answers::proofs::Writing::written_third))]
fn write_untranslated<W: Write>(place: Option<Place>, writer: &mut W) -> io::Result<()>
    ensures { OnOk result (Appends (W.contents writer.old) (W.contents writer.new) (line (codes "fault 42 Untranslated" ++ place_text place))) }
{
    writer.write_all(b"fault 42 Untranslated")?;
    write_place(place, writer)?;
    writer.write_all(b"\n")
}

/// Writes the line of a fault, with its place in the wide text, if it has one.
pub fn write_fault<W: Write>(fault: &TranslateFault, writer: &mut W) -> io::Result<()>
    ensures { OnOk result (Appends (W.contents writer.old) (W.contents writer.new) (fault_text fault.now)) }
{
    match fault {
        TranslateFault::Untranslated(place) => write_untranslated(*place, writer),
        TranslateFault::Read(_)
        | TranslateFault::Print(_)
        | TranslateFault::Labels(_)
        | TranslateFault::Continue(_)
        | TranslateFault::Typing(_) => write_line(fault.number(), fault.place(), writer),
    }
}

// Flushes a writer after a write. The result is whether both succeeded.
fn is_flushed<W: Write>(write: io::Result<()>, writer: &mut W) -> bool
    ensures { Flushes write (W.contents writer.old) (W.contents writer.new) result }
{
    match write {
        Ok(()) => writer.flush().is_ok(),
        Err(_) => false,
    }
}

// Writes the translation of a text, or the line of its fault.
#[tactic(auto, using(crate::proofs::Telling::told_answer, crate::proofs::Telling::told_fault))]
fn tell<W: Write>(alloc: Global, wanted: Wanted, wide: &[u8], writer: &mut W) -> Told
    ensures { IsTold wanted wide.now (W.contents writer.old) (W.contents writer.new) result }
{
    match translated(alloc, wanted, wide) {
        Ok(translation) => {
            let write = write_answer(wanted, translation.text(), writer);
            Told {
                fault: None,
                is_written: is_flushed(write, writer),
            }
        }
        Err(fault) => {
            let write = write_fault(&fault, writer);
            let is_written = is_flushed(write, writer);
            Told {
                fault: Some(fault),
                is_written,
            }
        }
    }
}

fn ended(told: &Told) -> Done
    ensures { IsDoneAs told.now result }
{
    Done {
        status: if told.is_written && told.fault.is_none() {
            0
        } else {
            1
        },
        is_written: told.is_written,
    }
}

// Does the command for a text, and explains a fault.
#[tactic(auto, using(crate::proofs::Telling::done_for))]
fn translate_text<W: Write, E: Write>(
    alloc: Global,
    wanted: Wanted,
    wide: &[u8],
    origin: Origin<'_>,
    writer: &mut W,
    explanations: &mut E,
) -> Done
    ensures { IsDoneFor wanted wide.now (W.contents writer.old) (W.contents writer.new) result.status result.is_written }
{
    let told = tell(alloc, wanted, wide, writer);
    if let Some(fault) = &told.fault {
        explain(alloc, wide, origin, fault, explanations);
    }
    ended(&told)
}

// Writes the line of 53 or 40, and explains it.
#[tactic(auto, using(crate::proofs::Telling::unread_done))]
fn unread<W: Write, E: Write>(is_memory: bool, writer: &mut W, explanations: &mut E) -> Done
    ensures { IsUnreadDone (W.contents writer.old) (W.contents writer.new) result.status result.is_written }
{
    let number = if is_memory { 40 } else { 53 };
    let write = write_fault_line(number, Stands::Nowhere, b"", writer);
    let is_written = is_flushed(write, writer);
    explain_number(number, explanations);
    Done {
        status: 1,
        is_written,
    }
}

// Does the command for what a reader has.
#[tactic(auto, using(crate::proofs::Telling::done_of, crate::proofs::Telling::done_without))]
fn translate_from<R: Read, W: Write, E: Write>(
    alloc: Global,
    wanted: Wanted,
    reader: &mut R,
    origin: Origin<'_>,
    writer: &mut W,
    explanations: &mut E,
) -> Done
    ensures { IsDone wanted (R.remaining reader.old) (W.contents writer.old) (W.contents writer.new) result.status result.is_written }
{
    match read_text(alloc, reader) {
        Ok(wide) => { translate_text(alloc, wanted, wide.as_slice(), origin, writer, explanations) }
        Err(NoText::Unread(_)) => unread(false, writer, explanations),
        Err(NoText::OutOfMemory) => unread(true, writer, explanations),
    }
}

/// Translates the text of wide C that `reader` has, and writes the translation, or `ok`, or the line of the fault to `writer`; what
/// helps a person with a fault, to `explanations`.
///
/// The faults are those of `translate`, at places of the wide text; 53 (ReadFault) if the text can't be read; 40 (OutOfMemory) if
/// memory runs out. The status is 1 for a fault. If an explanation can't be written, it is left out; the status is the same.
pub fn translate_to<H: AllocGlobal, R: Read, W: Write, E: Write>(
    rt: &H,
    wanted: Wanted,
    reader: &mut R,
    writer: &mut W,
    explanations: &mut E,
) -> Done
    ensures { IsDone wanted (R.remaining reader.old) (W.contents writer.old) (W.contents writer.new) result.status result.is_written }
{
    translate_from(
        rt.alloc(),
        wanted,
        reader,
        Origin::Input,
        writer,
        explanations,
    )
}

/// Does what `translate_to` does for the text to which the texts are joined, and gives each place to a person as the name of its
/// text with the line and column there.
#[tactic(auto, using(crate::proofs::Telling::done_without))]
pub fn translate_texts_to<H: AllocGlobal, W: Write, E: Write>(
    rt: &H,
    wanted: Wanted,
    texts: &[NamedText],
    writer: &mut W,
    explanations: &mut E,
) -> Done
    ensures { IsDone wanted (Some (joined texts.now)) (W.contents writer.old) (W.contents writer.new) result.status result.is_written }
{
    let alloc = rt.alloc();
    match join(alloc, texts) {
        Ok(whole) => {
            let mut reader = whole.as_slice();
            translate_from(
                alloc,
                wanted,
                &mut reader,
                Origin::Texts(texts),
                writer,
                explanations,
            )
        }
        Err(_) => unread(true, writer, explanations),
    }
}

#[cfg(test)]
mod tests {
    use super::*;
    use std::test::Fail;

    // Whether the command writes this, ends with this status, and explains by this text.
    fn writes(
        rt: HostRuntime,
        wanted: Wanted,
        text: &[u8],
        status: u8,
        written: &[u8],
        explained: &[u8],
    ) -> bool {
        let alloc = rt.alloc();
        let mut out = Vec::new(alloc);
        let mut told = Vec::new(alloc);
        let mut reader = text;
        let done = translate_to(&rt, wanted, &mut reader, &mut out, &mut told);
        done.status == status
            && done.is_written
            && out.as_slice() == written
            && told.as_slice() == explained
    }

    #[test]
    fn texts_and_verdicts_are_written(rt: HostRuntime) -> Result<(), Fail> {
        let text = b"#define N 3\nint main(void)\n{\n  return N;\n}\n";
        let bare = b"\nint main(void)\n{\nreturn 3;\n}\n";
        assert!(rt; writes(rt, Wanted::Verdict, text, 0, b"ok\n", b""));
        assert!(rt; writes(rt, Wanted::Bare, text, 0, bare, b""));
        Ok(())
    }

    #[test]
    fn faults_are_written(rt: HostRuntime) -> Result<(), Fail> {
        assert!(rt;
            writes(
                rt,
                Wanted::Text,
                b"int main(void)\n{ return totl; }\n",
                1,
                b"fault 11 Unknown at 2:10\n",
                b"-:2:10: 'totl' is not declared\n    2 | { return totl; }\n      |          ^\n"
            )
        );
        assert!(rt;
            writes(
                rt,
                Wanted::Text,
                b"int main(void)\n{ goto x; }\n",
                1,
                b"fault 5 Unexpected at 2:3\n",
                b"-:2:3: 'goto' is not in wide C: write a loop, or a function\n    2 | { goto x; }\n      |   ^\n"
            )
        );
        Ok(())
    }

    #[test]
    fn long_texts_have_no_place(rt: HostRuntime) -> Result<(), Fail> {
        let alloc = rt.alloc();
        let mut text = Vec::new(alloc);
        for _ in 0..70000 {
            text.push(b' ')?;
        }
        let mut out = Vec::new(alloc);
        let mut told = Vec::new(alloc);
        let mut reader = text.as_slice();
        let done = translate_to(&rt, Wanted::Text, &mut reader, &mut out, &mut told);
        assert_eq!(rt; done.status, 1);
        assert_eq!(rt; out.as_slice(), b"fault 7 SourceTooLarge\n".as_slice());
        Ok(())
    }
}
