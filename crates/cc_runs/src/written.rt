// What is written for a run.

ghost use Rattle.std.specs.Prelude.{OnOk};
ghost use Rattle.std.specs.Io.KnownBytes.{Appends};
ghost use Rattle.cc_runs.specs.Written.{count_text, counted_text, refusal_text};

use crate::count::CountedRun;
use cc_answers::{Stands, write_fault_line, write_run};
use std::io::{self, Write};

// Writes the line of a count, if the count was asked for.
fn write_count<W: Write>(executed: Option<u64>, writer: &mut W) -> io::Result<()>
    ensures { OnOk result (Appends (W.contents writer.old) (W.contents writer.new) (count_text executed)) }
{
    match executed {
        Some(count) => writeln!(writer, "executed {count}"),
        None => Ok(()),
    }
}

/// Writes the output words, one on each line, then how the run ended, and then the line of the count, if it was asked for.
/// Fails if the writer failed.
#[tactic(auto, using(cc_answers::proofs::Writing::written_on))]
pub fn write_counted_run<W: Write>(done: &CountedRun, writer: &mut W) -> io::Result<()>
    ensures { OnOk result (Appends (W.contents writer.old) (W.contents writer.new) (counted_text done.now)) }
{
    write_run(&done.run, writer)?;
    write_count(done.executed, writer)
}

/// Writes the line for a fault, and an empty line. Fails if the writer failed.
#[tactic(auto, using(cc_answers::proofs::Writing::written_on))]
pub fn write_refusal<W: Write>(number: u32, writer: &mut W) -> io::Result<()>
    ensures { OnOk result (Appends (W.contents writer.old) (W.contents writer.new) (refusal_text number)) }
{
    write_fault_line(number, Stands::Nowhere, b"", writer)?;
    writer.write_all(b"\n")
}
