// Explanations of faults that are not in a text, by the faults' numbers.

use crate::commands::explain_bad_line;
use cc_script::{Dialect, ScriptFault};
use std::io::{self, Write};

/// The explanation of a fault of a script or a library, by its number, if the fault is not in a text; `None` for other faults.
/// The explanation of 50 also lists the commands of the script: `explain_bad_line` writes it.
pub fn words_of(number: u32) -> Option<&'static str> {
    match number {
        25 => Some("the image would have more than 131072 words of code"),
        30 => Some("the service has made all the clients that it may"),
        31 => Some("the name has a unit already: `replace` puts another in its place"),
        32 => Some("the name has no unit"),
        33 => Some("a name has 1 to 32 bytes: a small letter, then small letters, digits and `_`"),
        34 => Some("there is no room: `compact` gives back what replaced and withdrawn units take"),
        35 => Some("the disk failed"),
        36 => Some("the disk failed before: the library has to be opened again"),
        37 => Some("the file's records are damaged"),
        38 => Some("the file is no library: `--format AREA` makes one"),
        39 => Some("the client's last call is not in the history"),
        40 => Some("memory ran out"),
        41 => Some("a worker thread could not be started, or gave no answer"),
        51 => Some("the script ends within a source"),
        52 => Some("the script has more bytes (16777216), lines or calls than it may have"),
        53 => Some("the script could not be read"),
        54 => Some("an answer could not be written"),
        60 => Some("the unit's source is not the one that was expected: nothing is changed"),
        61 => Some("the script had been at work for long, and others waited"),
        _ => None,
    }
}

/// The explanation of a fault of a task, which reads one text and gives one answer, by its number; `None` as for `words_of`.
pub fn words_of_task(number: u32) -> Option<&'static str> {
    match number {
        53 => Some("the text could not be read"),
        54 => Some("the answer could not be written"),
        _ => words_of(number),
    }
}

/// Writes the explanation of a fault of a session's script or of a library, by its number, if there is one. Fails if the writer
/// failed.
pub fn explain_words<W: Write>(number: u32, writer: &mut W) -> io::Result<()> {
    if number == ScriptFault::BadLine.number() {
        return explain_bad_line(Dialect::Plain, writer);
    }
    match words_of(number) {
        Some(words) => {
            writeln!(writer, "cclib: {words}")?;
            writer.flush()
        }
        None => Ok(()),
    }
}
