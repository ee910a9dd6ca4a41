// The names of an installed program's sources, which the installation wrote into a file beside the program. They are printed
// after the line with the version.

use cc_sources::{NoText, read_text};
use std::env;
use std::fs::File;
use std::io::{self, Print, Write};

// The text of the file that the installation put beside the program; an error if the program is not installed.
fn sources(files: &HostRuntime) -> io::Result<Vec<u8>> {
    let program = env::current_exe(files)?;
    let Some(folder) = program.parent() else {
        return Err(io::Error::from(io::ErrorKind::NotFound));
    };
    let name = format!(in files.alloc(); "{}/../share/cclib/FROM", folder.as_str())?;
    let mut file = File::open(files, name.as_str())?;
    match read_text(files.alloc(), &mut file) {
        Ok(text) => Ok(text),
        Err(NoText::Unread(why)) => Err(why),
        Err(NoText::OutOfMemory) => Err(io::Error::from(io::ErrorKind::OutOfMemory)),
    }
}

// Whether a line names the sources of the program, or the toolchain that made it. A line with bytes that could control a
// terminal is not wanted.
fn is_wanted(line: &[u8]) -> bool {
    (line.starts_with(b"commit ") || line.starts_with(b"toolchain "))
        && line
            .iter()
            .all(|byte| byte.is_ascii_graphic() || *byte == b' ')
}

// Writes the lines of a text that are wanted.
fn write_wanted<W: Write>(text: &[u8], writer: &mut W) -> io::Result<()> {
    for line in text.split(|byte| *byte == b'\n') {
        if is_wanted(line) {
            writer.write_all(line)?;
            writer.write_all(b"\n")?;
        }
    }
    writer.flush()
}

/// Prints the names of the program's sources, if it is installed. The result is the status.
pub fn print_sources<R: Print>(rt: &R, files: &HostRuntime) -> u8 {
    match sources(files) {
        Ok(text) => u8::from(write_wanted(text.as_slice(), &mut io::writer(rt)).is_err()),
        Err(_) => 0,
    }
}
