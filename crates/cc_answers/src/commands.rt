// The commands of a script, explained to a person.

use cc_script::{COMMANDS, Dialect, PLAIN_COMMANDS};
use std::io::{self, Write};

// What is written before the command at the index `place`, if there are `count` commands.
fn before(place: usize, count: usize) -> &'static [u8] {
    if place == 0 {
        b""
    } else if place.saturating_add(1) < count {
        b", "
    } else {
        b" or "
    }
}

// The words of a command. If they are words of `submit` and not a line of a script, LEN is left out, since `submit` itself counts
// the bytes of the source.
fn shown(command: &[u8], is_line: bool) -> &[u8] {
    if is_line {
        return command;
    }
    let short = command.strip_suffix(b" OLDLEN NEWLEN").unwrap_or(command);
    short.strip_suffix(b" LEN").unwrap_or(short)
}

// Writes the commands of a script in this dialect.
fn write_commands<W: Write>(dialect: Dialect, is_line: bool, writer: &mut W) -> io::Result<()> {
    let commands = match dialect {
        Dialect::Plain => &COMMANDS[..PLAIN_COMMANDS],
        Dialect::Served => COMMANDS.as_slice(),
    };
    for (place, command) in commands.iter().enumerate() {
        writer.write_all(before(place, commands.len()))?;
        writer.write_all(shown(command, is_line))?;
    }
    Ok(())
}

/// Writes what a person who types a session's script may enter. Fails if the writer failed.
pub fn greet<W: Write>(writer: &mut W) -> io::Result<()> {
    writer.write_all(b"cclib: ")?;
    write_commands(Dialect::Plain, true, writer)?;
    writer.write_all(b", one a line; a source of LEN bytes follows its line; end by Ctrl-D\n")?;
    writer.flush()
}

/// Writes an explanation for a line that is not a command of a script in this dialect. Fails if the writer failed.
pub fn explain_bad_line<W: Write>(dialect: Dialect, writer: &mut W) -> io::Result<()> {
    writer.write_all(b"cclib: the line is no command: ")?;
    write_commands(dialect, true, writer)?;
    writer.write_all(b"; a newline follows the LEN bytes of a source\n")?;
    writer.flush()
}

/// Writes an explanation for words of `submit` that are not a command. Fails if the writer failed.
pub fn explain_no_command<W: Write>(writer: &mut W) -> io::Result<()> {
    writer.write_all(b"cclib: the words are no command of a script: ")?;
    write_commands(Dialect::Served, false, writer)?;
    writer.write_all(b"\n")?;
    writer.flush()
}
