// What a person reads about a name that nothing has.

use cc_diagnostic::near_name;
use std::io::{self, Write};

/// How many names are written if none is near.
const MOST_NAMES: usize = 8;

// Writes a word; a byte that could control a terminal is shown as `?`.
fn write_shown<W: Write>(word: &[u8], writer: &mut W) -> io::Result<()> {
    for byte in word {
        let shown = if byte.is_ascii_graphic() { *byte } else { b'?' };
        writer.write_all(&[shown])?;
    }
    Ok(())
}

// Writes the first few of these names.
fn write_names<W: Write>(names: &[&[u8]], writer: &mut W) -> io::Result<()> {
    for (i, name) in names.iter().take(MOST_NAMES).enumerate() {
        writer.write_all(if i == 0 { b": there is '" } else { b", '" })?;
        write_shown(name, writer)?;
        writer.write_all(b"'")?;
    }
    if names.len() > MOST_NAMES {
        writer.write_all(b" and others")?;
    }
    Ok(())
}

/// Writes that nothing of this kind, for example no function, has the name, and which existing name is near it; if none is
/// near, writes the first few existing names.
pub fn explain_unknown<W: Write>(
    kind: &str,
    name: &[u8],
    names: &[&[u8]],
    writer: &mut W,
) -> io::Result<()> {
    write!(writer, "cclib: no {kind} is named '")?;
    write_shown(name, writer)?;
    writer.write_all(b"'")?;
    match near_name(names, name) {
        Some(near) => {
            writer.write_all(b": did you mean '")?;
            write_shown(near, writer)?;
            writer.write_all(b"'?")?;
        }
        None => write_names(names, writer)?,
    }
    writeln!(writer)
}
