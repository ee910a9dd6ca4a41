// How bytes of a text are shown: as UTF-8 if they are valid, else byte by byte. A character that would control a terminal is
// shown as `?`.

use std::fmt;

/// At most this many bytes of a name or another token are shown.
const MOST_SHOWN: usize = 40;

/// What is shown in place of a character.
#[derive(Clone, Copy)]
pub enum Look {
    /// The character itself.
    Plain,
    /// As much blank space as the character takes.
    Blank,
}

/// Bytes of one line, as they are shown.
#[derive(Clone, Copy)]
pub struct Shown<'a> {
    pub bytes: &'a [u8],
    pub look: Look,
}

/// A name or another token, in quotes.
#[derive(Clone, Copy)]
pub struct Quoted<'a>(pub &'a [u8]);

fn is_control(c: char) -> bool {
    let code = u32::from(c);
    code < 32 || (127 <= code && code < 160)
}

fn look_of(c: char, look: Look) -> char {
    match look {
        _ if c == '\t' => c,
        Look::Blank => ' ',
        Look::Plain if is_control(c) => '?',
        Look::Plain => c,
    }
}

impl fmt::Display for Shown<'_> {
    fn fmt<W: fmt::Write>(&self, f: &mut fmt::Formatter<W>) -> fmt::Result {
        match std::str::from_utf8(self.bytes) {
            Ok(text) => {
                for c in text.chars() {
                    f.write_char(look_of(c, self.look))?;
                }
            }
            Err(_) => {
                for b in self.bytes {
                    f.write_char(look_of(char::from(*b), self.look))?;
                }
            }
        }
        Ok(())
    }
}

impl fmt::Display for Quoted<'_> {
    fn fmt<W: fmt::Write>(&self, f: &mut fmt::Formatter<W>) -> fmt::Result {
        let bytes = self.0;
        let look = Look::Plain;
        match bytes.get(..MOST_SHOWN) {
            Some(prefix) if bytes.len() > MOST_SHOWN => {
                let bytes = prefix;
                let prefix = Shown { bytes, look };
                write!(f, "'{prefix}...'")
            }
            _ => {
                let whole = Shown { bytes, look };
                write!(f, "'{whole}'")
            }
        }
    }
}
