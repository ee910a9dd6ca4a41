// Which fault an answer reports. The answer is read in pieces as they come.
//
// An answer has lines, and sources between them: the line `source LEN` is followed by any LEN bytes and a newline. No
// fault is read from these bytes. If the answer ends within them, it was interrupted.

ghost use Rattle.std.specs.Prelude.{◌≡◌, ◌↔◌, ◌<◌, ◌≤◌, None, IsTrue};
ghost use Rattle.cc_spool.specs.Answer.{between, in_fault, in_source, place_behind, read_byte, read_bytes, with_digit};
ghost use Rattle.cc_spool.specs.internal.Telling.{is_within, last_told};
ghost use Rattle.cc_spool.specs.declared.lines.Place.TheVariants as place;

/// How the line for a fault begins.
const FAULT: [u8; 6] = *b"fault ";

/// The beginning of the line after which a source comes.
const SOURCE: [u8; 7] = *b"source ";

/// The fault that an answer reports if it ends within a source.
const INTERRUPTED: u32 = 55;

// The place of the next byte in an answer.
#[derive(Clone, Copy, Drop)]
enum Place {
    // After this many bytes of `fault ` at the beginning of a line. 0 is the beginning of any line.
    Fault(usize),
    // In the number of a fault, with this value so far.
    Number(u32),
    // After this many bytes of `source ` at the beginning of a line.
    Source(usize),
    // In the number of the source's bytes, with this value so far.
    Length(u32),
    // In a line, or a part of one, that does not matter.
    Line,
    // In a source; this many of its bytes are left.
    Within(u32),
    // After a source: a newline comes next.
    Behind,
    // After a source that was followed by a byte other than a newline: nothing that follows is reported.
    Broken,
}

// A number with one more digit appended, or the largest value if that is exceeded.
fn with_digit(number: u32, byte: u8) -> u32
    requires { (48 ≤ byte) × (byte ≤ 57) }
    ensures { result ≡ with_digit number byte }
{
    number
        .saturating_mul(10)
        .saturating_add(u32::from(byte - b'0'))
}

// The place after a byte other than a newline, when this many bytes of `fault ` were read.
fn in_fault(count: usize, byte: u8) -> Place
    ensures { result ≡ in_fault count byte }
{
    if count == 0 && byte == b's' {
        Place::Source(1)
    } else if count < 6 && FAULT[count] == byte {
        if count == 5 {
            Place::Number(0)
        } else {
            Place::Fault(count + 1)
        }
    } else {
        Place::Line
    }
}

// The place after a byte other than a newline, when this many bytes of `source ` were read.
fn in_source(count: usize, byte: u8) -> Place
    ensures { result ≡ in_source count byte }
{
    if count < 7 {
        if SOURCE[count] == byte {
            Place::Source(count + 1)
        } else {
            Place::Line
        }
    } else if byte.is_ascii_digit() {
        Place::Length(u32::from(byte - b'0'))
    } else {
        Place::Line
    }
}

impl Place {
    // The place of the next byte, after this one.
    fn behind(self, byte: u8) -> Place
        ensures { result ≡ place_behind self byte }
    {
        match self {
            Place::Within(left) if left == 1 => Place::Behind,
            Place::Within(left) => Place::Within(left.saturating_sub(1)),
            Place::Broken => Place::Broken,
            Place::Behind if byte != b'\n' => Place::Broken,
            Place::Length(0) if byte == b'\n' => Place::Behind,
            Place::Length(number) if byte == b'\n' => Place::Within(number),
            _ if byte == b'\n' => Place::Fault(0),
            Place::Length(number) if byte.is_ascii_digit() => {
                Place::Length(with_digit(number, byte))
            }
            Place::Number(number) if byte.is_ascii_digit() => {
                Place::Number(with_digit(number, byte))
            }
            Place::Fault(count) => in_fault(count, byte),
            Place::Source(count) => in_source(count, byte),
            Place::Length(_) | Place::Number(_) | Place::Line | Place::Behind => Place::Line,
        }
    }
}

/// What is known about an answer from the bytes read so far.
#[derive(Clone, Copy, Drop)]
pub(crate) struct Lines {
    place: Place,
    last: Option<u32>,
}

impl Lines {
    /// The state before anything is read.
    pub(crate) fn new() -> Lines
        ensures { result ≡ between None }
    {
        Lines {
            place: Place::Fault(0),
            last: None,
        }
    }

    /// Reads the next byte.
    pub(crate) fn read(&mut self, byte: u8)
        ensures { self.new ≡ read_byte self.old byte }
    {
        self.place = self.place.behind(byte);
        if let Place::Number(number) = self.place {
            self.last = Some(number);
        }
    }

    /// Reads the next bytes.
    pub(crate) fn read_all(&mut self, bytes: &[u8])
        ensures { self.new ≡ read_bytes self.old bytes.now }
    {
        for byte in bytes {
            self.read(*byte);
        }
    }

    /// Whether the bytes read so far end with a whole line or source, or no byte has been read.
    pub(crate) fn is_between(&self) -> bool
        ensures { IsTrue result ↔ (self.now.place ≡ place.Fault 0) }
    {
        matches!(self.place, Place::Fault(0))
    }

    /// Whether the bytes read so far end within a source.
    pub(crate) fn is_within(&self) -> bool
        ensures { result ≡ is_within self.now.place }
    {
        matches!(self.place, Place::Within(_) | Place::Behind | Place::Broken)
    }

    /// The number of the fault that was reported last, if one was: 55 if the answer ends within a source.
    pub(crate) fn last(&self) -> Option<u32>
        ensures { result ≡ last_told self.now }
    {
        if self.is_within() {
            Some(INTERRUPTED)
        } else {
            self.last
        }
    }
}
