// How each line of a script was answered. As the answers are written, the last line of each shows this.

use std::alloc::Global;

/// At most this many bytes of a line matter.
const LINE_BYTES: usize = 64;

/// The last record of an image, in Intel HEX.
const LAST_RECORD: &[u8] = b":00000001FF";

/// The number of the fault of an answer that can't be written.
const WRITE_FAULT: u32 = 54;

/// How a line was answered.
#[derive(Clone, Copy, Drop)]
pub(crate) enum Word {
    Ok,
    Fault(u32),
    Going,
    Exited,
    Trapped,
    Source,
    Image,
}

// The words with which the last line of an answer begins, unless it reports a fault.
static WORDS: [(&str, Word); 5] = [
    ("ok", Word::Ok),
    ("going", Word::Going),
    ("exited", Word::Exited),
    ("trapped", Word::Trapped),
    ("source", Word::Source),
];

/// For each line whose answer was written so far, how it was answered.
#[derive(Drop)]
pub(crate) struct AnswerWords {
    // The first bytes of the line that is being written, as far as they matter.
    line: Vec<u8>,
    // How many bytes of a source, including its newline, are still to come.
    within: u64,
    words: Vec<Word>,
    // Whether all words so far were kept.
    is_whole: bool,
}

// The number that the digits of a word spell.
fn number_of(word: &[u8]) -> u32 {
    let mut number = 0u32;
    for byte in word {
        if byte.is_ascii_digit() {
            let digit = u32::from(byte.saturating_sub(b'0'));
            number = number.saturating_mul(10).saturating_add(digit);
        }
    }
    number
}

/// The first two words of a line: what is before the first space, and what is between that and the next one, if there is one.
pub(crate) fn first_words(line: &[u8]) -> (&[u8], Option<&[u8]>) {
    let mut words = line.split(|byte| *byte == b' ');
    let first = words.next().unwrap_or(b"");
    (first, words.next())
}

// How a line of the script was answered, if this line ends its answer.
fn word_of(line: &[u8]) -> Option<Word> {
    if line == LAST_RECORD {
        return Some(Word::Image);
    }
    let (first, second) = first_words(line);
    if first == b"fault".as_slice() {
        return Some(Word::Fault(number_of(second.unwrap_or(b""))));
    }
    for (name, word) in &WORDS {
        if first == name.as_bytes() {
            return Some(*word);
        }
    }
    None
}

// How many bytes the source after a line has, including the newline at its end.
fn source_after(line: &[u8]) -> u64 {
    match first_words(line) {
        (first, Some(digits)) if first == b"source".as_slice() => {
            u64::from(number_of(digits)).saturating_add(1)
        }
        _ => 0,
    }
}

impl AnswerWords {
    /// The state before any of the answer is written.
    pub(crate) fn new(alloc: Global) -> AnswerWords {
        AnswerWords {
            line: Vec::new(alloc),
            within: 0,
            words: Vec::new(alloc),
            is_whole: true,
        }
    }

    /// How the lines were answered, in order.
    pub(crate) fn words(&self) -> &[Word] {
        self.words.as_slice()
    }

    // Notes how a line of the script was answered.
    fn note(&mut self, word: Word) {
        if self.is_whole {
            self.is_whole = self.words.push(word).is_ok();
        }
    }

    /// Notes that the answer to a line was refused: 54.
    pub(crate) fn refuse(&mut self) {
        self.note(Word::Fault(WRITE_FAULT));
    }

    // A line has ended.
    fn end_line(&mut self) {
        if let Some(word) = word_of(self.line.as_slice()) {
            self.note(word);
        }
        self.within = source_after(self.line.as_slice());
        self.line.clear();
    }

    // Takes a byte of the answer.
    fn take_byte(&mut self, byte: u8) {
        if self.within > 0 {
            self.within -= 1;
        } else if byte == b'\n' {
            self.end_line();
        } else if self.line.len() < LINE_BYTES && self.line.push(byte).is_err() {
            self.is_whole = false;
        }
    }

    /// Takes bytes that were written.
    pub(crate) fn take(&mut self, bytes: &[u8]) {
        for byte in bytes {
            self.take_byte(*byte);
        }
    }
}
