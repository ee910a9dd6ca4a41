// A text without character constants and `#define`: each character constant becomes its number, and `#define` a word that no
// program has. All other bytes stay, so each token keeps its offset.
//
// What is wrong keeps or gets a byte that begins no token, so that the next reader refuses it at its place.

ghost use Rattle.std.specs.Prelude.{◌≡◌, ◌≤◌, true, slice_index, IfOk};
ghost use Rattle.std.specs.Char.{digit_value};
ghost use Rattle.cc_tokens.specs.Tokens.{is_blank};
ghost use Rattle.cc_wide_text.specs.Plain.{continues, is_octal, escape_value, found, octal_character, hexadecimal_character, escaped_character, character_of, digit_byte, begins_define, plain};

use std::alloc::{AllocError, Global};

/// What a byte is a part of.
#[derive(Clone, Copy)]
pub enum Region {
    Code,
    /// A comment up to the end of the line.
    Line,
    /// A comment up to `*/`.
    Block,
}

/// What the next bytes are written as.
#[derive(Clone, Copy)]
pub enum Pending {
    Nothing,
    /// One byte is copied.
    Same,
    /// The decimal digits of a value, from digit `number` on, up to `len` bytes.
    Value(u8, u8, u8),
    /// The word for `#define`, from byte `number` on.
    Define(u8),
}

/// What has been read up to a byte.
#[derive(Clone, Copy)]
pub struct State {
    pub region: Region,
    pub pending: Pending,
    /// The byte before belongs to a word or a number.
    pub word: bool,
    /// The line has only white space so far.
    pub fresh: bool,
    /// The line begins with `#define`.
    pub define: bool,
}

/// The byte that is written, and the state after it.
#[derive(Clone, Copy)]
pub struct Step {
    pub byte: u8,
    pub state: State,
}

/// A character constant: its value and how many bytes it has; no bytes if there is no constant.
#[derive(Clone, Copy)]
pub struct Character {
    pub value: u8,
    pub len: u8,
}

const START: State = State {
    region: Region::Code,
    pending: Pending::Nothing,
    word: false,
    fresh: true,
    define: false,
};

/// The word that `#define` becomes.
pub const MACRO: &[u8] = b"__macro";

// The byte at an index, or 0 past the end.
fn byte_at(bytes: &[u8], i: usize) -> u8
    ensures { result ≡ slice_index bytes.now i }
{
    if i < bytes.len() { bytes[i] } else { 0 }
}

fn is_blank(b: u8) -> bool
    ensures { result ≡ is_blank b }
{
    b == b' ' || (9 <= b && b <= 13)
}

fn continues(b: u8) -> bool
    ensures { result ≡ continues b }
{
    (b.is_ascii_alphabetic() || b == b'_') || b.is_ascii_digit()
}

fn is_octal(b: u8) -> bool
    ensures { result ≡ is_octal b }
{
    48 <= b && b <= 55
}

fn digit_value(b: u8) -> u8
    ensures value { result ≡ digit_value b }
    ensures bound { result ≤ 36 }
{
    match b {
        b'0'..=b'9' => b - 48,
        b'A'..=b'Z' => b - 55,
        b'a'..=b'z' => b - 87,
        _ => 36,
    }
}

fn escape_value(b: u8) -> u8
    ensures { result ≡ escape_value b }
{
    match b {
        34 => 34,
        39 => 39,
        63 => 63,
        92 => 92,
        97 => 7,
        98 => 8,
        102 => 12,
        110 => 10,
        114 => 13,
        116 => 9,
        118 => 11,
        _ => 128,
    }
}

fn found(value: u8, len: u8) -> Character
    ensures { result ≡ found value len }
{
    Character { value, len }
}

fn octal_character(bytes: &[u8]) -> Character
    requires { is_octal (slice_index bytes.now 2) ≡ true }
    ensures { result ≡ octal_character bytes.now }
{
    let a = byte_at(bytes, 2);
    let b = byte_at(bytes, 3);
    let c = byte_at(bytes, 4);
    if b == 39 {
        found(a - 48, 4)
    } else if is_octal(b) && c == 39 {
        found((a - 48) * 8 + (b - 48), 5)
    } else if (a <= 49 && is_octal(b)) && (is_octal(c) && byte_at(bytes, 5) == 39) {
        found((a - 48) * 64 + (b - 48) * 8 + (c - 48), 6)
    } else {
        found(0, 0)
    }
}

fn hexadecimal_character(bytes: &[u8]) -> Character
    ensures { result ≡ hexadecimal_character bytes.now }
{
    let a = byte_at(bytes, 3);
    let b = byte_at(bytes, 4);
    if digit_value(a) < 16 && b == 39 {
        found(digit_value(a), 5)
    } else if (is_octal(a) && digit_value(b) < 16) && byte_at(bytes, 5) == 39 {
        found(digit_value(a) * 16 + digit_value(b), 6)
    } else {
        found(0, 0)
    }
}

fn escaped_character(bytes: &[u8]) -> Character
    ensures { result ≡ escaped_character bytes.now }
{
    let e = byte_at(bytes, 2);
    if e == 120 {
        hexadecimal_character(bytes)
    } else if is_octal(e) {
        octal_character(bytes)
    } else if escape_value(e) < 128 && byte_at(bytes, 3) == 39 {
        found(escape_value(e), 4)
    } else {
        found(0, 0)
    }
}

fn character_of(bytes: &[u8]) -> Character
    ensures { result ≡ character_of bytes.now }
{
    let b = byte_at(bytes, 1);
    if b == 92 {
        escaped_character(bytes)
    } else if (32 <= b && b <= 126) && (b != 39 && byte_at(bytes, 2) == 39) {
        found(b, 3)
    } else {
        found(0, 0)
    }
}

fn digit_byte(value: u8, k: u8) -> u8
    ensures { result ≡ digit_byte value k }
{
    if value < 10 {
        if k == 0 { 48 + value } else { 32 }
    } else if value < 100 {
        if k == 0 {
            48 + value / 10
        } else if k == 1 {
            48 + value % 10
        } else {
            32
        }
    } else if k == 0 {
        49
    } else if k == 1 {
        48 + (value - 100) / 10
    } else if k == 2 {
        48 + value % 10
    } else {
        32
    }
}

fn begins_define(bytes: &[u8]) -> bool
    ensures { result ≡ begins_define bytes.now }
{
    bytes.starts_with(b"#define") && (is_blank(byte_at(bytes, 7)) && byte_at(bytes, 7) != 10)
}

impl State {
    ghost use Rattle.cc_wide_text.specs.Plain.{step, after_byte, line_end, character_step, define_step, comment_step, other_step, code_step, line_step, block_step, pending_step, step_of, with_pending};

    fn after_byte(self, word: bool) -> State
        ensures { result ≡ after_byte self word }
    {
        State {
            word,
            fresh: false,
            ..self
        }
    }

    fn with_pending(self, next: Pending) -> State
        ensures { result ≡ with_pending self next }
    {
        State {
            pending: next,
            ..self
        }
    }

    fn line_end(self) -> Step
        ensures { result ≡ line_end self }
    {
        Step {
            byte: if self.define { 59 } else { 10 },
            state: State {
                region: Region::Code,
                word: false,
                fresh: true,
                define: false,
                ..self
            },
        }
    }

    fn character_step(self, bytes: &[u8]) -> Step
        ensures { result ≡ character_step self bytes.now (character_of bytes.now) }
    {
        let c = character_of(bytes);
        if (!self.word && 0 < c.len) && !continues(byte_at(bytes, c.len as usize)) {
            Step {
                byte: digit_byte(c.value, 0),
                state: self
                    .after_byte(true)
                    .with_pending(Pending::Value(c.value, 1, c.len)),
            }
        } else {
            Step {
                byte: 39,
                state: self.after_byte(false),
            }
        }
    }

    fn define_step(self, bytes: &[u8]) -> Step
        ensures { result ≡ define_step self bytes.now }
    {
        if self.fresh && begins_define(bytes) {
            let state = State {
                define: true,
                ..self.after_byte(true)
            };
            Step {
                byte: 95,
                state: state.with_pending(Pending::Define(1)),
            }
        } else {
            Step {
                byte: 35,
                state: self.after_byte(false),
            }
        }
    }

    fn comment_step(self, next: u8) -> Step
        ensures { result ≡ comment_step self next }
    {
        if next == 47 {
            Step {
                byte: if self.define { 32 } else { 47 },
                state: State {
                    region: Region::Line,
                    ..self.after_byte(false)
                },
            }
        } else {
            let state = State {
                region: Region::Block,
                ..self.after_byte(false)
            };
            Step {
                byte: 47,
                state: state.with_pending(Pending::Same),
            }
        }
    }

    fn other_step(self, b: u8, next: u8) -> Step
        ensures { result ≡ other_step self b next }
    {
        if b == 59 && self.define {
            Step {
                byte: 35,
                state: self.after_byte(false),
            }
        } else if (b == 95 && next == 95) && !self.word {
            Step {
                byte: 35,
                state: self.after_byte(true),
            }
        } else {
            Step {
                byte: b,
                state: self.after_byte(continues(b)),
            }
        }
    }

    fn code_step(self, bytes: &[u8]) -> Step
        ensures { result ≡ code_step self bytes.now }
    {
        let b = byte_at(bytes, 0);
        let next = byte_at(bytes, 1);
        if b == 10 {
            self.line_end()
        } else if is_blank(b) {
            Step {
                byte: b,
                state: State {
                    word: false,
                    ..self
                },
            }
        } else if b == 47 && (next == 47 || next == 42) {
            self.comment_step(next)
        } else if b == 39 {
            self.character_step(bytes)
        } else if b == 35 {
            self.define_step(bytes)
        } else {
            self.other_step(b, next)
        }
    }

    fn line_step(self, b: u8) -> Step
        ensures { result ≡ line_step self b }
    {
        if b == 10 {
            self.line_end()
        } else {
            Step {
                byte: if self.define && b != 92 { 32 } else { b },
                state: self,
            }
        }
    }

    fn block_step(self, b: u8, next: u8) -> Step
        ensures { result ≡ block_step self b next }
    {
        if b == 42 && next == 47 {
            let state = State {
                region: Region::Code,
                ..self
            };
            Step {
                byte: b,
                state: state.with_pending(Pending::Same),
            }
        } else {
            Step {
                byte: b,
                state: self,
            }
        }
    }

    /// The byte that is written for the first of these bytes, and the state after it.
    fn step(self, bytes: &[u8]) -> Step
        ensures { result ≡ step_of self bytes.now }
    {
        match self.pending {
            Pending::Nothing => match self.region {
                Region::Code => self.code_step(bytes),
                Region::Line => self.line_step(byte_at(bytes, 0)),
                Region::Block => self.block_step(byte_at(bytes, 0), byte_at(bytes, 1)),
            },
            Pending::Same => Step {
                byte: byte_at(bytes, 0),
                state: self.with_pending(Pending::Nothing),
            },
            Pending::Value(value, k, len) => {
                let next = if k < 7 && k + 1 < len {
                    Pending::Value(value, k + 1, len)
                } else {
                    Pending::Nothing
                };
                Step {
                    byte: digit_byte(value, k),
                    state: self.with_pending(next),
                }
            }
            Pending::Define(k) => {
                let next = if k < 6 {
                    Pending::Define(k + 1)
                } else {
                    Pending::Nothing
                };
                Step {
                    byte: byte_at(MACRO, k as usize),
                    state: self.with_pending(next),
                }
            }
        }
    }
}

/// The text without character constants and `#define`, byte for byte.
pub fn plain(alloc: Global, text: &[u8]) -> Result<Vec<u8>, AllocError>
    ensures { IfOk result (λ v. v.items ≡ plain text.now) }
{
    let mut written = Vec::new(alloc);
    let mut state = START;
    for i in 0..text.len() {
        let step = state.step(&text[i..]);
        written.push(step.byte)?;
        state = step.state;
    }
    Ok(written)
}
