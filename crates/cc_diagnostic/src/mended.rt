// A copy of a text in which errors of scope and type are mended, to find the next ones.
//
// A name that breaks a rule gets another first letter, with which it occurs nowhere else, and a declaration before the text
// makes the new name what its use needs. A wrong keyword is blanked, and an expression that is not constant becomes `1`. So
// each byte of the text keeps its offset.

use super::walk::Use;
use cc_tokens::{MOST_BYTES, SyntaxFault, Token, tokens};
use std::alloc::{AllocError, Global};

/// The letters with which a new name may begin.
const LETTERS: &[u8] = b"ABCDEFGHIJKLMNOPQRSTUVWXYZabcdefghijklmnopqrstuvwxyz_";

/// The largest number of parameters that a function may have.
const PARAMETERS: &[u8] = b"int a,int b,int c,int d,int e,int f,int g,int h";

/// A copy of a text, and the declarations before it.
#[derive(Drop)]
pub struct Mended {
    declared: Vec<u8>,
    text: Vec<u8>,
}

// A word without its first letter.
fn tail(word: &[u8]) -> &[u8] {
    word.get(1..).unwrap_or(b"")
}

// What follows the first letter in the declaration of a word that its use requires.
fn declaration(word: &[u8], done: Use) -> [&[u8]; 4] {
    let (open, parameters, close): (&[u8], &[u8], &[u8]) = match done {
        Use::Called(count) => {
            let length = count.saturating_mul(6).saturating_sub(1);
            (b"(", PARAMETERS.get(..length).unwrap_or(PARAMETERS), b"){}")
        }
        Use::Indexed => (b"[1];", b"", b""),
        _ => (b";", b"", b""),
    };
    [tail(word), open, parameters, close]
}

// The first token after an offset.
fn token_behind(tokens: &[Token], at: usize) -> Option<Token> {
    for token in tokens {
        if token.from > at {
            return Some(*token);
        }
    }
    None
}

impl Mended {
    /// Returns a copy of a text, with nothing mended.
    pub fn new(alloc: Global, text: &[u8]) -> Result<Mended, AllocError> {
        Ok(Mended {
            declared: Vec::new(alloc),
            text: Vec::from_slice(alloc, text)?,
        })
    }

    /// How many bytes precede the text.
    pub fn shift(&self) -> usize {
        self.declared.len()
    }

    /// Whether the copy stays within the limit of bytes if one more name is declared in the way that its use requires.
    pub fn has_room(&self, word: &[u8], done: Use) -> bool {
        let mut length = self
            .declared
            .len()
            .saturating_add(self.text.len())
            .saturating_add(5);
        for part in declaration(word, done) {
            length = length.saturating_add(part.len());
        }
        length <= MOST_BYTES
    }

    /// The declarations, followed by the text.
    pub fn joined(&self, alloc: Global) -> Result<Vec<u8>, AllocError> {
        let mut joined = Vec::from_slice(alloc, self.declared.as_slice())?;
        match joined.extend_from_slice(self.text.as_slice()) {
            Ok(()) => Ok(joined),
            Err(error) => {
                drop(joined);
                Err(error)
            }
        }
    }

    /// The tokens of the text.
    pub fn tokens(&self, alloc: Global) -> Result<Vec<Token>, AllocError> {
        match tokens(alloc, self.text.as_slice()) {
            Ok(tokens) => Ok(tokens),
            Err(SyntaxFault::OutOfMemory) => Err(AllocError),
            Err(fault) => {
                drop(fault);
                Ok(Vec::new(alloc))
            }
        }
    }

    fn byte(&self, at: usize) -> u8 {
        self.text.get(at).copied().unwrap_or(b';')
    }

    fn put(&mut self, at: usize, byte: u8) {
        if let Some(place) = self.text.get_mut(at) {
            *place = byte;
        }
    }

    /// Makes the bytes from one offset up to another blank, except ends of lines.
    pub fn blank(&mut self, from: usize, to: usize) {
        for at in from..to.min(self.text.len()) {
            if self.byte(at) != b'\n' {
                self.put(at, b' ');
            }
        }
    }

    // The bytes of a token.
    fn bytes(&self, token: Token) -> &[u8] {
        self.text.get(token.from..token.to).unwrap_or(b"")
    }

    // Whether a token is this word with `letter` in place of its first letter.
    fn is(&self, token: Token, letter: u8, word: &[u8]) -> bool {
        let bytes = self.bytes(token);
        bytes.first() == Some(&letter) && tail(bytes) == tail(word)
    }

    // Marks each letter, by its code, that is the first one of a token that is otherwise this word.
    fn mark_taken(&self, tokens: &[Token], word: &[u8], taken: &mut [bool]) {
        for token in tokens {
            let bytes = self.bytes(*token);
            if let Some(first) = bytes.first()
                && tail(bytes) == tail(word)
                && let Some(place) = taken.get_mut(*first as usize)
            {
                *place = true;
            }
        }
    }

    // The first of the letters with which the name does not occur in the text; the name's own letter if it occurs with each of
    // them.
    fn free_letter(&self, tokens: &[Token], word: &[u8]) -> u8 {
        let mut taken = [false; 256];
        self.mark_taken(tokens, word, &mut taken);
        for letter in LETTERS {
            if !taken[*letter as usize] {
                return *letter;
            }
        }
        word.first().copied().unwrap_or(b'_')
    }

    // Renames a word: it gets the first letter `letter` wherever it occurs from the offset `at` up to the offset `to`.
    fn rename(&mut self, tokens: &[Token], word: &[u8], letter: u8, at: usize, to: usize) {
        let old = self.byte(at);
        for token in tokens {
            if at <= token.from && token.from < to && self.is(*token, old, word) {
                self.put(token.from, letter);
            }
        }
    }

    // Declares the word with this first letter in the way that its use requires.
    fn declare(&mut self, letter: u8, word: &[u8], done: Use) -> Result<(), AllocError> {
        self.declared.extend_from_slice(b"int ")?;
        self.declared.push(letter)?;
        for part in declaration(word, done) {
            self.declared.extend_from_slice(part)?;
        }
        Ok(())
    }

    /// Mends a name that breaks a rule at the offset `at`: from there up to the offset `to` it is renamed, and the new name is
    /// declared in the way that its use requires. If the use is itself a declaration, nothing more is declared.
    pub fn mend_name(
        &mut self,
        tokens: &[Token],
        word: &[u8],
        done: Use,
        at: usize,
        to: usize,
    ) -> Result<(), AllocError> {
        let letter = self.free_letter(tokens, word);
        self.rename(tokens, word, letter, at, to);
        match done {
            Use::Declared => Ok(()),
            _ => self.declare(letter, word, done),
        }
    }

    // The offset of the end of the constant expression that begins at `at`.
    fn end_of_constant(&self, tokens: &[Token], at: usize) -> usize {
        let mut depth: usize = 0;
        for token in tokens {
            if token.from >= at {
                match self.byte(token.from) {
                    b'(' | b'[' => depth = depth.saturating_add(1),
                    b')' | b']' if depth > 0 => depth -= 1,
                    b')' | b']' | b'}' | b';' => return token.from,
                    b',' if depth == 0 => return token.from,
                    _ => {}
                }
            }
        }
        self.text.len()
    }

    /// Replaces the expression at an offset, which should be constant, with `1`.
    pub fn mend_constant(&mut self, tokens: &[Token], at: usize) {
        let end = self.end_of_constant(tokens, at);
        self.blank(at, end);
        self.put(at, b'1');
    }

    /// Mends the length of the array whose name is at an offset: the array's list gives the length; without a list it becomes
    /// 1.
    pub fn mend_length(
        &mut self,
        tokens: &[Token],
        word: &[u8],
        at: usize,
    ) -> Result<(), AllocError> {
        let Some(open) = token_behind(tokens, at) else {
            return Ok(());
        };
        let close = self.end_of_constant(tokens, open.to);
        self.blank(open.to, close);
        let next = token_behind(tokens, close).map(|token| token.from);
        if self.byte(next.unwrap_or(close)) == b'=' {
            return Ok(());
        }
        if open.to < close {
            self.put(open.to, b'1');
            return Ok(());
        }
        // There is no room between the brackets, so the array is declared before the text.
        self.blank(open.from, close.saturating_add(1));
        self.declare(self.byte(at), word, Use::Indexed)?;
        self.mend_name(tokens, word, Use::Declared, at, at.saturating_add(1))
    }

    /// Adds a definition of `main` before the text.
    pub fn add_main(&mut self) -> Result<(), AllocError> {
        self.declared.extend_from_slice(b"int main(void){}")
    }
}
