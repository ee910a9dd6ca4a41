// The bytes of a function that are still to be read. Each step reads one field from their front and leaves the bytes after it,
// or finds no field there.

ghost use Rattle.std.specs.Prelude.{◌≡◌, ◌==◌, length};
ghost use Rattle.cc_ltl.specs.internal.Reading.{Reads, binary_in, byte_in, half_in, register_in, slot_in, unary_in, width_in, word_in};

use crate::location::{Register, Slot};
use cc_words::{Binary, Unary, Width};
use std::marker::Model;

// ORDER Unary
// The operators of one operand and of two, each list in the order of their numbers.
const UNARY: [Unary; 3] = [Unary::Neg, Unary::Complement, Unary::IsZero];

// ORDER Binary
const BINARY: [Binary; 19] = [
    Binary::Add,
    Binary::Sub,
    Binary::Mul,
    Binary::DivS,
    Binary::DivU,
    Binary::RemS,
    Binary::RemU,
    Binary::Shl,
    Binary::ShrS,
    Binary::ShrU,
    Binary::And,
    Binary::Or,
    Binary::Xor,
    Binary::Eq,
    Binary::Ne,
    Binary::LtS,
    Binary::LtU,
    Binary::LeS,
    Binary::LeU,
];

/// The bytes that are still to be read. Contracts see them.
#[derive(Drop)]
pub struct Cursor<'a> {
    rest: &'a [u8],
}

impl<'a> Model for Cursor<'a> {
    ghost use Rattle.std.specs.Prelude.{List, ℕ};

    ghost Value = { List ℕ };

    ghost view = { λ cursor. cursor.rest.now };
}

impl<'a> Cursor<'a> {
    /// A cursor at the start of these bytes.
    pub fn new(bytes: &'a [u8]) -> Cursor<'a>
        ensures { result ≡ bytes.now }
    {
        Cursor { rest: bytes }
    }

    /// Whether no byte is left.
    pub fn is_at_end(&self) -> bool
        ensures { result ≡ (length self.now == 0) }
    {
        self.rest.is_empty()
    }

    pub fn byte(&mut self) -> Option<u8>
        ensures { Reads (byte_in self.old) result self.new }
    {
        match self.rest {
            [] => None,
            [byte, rest @ ..] => {
                self.rest = rest;
                Some(*byte)
            }
        }
    }

    /// Reads a number of two bytes.
    pub fn half(&mut self) -> Option<u16>
        ensures { Reads (half_in self.old) result self.new }
    {
        if self.rest.len() < 2 {
            return None;
        }
        let (prefix, rest) = self.rest.split_at(2);
        self.rest = rest;
        Some(u16::from_le_bytes([prefix[0], prefix[1]]))
    }

    /// Reads a number of four bytes.
    pub fn word(&mut self) -> Option<u32>
        ensures { Reads (word_in self.old) result self.new }
    {
        if self.rest.len() < 4 {
            return None;
        }
        let (prefix, rest) = self.rest.split_at(4);
        self.rest = rest;
        Some(u32::from_le_bytes([prefix[0], prefix[1], prefix[2], prefix[3]]))
    }

    #[tactic(auto, unfolding(crate::specs::internal::Reading::register_in))]
    pub fn register(&mut self) -> Option<Register>
        ensures { Reads (register_in self.old) result self.new }
    {
        Register::new(self.byte()?)
    }

    #[tactic(auto, unfolding(crate::specs::internal::Reading::slot_in))]
    pub fn slot(&mut self) -> Option<Slot>
        ensures { Reads (slot_in self.old) result self.new }
    {
        Slot::new(self.half()?)
    }

    #[tactic(auto, unfolding(crate::specs::internal::Reading::unary_in))]
    pub fn unary(&mut self) -> Option<Unary>
        ensures { Reads (unary_in self.old) result self.new }
    {
        let number = self.byte()?;
        match UNARY.get(usize::from(number)) {
            Some(operator) => Some(*operator),
            None => None,
        }
    }

    #[tactic(auto, unfolding(crate::specs::internal::Reading::binary_in))]
    pub fn binary(&mut self) -> Option<Binary>
        ensures { Reads (binary_in self.old) result self.new }
    {
        let number = self.byte()?;
        match BINARY.get(usize::from(number)) {
            Some(operator) => Some(*operator),
            None => None,
        }
    }

    /// Reads the width of an element, which is spelled as its number of bytes.
    #[tactic(auto, unfolding(crate::specs::internal::Reading::width_in))]
    pub fn width(&mut self) -> Option<Width>
        ensures { Reads (width_in self.old) result self.new }
    {
        match self.byte()? {
            1 => Some(Width::Byte),
            4 => Some(Width::Word),
            _ => None,
        }
    }
}
