// The operators of the intermediate languages (three on one word, nineteen on two), and the width of the elements that these
// languages load and store. Every language after C has exactly these operators, so they are defined here once, with their values.

ghost use Rattle.std.specs.Prelude.{◌≡◌};
ghost use Rattle.cc_words.specs.Operators.{apply_unary, apply_binary, unary_text, binary_text};
ghost use Rattle.cc_words.specs.Widths.{bytes, kept, width_text, words_of};

use super::{
    add, div_s, div_u, eq, le_s, le_u, lt_s, lt_u, mul, ne, rem_s, rem_u, shl, shr_s, shr_u, sub,
};

// ORDER Unary
/// An operator on one word.
#[derive(Clone, Copy)]
pub enum Unary {
    /// 0 minus the word (C99 6.5.3.3): `-`.
    Neg,
    /// Each bit flipped (C99 6.5.3.3): `~`.
    Complement,
    /// 1 for 0, 0 for any other word (C99 6.5.3.3): `!`.
    IsZero,
}

impl Unary {
    /// The operator's value for this word.
    pub fn apply(self, word: u32) -> u32
        ensures { result ≡ apply_unary self word }
    {
        match self {
            Unary::Neg => sub(0, word),
            Unary::Complement => !word,
            Unary::IsZero => eq(word, 0),
        }
    }

    /// The operator's name in a listing.
    pub fn name(self) -> &'static str
        ensures { result.now ≡ unary_text self }
    {
        match self {
            Unary::Neg => "neg",
            Unary::Complement => "complement",
            Unary::IsZero => "is_zero",
        }
    }
}

// ORDER Binary
/// An operator on two words. An `S` at the end of a name reads them as signed numbers, a `U` as unsigned ones.
#[derive(Clone, Copy)]
pub enum Binary {
    /// `+` (C99 6.5.6).
    Add,
    /// `-` (C99 6.5.6).
    Sub,
    /// `*` (C99 6.5.5).
    Mul,
    /// `/` (C99 6.5.5).
    DivS,
    /// `/` (C99 6.5.5).
    DivU,
    /// `%` (C99 6.5.5).
    RemS,
    /// `%` (C99 6.5.5).
    RemU,
    /// `<<` (C99 6.5.7).
    Shl,
    /// `>>` (C99 6.5.7).
    ShrS,
    /// `>>` (C99 6.5.7).
    ShrU,
    /// `&` (C99 6.5.10).
    And,
    /// `|` (C99 6.5.12).
    Or,
    /// `^` (C99 6.5.11).
    Xor,
    /// `==` (C99 6.5.9).
    Eq,
    /// `!=` (C99 6.5.9).
    Ne,
    /// `<` (C99 6.5.8).
    LtS,
    /// `<` (C99 6.5.8).
    LtU,
    /// `<=` (C99 6.5.8).
    LeS,
    /// `<=` (C99 6.5.8).
    LeU,
}

impl Binary {
    /// The operator's value for these words.
    ///
    /// `None` exactly if there is no value: a divisor of 0, a signed division of -2147483648 by -1, or a shift by 32 or more.
    pub fn apply(self, left: u32, right: u32) -> Option<u32>
        ensures { result ≡ apply_binary self left right }
    {
        // ORDER Binary
        match self {
            Binary::Add => Some(add(left, right)),
            Binary::Sub => Some(sub(left, right)),
            Binary::Mul => Some(mul(left, right)),
            Binary::DivS => div_s(left, right),
            Binary::DivU => div_u(left, right),
            Binary::RemS => rem_s(left, right),
            Binary::RemU => rem_u(left, right),
            Binary::Shl => shl(left, right),
            Binary::ShrS => shr_s(left, right),
            Binary::ShrU => shr_u(left, right),
            Binary::And => Some(left & right),
            Binary::Or => Some(left | right),
            Binary::Xor => Some(left ^ right),
            Binary::Eq => Some(eq(left, right)),
            Binary::Ne => Some(ne(left, right)),
            Binary::LtS => Some(lt_s(left, right)),
            Binary::LtU => Some(lt_u(left, right)),
            Binary::LeS => Some(le_s(left, right)),
            Binary::LeU => Some(le_u(left, right)),
        }
    }

    /// The operator's name in a listing.
    pub fn name(self) -> &'static str
        ensures { result.now ≡ binary_text self }
    {
        // ORDER Binary
        match self {
            Binary::Add => "add",
            Binary::Sub => "sub",
            Binary::Mul => "mul",
            Binary::DivS => "div_s",
            Binary::DivU => "div_u",
            Binary::RemS => "rem_s",
            Binary::RemU => "rem_u",
            Binary::Shl => "shl",
            Binary::ShrS => "shr_s",
            Binary::ShrU => "shr_u",
            Binary::And => "and",
            Binary::Or => "or",
            Binary::Xor => "xor",
            Binary::Eq => "eq",
            Binary::Ne => "ne",
            Binary::LtS => "lt_s",
            Binary::LtU => "lt_u",
            Binary::LeS => "le_s",
            Binary::LeU => "le_u",
        }
    }
}

/// How wide the elements of an object are.
#[derive(Clone, Copy)]
pub enum Width {
    /// 1 byte: an array of `unsigned char`.
    Byte,
    /// 4 bytes: every other object.
    Word,
}

impl Width {
    /// How many bytes an element occupies: 1 or 4.
    pub fn bytes(self) -> u8
        ensures { result ≡ bytes self }
    {
        match self {
            Width::Byte => 1,
            Width::Word => 4,
        }
    }

    /// The part of a word that an element keeps when the word is stored in it: a byte keeps the low eight bits (C99 6.3.1.3).
    #[inline(always)]
    pub fn kept(self, word: u32) -> u32
        ensures { result ≡ kept self word }
    {
        match self {
            Width::Byte => word % 256,
            Width::Word => word,
        }
    }

    /// How many words this many elements fill, a partly filled last word included.
    pub fn words_of(self, elements: usize) -> usize
        ensures { result ≡ words_of self elements }
    {
        match self {
            Width::Byte => elements / 4 + usize::from(elements % 4 != 0),
            Width::Word => elements,
        }
    }

    /// What a listing writes before an element: `byte ` for a byte, nothing for a word.
    pub fn mark(self) -> &'static str
        ensures { result.now ≡ width_text self }
    {
        match self {
            Width::Byte => "byte ",
            Width::Word => "",
        }
    }
}
