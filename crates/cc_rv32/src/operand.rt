// The operands of instructions: each type has exactly the values that fit in its field of the instruction word.

ghost use Rattle.std.specs.Prelude.{◌≡◌, ◌<◌, ◌^◌, ◌↔◌, IsTrue};
ghost use Rattle.cc_rv32.specs.Fields.{IsImmediate, IsBranchOffset, IsJumpOffset};

use std::marker::Model;

/// One of the thirty-two integer registers, `x0` to `x31`.
#[derive(Clone, Copy)]
pub struct Register {
    number: u8,
}

impl Model for Register {
    ghost use Rattle.std.specs.Prelude.{ℕ, ◌<◌};

    ghost Value = { ℕ };

    ghost view = { λ r. r.number };

    ghost invariant = { λ r. r.number < 32 };

    ghost inverse = { λ n. record { number = n } };
}

impl Register {
    /// The register with this number, `x0` to `x31`.
    pub fn new(number: u8) -> Self
        requires { number < 32 }
        ensures { result ≡ number }
    {
        Register { number }
    }

    /// The register's number, 0 to 31.
    #[inline]
    pub fn number(self) -> u8
        ensures number { result ≡ self }
        ensures in_range { result < 32 }
    {
        self.number
    }
}

/// The count of a shift by a constant, 0 to 31 bits.
#[derive(Clone, Copy)]
pub struct ShiftCount {
    amount: u8,
}

impl Model for ShiftCount {
    ghost use Rattle.std.specs.Prelude.{ℕ, ◌<◌};

    ghost Value = { ℕ };

    ghost view = { λ c. c.amount };

    ghost invariant = { λ c. c.amount < 32 };

    ghost inverse = { λ n. record { amount = n } };
}

impl ShiftCount {
    /// A shift by this many bits.
    pub fn new(amount: u8) -> Self
        requires { amount < 32 }
        ensures { result ≡ amount }
    {
        ShiftCount { amount }
    }

    /// How many bits, 0 to 31.
    #[inline]
    pub fn amount(self) -> u8
        ensures amount { result ≡ self }
        ensures in_range { result < 32 }
    {
        self.amount
    }
}

/// An immediate of twelve bits, -2048 to 2047, as its 32-bit word in two's complement: -1 is 4294967295.
#[derive(Clone, Copy)]
pub struct Immediate {
    word: u32,
}

impl Model for Immediate {
    ghost use Rattle.std.specs.Prelude.{ℕ};
    ghost use Rattle.cc_rv32.specs.Fields.{IsImmediate};

    ghost Value = { ℕ };

    ghost view = { λ i. i.word };

    ghost invariant = { λ i. IsImmediate i.word };

    ghost inverse = { λ w. record { word = w } };
}

impl Immediate {
    /// Whether the word is a number from -2048 to 2047 in two's complement.
    pub fn fits(word: u32) -> bool
        ensures { IsTrue result ↔ IsImmediate word }
    {
        word.wrapping_add(1 << 11) < 1 << 12
    }

    /// The immediate with this word.
    pub fn new(word: u32) -> Self
        requires { IsImmediate word }
        ensures { result ≡ word }
    {
        Immediate { word }
    }

    /// The immediate's word.
    #[inline]
    pub fn word(self) -> u32
        ensures word { result ≡ self }
        ensures in_range { IsImmediate result }
    {
        self.word
    }
}

/// The upper immediate of `lui` and `auipc`: the twenty bits 31 to 12 of a word, 0 to 1048575.
#[derive(Clone, Copy)]
pub struct UpperImmediate {
    field: u32,
}

impl Model for UpperImmediate {
    ghost use Rattle.std.specs.Prelude.{ℕ, ◌<◌, ◌^◌};

    ghost Value = { ℕ };

    ghost view = { λ i. i.field };

    ghost invariant = { λ i. i.field < 2 ^ 20 };

    ghost inverse = { λ n. record { field = n } };
}

impl UpperImmediate {
    /// The upper immediate with this field.
    pub fn new(field: u32) -> Self
        requires { field < 2 ^ 20 }
        ensures { result ≡ field }
    {
        UpperImmediate { field }
    }

    /// The field, 0 to 1048575. The immediate's word is 4096 times that.
    #[inline]
    pub fn field(self) -> u32
        ensures field { result ≡ self }
        ensures in_range { result < 2 ^ 20 }
    {
        self.field
    }
}

/// The distance of a branch in bytes: an even number from -4096 to 4094, as its 32-bit word in two's complement.
#[derive(Clone, Copy)]
pub struct BranchOffset {
    word: u32,
}

impl Model for BranchOffset {
    ghost use Rattle.std.specs.Prelude.{ℕ};
    ghost use Rattle.cc_rv32.specs.Fields.{IsBranchOffset};

    ghost Value = { ℕ };

    ghost view = { λ o. o.word };

    ghost invariant = { λ o. IsBranchOffset o.word };

    ghost inverse = { λ w. record { word = w } };
}

impl BranchOffset {
    /// Whether the word is an even number from -4096 to 4094 in two's complement.
    pub fn fits(word: u32) -> bool
        ensures { IsTrue result ↔ IsBranchOffset word }
    {
        word % 2 == 0 && word.wrapping_add(1 << 12) < 1 << 13
    }

    /// The offset with this word.
    pub fn new(word: u32) -> Self
        requires { IsBranchOffset word }
        ensures { result ≡ word }
    {
        BranchOffset { word }
    }

    /// The offset's word.
    #[inline]
    pub fn word(self) -> u32
        ensures word { result ≡ self }
        ensures in_range { IsBranchOffset result }
    {
        self.word
    }
}

/// The distance of a jump in bytes: an even number from -1048576 to 1048574, as its 32-bit word in two's complement.
#[derive(Clone, Copy)]
pub struct JumpOffset {
    word: u32,
}

impl Model for JumpOffset {
    ghost use Rattle.std.specs.Prelude.{ℕ};
    ghost use Rattle.cc_rv32.specs.Fields.{IsJumpOffset};

    ghost Value = { ℕ };

    ghost view = { λ o. o.word };

    ghost invariant = { λ o. IsJumpOffset o.word };

    ghost inverse = { λ w. record { word = w } };
}

impl JumpOffset {
    /// Whether the word is an even number from -1048576 to 1048574 in two's complement.
    pub fn fits(word: u32) -> bool
        ensures { IsTrue result ↔ IsJumpOffset word }
    {
        word % 2 == 0 && word.wrapping_add(1 << 20) < 1 << 21
    }

    /// The offset with this word.
    pub fn new(word: u32) -> Self
        requires { IsJumpOffset word }
        ensures { result ≡ word }
    {
        JumpOffset { word }
    }

    /// The offset's word.
    #[inline]
    pub fn word(self) -> u32
        ensures word { result ≡ self }
        ensures in_range { IsJumpOffset result }
    {
        self.word
    }
}
