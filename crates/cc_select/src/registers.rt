// Sets of registers.

ghost use Rattle.std.specs.Prelude.{◌≡◌, ◌<◌};
ghost use Rattle.cc_select.specs.Live.{nothing, with, without, either};
ghost use Rattle.cc_select.specs.internal.Sets.{holds, surviving, every, alone, before_call, within};

/// The register of a call's result, and of the word that is read or written: x10.
pub(crate) const RESULT: u8 = 10;

/// The register that is destroyed by reading or writing a word: x17.
pub(crate) const DESTROYED: u8 = 17;

// The registers that a call keeps: x8, x9 and x18 to x27.
const SURVIVORS: u32 = 0x0FFC_0300;

// The registers in which arguments may be passed: x10 to x17.
const ARGUMENTS: u32 = 0x0003_FC00;

/// A set of registers: one bit for each.
#[derive(Clone, Copy)]
pub(crate) struct Registers {
    bits: u32,
}

impl Registers {
    /// No register.
    pub(crate) fn none() -> Registers
        ensures { holds result ≡ nothing }
    {
        Registers { bits: 0 }
    }

    /// All 32 registers.
    pub(crate) fn all() -> Registers
        ensures { holds result ≡ every }
    {
        Registers { bits: u32::MAX }
    }

    /// Only the register of a result: x10.
    pub(crate) fn result() -> Registers
        ensures { holds result ≡ alone 10 }
    {
        Registers { bits: 1 << RESULT }
    }

    /// Whether register number `register` is in the set.
    pub(crate) fn has(self, register: u8) -> bool
        requires { register < 32 }
        ensures { result ≡ holds self register }
    {
        (self.bits >> register) & 1 == 1
    }

    /// The set with one more register.
    pub(crate) fn with(self, register: u8) -> Registers
        requires { register < 32 }
        ensures { holds result ≡ with register (holds self) }
    {
        Registers {
            bits: self.bits | 1 << register,
        }
    }

    /// The set without a register.
    pub(crate) fn without(self, register: u8) -> Registers
        requires { register < 32 }
        ensures { holds result ≡ without register (holds self) }
    {
        Registers {
            bits: self.bits & !(1 << register),
        }
    }

    /// The union of two sets.
    pub(crate) fn or(self, other: Registers) -> Registers
        ensures { holds result ≡ either (holds self) (holds other) }
    {
        Registers {
            bits: self.bits | other.bits,
        }
    }

    /// The registers of the set that a call keeps.
    pub(crate) fn surviving(self) -> Registers
        ensures { holds result ≡ surviving (holds self) }
    {
        Registers {
            bits: self.bits & SURVIVORS,
        }
    }

    /// The registers that are live before a call, if these are live after it.
    pub(crate) fn before_call(self) -> Registers
        ensures { holds result ≡ before_call (holds self) }
    {
        Registers {
            bits: ARGUMENTS | self.bits & SURVIVORS,
        }
    }

    /// Whether each register of this set is in another set.
    pub(crate) fn lies_within(self, other: Registers) -> bool
        ensures { result ≡ within (holds self) (holds other) }
    {
        self.bits & !other.bits == 0
    }
}
