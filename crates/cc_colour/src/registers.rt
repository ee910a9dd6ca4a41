// Sets of registers: bit r of a word represents register x(r). Inside the allocator registers and slots are plain numbers.

use cc_ltl::{Register, Slot};

/// A place for a word: a register or a slot, by its number.
#[derive(Clone, Copy)]
pub enum Place {
    Register(u8),
    Slot(u16),
}

impl Place {
    /// Whether two places are the same.
    pub fn is(self, other: Place) -> bool {
        match (self, other) {
            (Place::Register(a), Place::Register(b)) => a == b,
            (Place::Slot(a), Place::Slot(b)) => a == b,
            _ => false,
        }
    }
}

/// A set of registers.
pub type Registers = u32;

/// All registers to which code may be allocated: x7 to x31.
pub const ALL: Registers = 0xffff_ff80;

/// The registers that a call destroys: x7, x10 to x17, x28 to x31.
pub const DESTROYED: Registers = 0xf003_fc80;

/// Calls and reads put their result in this register, and a word to write or to return is taken from it.
pub const RESULT: u8 = 10;

/// The register that a read or a write destroys.
pub const SERVICE: u8 = 17;

/// The register that an operation gets if it needs none, or if none is free.
pub const DUMMY: u8 = 31;

/// How many arguments have a register: x10 to x31.
pub const ARGUMENT_REGISTERS: u32 = 22;

/// The registers in the order in which they are tried if nothing else decides: first those that calls destroy and that hold
/// none of the first eight arguments, then the registers of these eight from the last to the first, then those that a function
/// has to save.
pub const ORDER: [u8; 25] = [
    28, 29, 30, 31, 7, 17, 16, 15, 14, 13, 12, 11, 10, 8, 9, 18, 19, 20, 21, 22, 23, 24, 25, 26, 27,
];

/// The set of one register.
pub fn only(register: u8) -> Registers {
    1 << (register % 32)
}

/// Whether a register is in a set.
pub fn contains(set: Registers, register: u8) -> bool {
    set & only(register) != 0
}

/// The register of an argument, if there is one: x10 for the first, x31 for the 22nd.
pub fn argument_register(argument: usize) -> Option<u8> {
    match u8::try_from(argument) {
        Ok(number) if number < 22 => Some(10 + number),
        _ => None,
    }
}

/// The first register in `ORDER` that is not in a set.
pub fn first_free(taken: Registers) -> Option<u8> {
    for register in ORDER {
        if !contains(taken, register) {
            return Some(register);
        }
    }
    None
}

/// The register with a number; x31 for a number that no register has.
pub fn numbered(number: u8) -> Register {
    match Register::new(number) {
        Some(register) => register,
        None => last(),
    }
}

fn last() -> Register {
    match Register::new(31) {
        Some(register) => register,
        None => unreachable!(),
    }
}

/// The slot with a number; slot 0 for a number that no slot has.
pub fn numbered_slot(number: u16) -> Slot {
    match Slot::new(number) {
        Some(slot) => slot,
        None => first_slot(),
    }
}

fn first_slot() -> Slot {
    match Slot::new(0) {
        Some(slot) => slot,
        None => unreachable!(),
    }
}
