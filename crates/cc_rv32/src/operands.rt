// The operands of an instruction as the listing shows them: none, or one or two registers and a last operand.

ghost use Rattle.std.specs.Prelude.{Some};
ghost use Rattle.cc_rv32.specs.internal.Operands.{last_text, operands_text};

use crate::operand::{Immediate, Register};
use std::fmt;

/// The last operand: a register, a word in two's complement, a number, or an offset from a register.
#[derive(Clone, Copy)]
pub enum Last {
    Register(Register),
    Signed(u32),
    Number(u32),
    Address(Immediate, Register),
}

impl fmt::Display for Last {
    ghost output = { λ l. Some (last_text l) };

    fn fmt<W: fmt::Write>(&self, f: &mut fmt::Formatter<W>) -> fmt::Result {
        match self {
            Last::Register(register) => write!(f, "{register}"),
            Last::Signed(word) => {
                let value = word.cast_signed();
                write!(f, "{value}")
            }
            Last::Number(number) => write!(f, "{number}"),
            Last::Address(offset, register) => write!(f, "{offset}({register})"),
        }
    }
}

/// The operands of an instruction.
#[derive(Clone, Copy)]
pub enum Operands {
    None,
    Two(Register, Last),
    Three(Register, Register, Last),
}

impl fmt::Display for Operands {
    ghost output = { λ o. Some (operands_text o) };

    fn fmt<W: fmt::Write>(&self, f: &mut fmt::Formatter<W>) -> fmt::Result {
        match self {
            Operands::None => Ok(()),
            Operands::Two(first, last) => write!(f, " {first}, {last}"),
            Operands::Three(first, second, last) => write!(f, " {first}, {second}, {last}"),
        }
    }
}
