// The instructions that read and write a name, and that call a function.

ghost use Rattle.std.specs.Prelude.{◌≡◌};
ghost use Rattle.cc_meaning.specs.internal.Form.{load, call_of, store_of, store_element_of};

use crate::form::{Instruction, Slot};
use cc_layout::Callee;
use cc_resolve::{BinaryOperation, Environment};

/// The instruction that pushes the value of a variable.
pub fn load(names: &Environment<'_>, name: &[u8]) -> Instruction
    ensures { result ≡ load names.now name.now }
{
    match names.local(name) {
        Some(number) => Instruction::Local(number),
        None => Instruction::Global(names.object(name).offset),
    }
}

/// The instruction that stores in a variable a word, or the value of an operation on the variable's old value and the word.
pub fn store(names: &Environment<'_>, applied: Option<BinaryOperation>, name: &[u8]) -> Instruction
    ensures { result ≡ store_of applied names.now name.now }
{
    match names.local(name) {
        Some(number) => match applied {
            None => Instruction::SetLocal(number),
            Some(operation) => Instruction::Update(operation, Slot::Local(number)),
        },
        None => {
            let offset = names.object(name).offset;
            match applied {
                None => Instruction::SetGlobal(offset),
                Some(operation) => Instruction::Update(operation, Slot::Global(offset)),
            }
        }
    }
}

/// The instruction that does in an element of an array what `store` does in a variable; the index is below the word on the
/// stack.
pub fn store_element(
    names: &Environment<'_>,
    applied: Option<BinaryOperation>,
    name: &[u8],
) -> Instruction
    ensures { result ≡ store_element_of applied names.now name.now }
{
    let extent = names.object(name);
    match applied {
        None => Instruction::SetElement(extent),
        Some(operation) => Instruction::Update(operation, Slot::Element(extent)),
    }
}

/// The instruction that calls a function whose arguments have already been pushed.
pub fn call_instruction(names: &Environment<'_>, name: &[u8]) -> Instruction
    ensures { result ≡ call_of names.now name.now }
{
    match names.callee(name) {
        Callee::WriteWord => Instruction::Write,
        Callee::ReadWord => Instruction::Read,
        Callee::Defined(function) => Instruction::Call(function),
    }
}
