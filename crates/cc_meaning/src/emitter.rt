// The instructions of a function, written from last to first, so that each jump's distance is known when it is written. The only
// backward jump, that of a loop, gets its distance once the loop's body is written.

ghost use Rattle.std.specs.Prelude.{◌≡◌, ◌+◌, ◌-◌, ◌<◌, ◌≤◌, [], ◌∷◌, ◌++◌, length, slice_set, OnOk};

use super::form::Instruction;
use std::alloc::{AllocError, Global};
use std::marker::Model;

/// The instructions so far, with the function's last one first.
#[derive(Drop)]
pub struct Emitter {
    items: Vec<Instruction>,
}

impl Model for Emitter {
    ghost use Rattle.std.specs.Prelude.{List, reverse};
    ghost use Rattle.cc_meaning.specs.declared.form.Instruction.{Instruction};

    ghost Value = { List Instruction };

    ghost view = { λ e. reverse e.items.items };
}

impl Emitter {
    pub fn new(alloc: Global) -> Emitter
        ensures { result ≡ [] }
    {
        Emitter {
            items: Vec::new(alloc),
        }
    }

    /// How many instructions are written already.
    pub fn len(&self) -> usize
        ensures { result ≡ length self.now }
    {
        self.items.len()
    }

    /// Writes an instruction before those that are written already.
    pub fn emit(&mut self, instruction: Instruction) -> Result<(), AllocError>
        ensures { OnOk result (self.new ≡ instruction ∷ self.old) }
    {
        self.items.push(instruction)?;
        Ok(())
    }

    /// How many instructions the next jump must skip to reach the place that `target` of the written instructions follow.
    pub fn distance(&self, target: usize) -> usize
        requires { target ≤ length self.now }
        ensures { result ≡ length self.now - target }
    {
        self.items.len() - target
    }

    /// Replaces the instruction that is followed by `behind` instructions.
    pub fn replace(&mut self, behind: usize, instruction: Instruction)
        requires { behind < length self.old }
        ensures { self.new ≡ slice_set self.old (length self.old - (behind + 1)) instruction }
    {
        self.items[behind] = instruction;
    }

    /// Appends the instructions to others, in the order in which they run, and leaves the emitter empty.
    pub fn finish(&mut self, code: &mut Vec<Instruction>) -> Result<(), AllocError>
        ensures code { OnOk result (code.new.items ≡ code.old.items ++ self.old) }
        ensures begun { OnOk result (self.new ≡ []) }
    {
        while let Some(instruction) = self.items.pop() {
            code.push(instruction)?;
        }
        Ok(())
    }
}
