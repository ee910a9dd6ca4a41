// A program that can be watched.

use super::marks::{Mark, marks_of};
use super::running::Program;
use cc_diagnostic::{Bytecode, code_of};
use cc_resolve::lay_out;
use cc_syntax::Unit;
use std::alloc::{AllocError, Global};

/// The instructions of a unit, with the origin of each.
#[derive(Drop)]
pub struct Traced<'a> {
    code: Bytecode<'a>,
    marks: Vec<Mark<'a>>,
}

impl<'a> Traced<'a> {
    /// What is run.
    pub fn program(&self) -> Program<'_> {
        Program {
            code: self.code.instructions.as_slice(),
            functions: self.code.functions.as_slice(),
            marks: self.marks.as_slice(),
        }
    }

    /// The number of `main`.
    pub fn main(&self) -> Option<usize> {
        self.code.function(b"main")
    }
}

/// The instructions of a unit with their places. `None` if the unit has no instructions, or if there are not as many places as
/// instructions.
///
/// `AllocError` if memory for it runs out.
pub fn traced_unit(alloc: Global, unit: &Unit) -> Result<Option<Traced<'_>>, AllocError> {
    let Some(code) = code_of(alloc, unit)? else {
        return Ok(None);
    };
    let marks = match marks_of(alloc, unit) {
        Ok(marks) => marks,
        Err(error) => {
            drop(code);
            return Err(error);
        }
    };
    if marks.len() != code.instructions.len() {
        drop(code);
        drop(marks);
        return Ok(None);
    }
    Ok(Some(Traced { code, marks }))
}

/// The words of a unit's objects as a run begins.
pub fn words_of(alloc: Global, unit: &Unit) -> Result<Vec<u32>, AllocError> {
    let mut words = Vec::new(alloc);
    let layout = lay_out(alloc, &mut words, unit.externals())?;
    drop(layout);
    Ok(words)
}
