// What is known at a place, and the table of a unit.

ghost use Rattle.std.specs.Prelude.{◌≡◌, IfOk};
ghost use Rattle.cc_range_check.specs.Values.{facts_of};

use cc_range::Range;
use std::alloc::{AllocError, Global};

/// What is known at a place: a range for each variable, and one for each object, which has the words of all its elements. A
/// variable or an object after the end of its list may have any word.
#[derive(Drop)]
pub struct Facts {
    pub variables: Vec<Range>,
    pub objects: Vec<Range>,
}

impl Facts {
    /// The same facts. Fails only if memory runs out.
    pub fn copy(&self, alloc: Global) -> Result<Facts, AllocError>
        ensures { IfOk result (λ f. facts_of f ≡ facts_of self.now) }
    {
        let variables = Vec::from_slice(alloc, self.variables.as_slice())?;
        let objects = Vec::from_slice(alloc, self.objects.as_slice())?;
        Ok(Facts { variables, objects })
    }
}

/// A function's row.
#[derive(Drop)]
pub struct Row {
    /// The ranges of its parameters.
    pub parameters: Vec<Range>,
    /// How many more variables are to be followed.
    pub locals: usize,
    /// Whether other functions may call it.
    pub is_called: bool,
    /// The range of its result.
    pub result: Range,
    /// For each object, whether the function, or one that it calls, may change it. An object after the end of the list may be
    /// changed.
    pub writes: Vec<bool>,
    /// What is known at its loops and blocks, in the order of its text, the outer one first: at the head of a loop before each turn,
    /// and at the end of a block. `None` if the place is never reached.
    pub notes: Vec<Option<Facts>>,
}

/// The table of a unit: a row for each function by its number, and a range for each object, for all its elements, at each call and
/// at each return of a function that others may call.
#[derive(Drop)]
pub struct Table {
    pub rows: Vec<Row>,
    pub objects: Vec<Range>,
}
