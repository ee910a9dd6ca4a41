// What functions and units need.

use crate::recursion::Recursion;
use cc_link::Compilation;

/// What one function needs.
#[derive(Clone, Copy)]
pub struct FunctionSize {
    /// The words of the function's code.
    pub words: usize,
    /// The bytes of the function's frame.
    pub frame: u32,
    /// The largest number of bytes of stack that a call of the function uses, together with the calls in it, as deep as calls may go.
    pub stack: u32,
    /// The length of the longest chain of calls that begins with a call of the function, including that call: at most 1,024,
    /// which is as deep as calls may go.
    pub calls: u32,
}

/// What a unit needs.
#[derive(Drop)]
pub struct UnitSize {
    /// The unit's functions, in the order of definitions.
    pub functions: Vec<FunctionSize>,
    /// The words of the unit's code.
    pub code: usize,
    /// The bytes of the unit's globals.
    pub globals: usize,
    /// The calls that are part of a cycle of calls.
    pub recursions: Vec<Recursion>,
    /// How many calls are open at most, including that of main.
    pub calls: u32,
    /// The bytes of stack that are enough for the unit.
    pub stack: u32,
}

/// What a text was compiled to, and what that needs.
#[derive(Drop)]
pub struct Sized {
    pub made: Compilation,
    pub size: UnitSize,
}
