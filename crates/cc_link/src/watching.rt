// Where a function's allocation comes from, and who watches a function on its way through the passes.

use cc_cminor_language::CminorPair;
use cc_linear_language::LinearPair;
use cc_ltl::Ltl;
use cc_rtl::Rtl;
use cc_select::SelectedPair;
use std::alloc::AllocError;

/// The source of a function's allocation. No source is trusted: the validator judges every allocation.
#[derive(Drop)]
pub enum Allocation {
    /// Registers, or, if the validator refuses these, a slot for each value.
    Chosen,
    /// A slot for each value.
    Spilled,
    /// This allocation, which was read from the certificate of a stored unit.
    Given(Ltl),
}

/// Who made an LTL function.
#[derive(Clone, Copy)]
pub enum Allocator {
    /// An allocator with values in registers.
    Colour,
    /// An allocator with a slot for each value.
    Spill,
    /// No allocator of the compiler: the LTL was given.
    Given,
}

/// What a watcher sees: what a pass made from a function, in the order of the passes.
#[derive(Clone, Copy)]
pub enum Seen<'a> {
    /// Cminor.
    Cminor(&'a CminorPair),
    /// Cminor with guards, only for a checked function.
    Guarded(&'a CminorPair),
    /// RTL as it is generated.
    Rtl(&'a Rtl),
    /// RTL in which the nodes that nothing needs are nops.
    Pruned(&'a Rtl),
    /// LTL that the validator has not judged yet.
    Allocated(Allocator, &'a Ltl),
    /// The validator refuses the LTL, at this label.
    Refused(u32),
    /// The validator accepts the LTL.
    Validated(&'a Ltl),
    /// Linear.
    Linear(&'a LinearPair),
    /// The steps that selection yields.
    Selected(&'a SelectedPair),
}

/// Watches a function on its way through the passes.
pub trait Watch {
    /// Sees what a pass made. After an `Err` the function goes no further, and is refused as if memory had run out (40).
    fn see(&mut self, seen: Seen<'_>) -> Result<(), AllocError>;
}

/// Nobody watches.
#[derive(Drop)]
pub struct Unwatched;

impl Watch for Unwatched {
    fn see(&mut self, _seen: Seen<'_>) -> Result<(), AllocError> {
        Ok(())
    }
}
