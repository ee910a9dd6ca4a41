// A step, and how much the machine's registers already hold of the address that it accesses. The number of items that the step needs
// depends on both.

use cc_select::Step;

/// How much the registers already hold of the address of an access.
#[derive(Clone, Copy)]
pub(crate) enum Remembered {
    /// Nothing.
    Nothing,
    /// `x6` holds the address's upper part.
    Upper,
    /// `x5` holds the element's address, minus the lower part of its object's address.
    Element,
    /// `x3` holds the global pointer, from which the address is reached.
    ByPointer,
    /// `x5` holds the element's address, minus the distance of its object from `x3`.
    ElementByPointer,
}

/// A step and, if it reads or writes an element, how much the registers already hold of the element's address.
#[derive(Clone, Copy)]
pub(crate) struct Addressed {
    pub(crate) step: Step,
    pub(crate) known: Remembered,
}
