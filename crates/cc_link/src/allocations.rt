// Where the allocations of a unit's functions come from, in the order of definitions.

use crate::certificate::{first_ltl, number_at};
use crate::watching::Allocation;
use cc_ltl::{LtlFault, read_ltl};
use std::alloc::{AllocError, Global};

/// The allocations of a function and of the functions after it.
#[derive(Clone, Copy)]
pub(crate) enum Allocations<'a> {
    /// Each allocation is chosen by the compiler.
    Chosen,
    /// These bytes of a certificate spell the allocations.
    Spelled(&'a [u8]),
}

impl<'a> Allocations<'a> {
    /// The allocations that a certificate spells after its first number, which is ignored.
    pub(crate) fn of(certificate: &'a [u8]) -> Allocations<'a> {
        match number_at(certificate) {
            Some((_, rest)) => Allocations::Spelled(rest),
            None => Allocations::Spelled(&certificate[..0]),
        }
    }

    /// The allocation of the first function, or `None` if the bytes do not spell one.
    pub(crate) fn first(self, alloc: Global) -> Result<Option<Allocation>, AllocError> {
        match self {
            Allocations::Chosen => Ok(Some(Allocation::Chosen)),
            Allocations::Spelled(bytes) => match first_ltl(bytes) {
                Some((ltl, _)) => spelled(alloc, ltl),
                None => Ok(None),
            },
        }
    }

    /// The allocations of the functions after the first one.
    pub(crate) fn rest(self) -> Allocations<'a> {
        match self {
            Allocations::Chosen => Allocations::Chosen,
            Allocations::Spelled(bytes) => match first_ltl(bytes) {
                Some((_, rest)) => Allocations::Spelled(rest),
                None => Allocations::Spelled(&bytes[..0]),
            },
        }
    }
}

// The allocation that bytes spell, or `None` if they do not spell LTL.
fn spelled(alloc: Global, bytes: &[u8]) -> Result<Option<Allocation>, AllocError> {
    match read_ltl(alloc, bytes) {
        Ok(ltl) => Ok(Some(Allocation::Given(ltl))),
        Err(LtlFault::Damaged) => Ok(None),
        Err(LtlFault::OutOfMemory) => Err(AllocError),
    }
}
