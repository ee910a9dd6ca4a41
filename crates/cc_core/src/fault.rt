// Why an event takes no step, why a command is refused, and why a build gives no plan or no unit. Each reason has
// its number.

ghost use Rattle.std.specs.Prelude.{◌≡◌};

use std::alloc::AllocError;
use thiserror::Error;

/// Why an event took no step.
#[derive(Debug, Drop, Error)]
pub enum CoreFault {
    /// 29: the event is not possible in this state.
    #[error("NotNow")]
    NotNow,
    /// 40: memory ran out.
    #[error("OutOfMemory")]
    OutOfMemory,
}

impl CoreFault {
    ghost use Rattle.cc_core.specs.Fault.{fault_number};

    /// The fault's number: 29 if the event is not possible, 40 if memory ran out.
    pub fn number(&self) -> u32
        ensures { result ≡ fault_number self.now }
    {
        match self {
            CoreFault::NotNow => 29,
            CoreFault::OutOfMemory => 40,
        }
    }
}

impl From<AllocError> for CoreFault {
    ghost use Rattle.cc_core.specs.declared.fault.CoreFault.TheVariants as core;

    ghost from_gives = { λ _ fault. fault ≡ core.OutOfMemory };

    fn from(_error: AllocError) -> CoreFault {
        CoreFault::OutOfMemory
    }
}

/// Why a command is refused, as its reply says.
#[derive(Debug, Drop, Error)]
pub enum Refusal {
    /// The build refuses the source or its pieces with this number.
    #[error("Build")]
    Build(u32),
    /// 31: the library already has a unit under the name to be added.
    #[error("Exists")]
    Exists,
    /// 32: the library has no unit under the name to be replaced or withdrawn.
    #[error("Absent")]
    Absent,
    /// 34: the record does not fit in the area.
    #[error("Full")]
    Full,
    /// 35: the device step that was due failed.
    #[error("DiskFault")]
    DiskFault,
    /// 36: a device step has failed, and the disk has not been opened since.
    #[error("Closed")]
    Closed,
}

impl Refusal {
    ghost use Rattle.cc_core.specs.Fault.{refusal_number};

    /// The refusal's number: the build's own, or 31, 32, 34, 35 or 36.
    pub fn number(&self) -> u32
        ensures { result ≡ refusal_number self.now }
    {
        match self {
            Refusal::Build(number) => *number,
            Refusal::Exists => 31,
            Refusal::Absent => 32,
            Refusal::Full => 34,
            Refusal::DiskFault => 35,
            Refusal::Closed => 36,
        }
    }
}

/// Why a build gives no plan, or no unit.
#[derive(Debug, Drop, Error)]
pub enum BuildRefusal {
    /// The source or its pieces are refused with this number.
    #[error("Refused")]
    Refused(u32),
    /// 40: memory ran out.
    #[error("OutOfMemory")]
    OutOfMemory,
}

impl BuildRefusal {
    ghost use Rattle.cc_core.specs.Fault.{build_fault_number};

    /// The number with which the build refuses, or 40 if memory ran out.
    pub fn number(&self) -> u32
        ensures { result ≡ build_fault_number self.now }
    {
        match self {
            BuildRefusal::Refused(number) => *number,
            BuildRefusal::OutOfMemory => 40,
        }
    }
}

impl From<AllocError> for BuildRefusal {
    ghost use Rattle.cc_core.specs.declared.fault.BuildRefusal.TheVariants as build;

    ghost from_gives = { λ _ fault. fault ≡ build.OutOfMemory };

    fn from(_error: AllocError) -> BuildRefusal {
        BuildRefusal::OutOfMemory
    }
}
