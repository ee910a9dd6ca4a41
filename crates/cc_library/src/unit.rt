// A stored unit with several owners.

ghost use Rattle.std.specs.Prelude.{◌≡◌, IfOk};
ghost use Rattle.std.specs.Arc.{arc_value};

use cc_unit::StoredUnit;
use std::alloc::AllocError;
use std::marker::Model;
use std::sync::Arc;

/// A stored unit with several owners. Contracts see the unit.
pub struct SharedUnit {
    stored: Arc<StoredUnit>,
}

// Written by hand, so that crates that use this one rely on this proof and need not prove again how each part is
// dropped.
impl Drop for SharedUnit {
    fn drop(self) {
        let SharedUnit { stored } = self;
    }
}

impl Model for SharedUnit {
    ghost use Rattle.std.specs.Arc.{arc_value};
    ghost use Rattle.cc_unit.specs.declared.unit.StoredUnit.{StoredUnit};

    ghost Value = { StoredUnit };

    ghost view = { λ s. arc_value s.stored };
}

impl SharedUnit {
    /// The unit that this pointer owns. This takes no memory.
    pub fn new(stored: Arc<StoredUnit>) -> SharedUnit
        ensures { result ≡ arc_value stored }
    {
        SharedUnit { stored }
    }

    /// The unit. This takes no memory.
    pub fn stored(&self) -> &Arc<StoredUnit>
        ensures { arc_value result.now ≡ self.now }
    {
        &self.stored
    }

    /// One more owner of the unit. This takes no memory. Err: the unit already has as many owners as it can have.
    pub fn again(&self) -> Result<SharedUnit, AllocError>
        ensures { IfOk result (λ s. s ≡ self.now) }
    {
        Ok(SharedUnit {
            stored: Arc::try_clone(&self.stored)?,
        })
    }
}

impl Clone for SharedUnit {
    ghost use Rattle.std.specs.Prelude.{◌≡◌};

    ghost is_clone = { λ unit other. other ≡ unit };

    fn clone(&self) -> Result<SharedUnit, AllocError> {
        self.again()
    }
}
