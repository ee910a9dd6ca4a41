// A unit that was compiled.

ghost use Rattle.std.specs.Prelude.{◌≡◌};
ghost use Rattle.std.specs.Arc.{arc_value};
ghost use Rattle.cc_link.specs.Agree.{Agree};
ghost use Rattle.cc_link.specs.Made.{IsMade};

use cc_emit::Piece;
use cc_types::TypedUnit;
use cc_unit::StoredUnit;
use std::marker::Model;
use std::sync::Arc;

/// A unit whose image agrees with its source: the source spells a program, and on every input the image's run follows the
/// program's. The type keeps this, and also that compiled pieces link to the unit, so it is true of every value of the type.
/// Contracts see the unit as it is stored.
pub struct CompiledUnit {
    stored: Arc<StoredUnit>,
}

// Written by hand, so that crates that use this one can call this `drop` and need not prove again how each part is dropped.
impl Drop for CompiledUnit {
    fn drop(self) {
        let CompiledUnit { stored } = self;
    }
}

impl Model for CompiledUnit {
    ghost use Rattle.std.specs.Arc.{arc_value};
    ghost use Rattle.cc_unit.specs.declared.unit.StoredUnit.{StoredUnit};
    ghost use Rattle.cc_link.specs.Agree.{Agree};
    ghost use Rattle.cc_link.specs.Made.{IsMade};

    ghost Value = { StoredUnit };

    ghost view = { λ c. arc_value c.stored };

    ghost invariant = { λ c. Agree (arc_value c.stored).source (arc_value c.stored).image × IsMade (arc_value c.stored) };
}

impl CompiledUnit {
    // The one place where a compiled unit is made.
    pub(crate) fn new(stored: Arc<StoredUnit>) -> CompiledUnit
        requires agrees { Agree (arc_value stored).source (arc_value stored).image }
        requires made { IsMade (arc_value stored) }
        ensures { result ≡ arc_value stored }
    {
        CompiledUnit { stored }
    }

    /// The unit as the library keeps it. It takes no memory.
    pub fn stored(&self) -> &Arc<StoredUnit>
        ensures answer { arc_value result.now ≡ self.now }
        ensures agrees { Agree self.now.source self.now.image }
        ensures made { IsMade self.now }
    {
        &self.stored
    }
}

/// What a text was compiled to, with the tree and the pieces that it was made of.
pub struct Compilation {
    /// The tree of the text.
    pub typed: Arc<TypedUnit>,
    /// The pieces of its functions.
    pub pieces: Vec<Piece>,
    /// The unit that they link to.
    pub unit: CompiledUnit,
}

// Written by hand for the same reason as the `Drop` of `CompiledUnit`.
impl Drop for Compilation {
    fn drop(self) {
        let Compilation {
            typed,
            pieces,
            unit,
        } = self;
    }
}

impl Compilation {
    /// The unit, without the tree and the pieces.
    pub fn into_unit(self) -> CompiledUnit
        ensures { result ≡ self.unit }
    {
        let Compilation {
            typed,
            pieces,
            unit,
        } = self;
        drop(typed);
        drop(pieces);
        unit
    }
}
