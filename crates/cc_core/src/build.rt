// What the core needs from a compiler: the pieces of a source, which are made one by one, and the unit that they make up.

ghost use Rattle.std.specs.Prelude.{◌≡◌, ◌↔◌, ℕ, List, Result, Ok, IfOk, IfErr, IsTrue, All, map};
ghost use Rattle.std.specs.Arc.{arc_value};
ghost use Rattle.cc_unit.specs.declared.unit.StoredUnit.{StoredUnit};
ghost use Rattle.cc_core.specs.Rules.{Rules, AreWhole};
ghost use Rattle.cc_core.specs.Fault.{RefusesAs, RefusesPlan};

use crate::fault::BuildRefusal;
use cc_unit::StoredUnit;
use std::alloc::Global;
use std::sync::Arc;

/// Makes units from sources, piece by piece.
pub trait Build: Drop {
    /// A compiled part of a source. It names its source and its part.
    type Piece: Drop;

    // How many pieces each source has, what a piece names, and which unit the pieces of a source make up.
    ghost rules: { Rules Self.Piece };

    // What is true of each piece of this type, apart from what it names.
    ghost keeps: { Self.Piece → Type 0 };

    // Whether a unit's image is right for its source.
    ghost is_right: { StoredUnit → Type 0 };

    /// The number of pieces of a source, or the number that refuses it. A source may be any bytes.
    fn plan(&self, alloc: Global, source: &[u8]) -> Result<u32, BuildRefusal>
        ensures answer { IfOk result (λ pieces. rules.plan source.now (Ok pieces)) }
        ensures refused { IfErr result (λ fault. RefusesPlan fault (rules.plan source.now)) };

    /// Whether a piece names this source and this part of it. Needs no memory.
    fn names(&self, piece: &Self::Piece, source: &[u8], part: u32) -> bool
        ensures named { IsTrue result ↔ ((rules.source_of piece.now ≡ source.now) × (rules.part_of piece.now ≡ part)) }
        ensures kept { keeps piece.now };

    /// The unit that the pieces of a source make up, or the number that refuses them.
    fn unit(
        &self,
        alloc: Global,
        source: &[u8],
        pieces: &[&Self::Piece],
    ) -> Result<Arc<StoredUnit>, BuildRefusal>
        ensures answer { IfOk result
            (λ unit. rules.unit source.now (map (λ piece. piece.now) pieces.now) ≡ Ok (arc_value unit)) }
        ensures refused { IfErr result
            (λ fault. RefusesAs fault (rules.unit source.now (map (λ piece. piece.now) pieces.now))) };

    // Each source has a number of pieces, or a number that refuses it.
    ghost planned: { (source : List ℕ) → (plan : Result ℕ ℕ) × rules.plan source plan };

    // If `pieces` are all the pieces of a source, and each has what its type keeps, the unit that they make up has that source
    // and is right for it.
    ghost law: { (source : List ℕ) (pieces : List Self.Piece) (unit : StoredUnit)
        → AreWhole rules source pieces → All keeps pieces → rules.unit source pieces ≡ Ok unit → (unit.source ≡ source) × is_right unit };
}
