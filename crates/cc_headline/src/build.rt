// The build that compiles.

ghost use Rattle.std.specs.Prelude.{◌≡◌, ℕ, List, Result};
ghost use Rattle.cc_headline.specs.Plan.{IsPlan};
ghost use Rattle.cc_headline.specs.Compiling.{compiling, Keeps, is_right};
ghost use Rattle.cc_headline.specs.internal.Law.{sources_are_planned, whole_units_agree};

use crate::refusal::refusal;
use cc_core::build::Build;
use cc_core::fault::BuildRefusal;
use cc_emit::Piece;
use cc_link::{link_in, linked_units_follow, typed_unit};
use cc_unit::StoredUnit;
use std::alloc::Global;
use std::sync::Arc;

/// The build that compiles: a piece is the code of one function, and pieces are linked.
///
/// A source is refused with the number of its fault, 1 to 7 or 11 to 21, as `typed_unit` answers. Pieces are refused as linking refuses
/// them in the mode of the first piece: Stranger (28) if a piece is of another source or mode, Doubled (27) if a piece comes twice,
/// Missing (26) if a piece is missing, ImageTooLarge (25) if the image would be too large.
#[derive(Drop)]
pub struct CcBuild {}

impl Build for CcBuild {
    type Piece = Piece;

    ghost rules = { compiling };

    ghost keeps = { Keeps };

    ghost is_right = { is_right };

    fn plan(&self, alloc: Global, source: &[u8]) -> Result<u32, BuildRefusal> {
        match typed_unit(alloc, source) {
            Ok(unit) => {
                let functions = unit.functions() as u32;
                Ok(functions)
            }
            Err(fault) => Err(refusal(fault.number())),
        }
    }

    fn names(&self, piece: &Piece, source: &[u8], part: u32) -> bool {
        // A piece keeps what its type and its unit's type keep, and what linking promises.
        linked_units_follow();
        let _kept = piece.items();
        let _kept = piece.unit().externals();
        piece.function() == part as usize && piece.unit().text() == source
    }

    fn unit(
        &self,
        alloc: Global,
        source: &[u8],
        pieces: &[&Piece],
    ) -> Result<Arc<StoredUnit>, BuildRefusal> {
        let [first, ..] = pieces else {
            return Err(BuildRefusal::Refused(26));
        };
        if first.unit().text() != source {
            return Err(BuildRefusal::Refused(28));
        }
        match link_in(alloc, first.mode(), first.unit(), pieces) {
            Ok(compiled) => Ok(Arc::try_clone(compiled.stored())?),
            Err(fault) => Err(refusal(fault.number())),
        }
    }

    ghost planned = { sources_are_planned };

    ghost law = { whole_units_agree };
}

/// A text has exactly one plan, since it has exactly one verdict: a number of pieces, or the number with which it is refused.
pub fn texts_have_one_plan()
    ensures some { (text : List ℕ) → (plan : Result ℕ ℕ) × IsPlan text plan }
    ensures one { (text : List ℕ) (a b : Result ℕ ℕ) → IsPlan text a → IsPlan text b → a ≡ b }
{}
