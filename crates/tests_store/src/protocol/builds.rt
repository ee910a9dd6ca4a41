// Two builds: one whose units must be right, and one for which any unit is right.

ghost use Rattle.tests_store.specs.Builds.{rules, keeps, is_right, planned, law, nothing, is_anything, nothing_planned, nothing_law};

use crate::protocol::piece::{Piece, compiled};
use crate::protocol::script::Scripted;
use cc_core::build::Build;
use cc_core::fault::BuildRefusal;
use cc_unit::StoredUnit;
use std::alloc::Global;
use std::sync::Arc;
use std::test::Fail;

/// A build in which a source that begins with `2` has two pieces, and each other source has one. A source that begins with `#` is refused
/// with 11, and the pieces of a source that begins with `!` are refused with 25. The image of a unit has one code word, the length of the
/// source. If the source begins with `c`, the unit has a certificate of as many bytes as the source's second byte says.
#[derive(Drop)]
pub struct FewPieces {}

impl Build for FewPieces {
    type Piece = Piece;

    ghost rules = { rules };

    ghost keeps = { keeps };

    ghost is_right = { is_right };

    fn plan(&self, _alloc: Global, source: &[u8]) -> Result<u32, BuildRefusal> {
        match source {
            [b'#', ..] => Err(BuildRefusal::Refused(11)),
            [b'2', ..] => Ok(2),
            _ => Ok(1),
        }
    }

    fn names(&self, piece: &Piece, source: &[u8], part: u32) -> bool {
        piece.is_of(source, part)
    }

    fn unit(
        &self,
        _alloc: Global,
        source: &[u8],
        pieces: &[&Piece],
    ) -> Result<Arc<StoredUnit>, BuildRefusal> {
        let [piece, ..] = pieces else {
            return Err(BuildRefusal::Refused(26));
        };
        if let [b'!', ..] = source {
            return Err(BuildRefusal::Refused(25));
        }
        Ok(Arc::try_clone(piece.unit())?)
    }

    ghost planned = { planned };

    ghost law = { law };
}

impl Scripted for FewPieces {
    fn piece(alloc: Global, source: &str, part: u32) -> Result<Piece, Fail> {
        compiled(alloc, source.as_bytes(), part)
    }
}

/// A build that makes nothing: each source is refused with 11. For this build any unit is right, so it can open any library.
#[derive(Drop)]
pub struct Nothing {}

impl Build for Nothing {
    type Piece = Piece;

    ghost rules = { nothing };

    ghost keeps = { keeps };

    ghost is_right = { is_anything };

    fn plan(&self, _alloc: Global, _source: &[u8]) -> Result<u32, BuildRefusal> {
        Err(BuildRefusal::Refused(11))
    }

    fn names(&self, piece: &Piece, source: &[u8], part: u32) -> bool {
        piece.is_of(source, part)
    }

    fn unit(
        &self,
        _alloc: Global,
        _source: &[u8],
        _pieces: &[&Piece],
    ) -> Result<Arc<StoredUnit>, BuildRefusal> {
        Err(BuildRefusal::Refused(11))
    }

    ghost planned = { nothing_planned };

    ghost law = { nothing_law };
}

impl Scripted for Nothing {
    fn piece(alloc: Global, source: &str, part: u32) -> Result<Piece, Fail> {
        compiled(alloc, source.as_bytes(), part)
    }
}
