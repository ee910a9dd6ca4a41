// The pieces of the tests' own builds: each has a unit, with the source in it, and the number of its part.

ghost use Rattle.std.specs.Prelude.{◌≡◌, ◌↔◌, IfOk, IsTrue};
ghost use Rattle.std.specs.Arc.{arc_value};
ghost use Rattle.tests_store.specs.Builds.{keeps};

use cc_library::SharedUnit;
use cc_rv32::image::{Code, Globals, Image};
use cc_unit::{Certificate, Source, StoredUnit};
use std::alloc::{AllocError, Global};
use std::marker::Model;
use std::sync::Arc;
use std::test::Fail;

/// A compiled part of a source: its unit, whose image has one code word, the length of the source; and which part it is.
#[derive(Drop)]
pub struct Piece {
    unit: SharedUnit,
    part: u32,
}

impl Model for Piece {
    ghost use Rattle.tests_store.specs.Builds.{Seen, is_right};

    ghost Value = { Seen };

    ghost view = { λ p. (p.unit, p.part) };

    ghost invariant = { λ p. is_right p.unit };
}

impl Piece {
    /// Whether the piece is this part of this source.
    pub fn is_of(&self, source: &[u8], part: u32) -> bool
        ensures named { IsTrue result ↔ ((self.now.0.source ≡ source.now) × (self.now.1 ≡ part)) }
        ensures kept { keeps self.now }
    {
        self.part == part && self.unit.stored().source.bytes() == source
    }

    /// The piece's unit.
    pub fn unit(&self) -> &Arc<StoredUnit>
        ensures { arc_value result.now ≡ self.now.0 }
    {
        self.unit.stored()
    }
}

/// How many bytes the certificate of a source's unit has, if it has one: if the source begins with `c`, its second byte says how
/// many.
pub fn certified(source: &[u8]) -> Option<usize> {
    match source {
        [b'c', count, ..] => Some(*count as usize),
        _ => None,
    }
}

// A certificate of this many bytes, or `None`.
fn certificate(alloc: Global, count: Option<usize>) -> Result<Option<Certificate>, AllocError> {
    match count {
        Some(count) => Ok(Some(Certificate::new(vec![in alloc; 7u8; count]?))),
        None => Ok(None),
    }
}

/// The piece that is this part of a source. Fails if the source has more than 65,536 bytes.
pub fn compiled(alloc: Global, source: &[u8], part: u32) -> Result<Piece, Fail>
    ensures { IfOk result (λ piece. (piece.0.source ≡ source.now) × (piece.1 ≡ part)) }
{
    if source.len() > 65_536 {
        return Err(Fail::from("a long source"));
    }
    let code = Code::new(vec![in alloc; source.len() as u32; 1]?).unwrap();
    let globals = Globals::new(Vec::new(alloc)).unwrap();
    let kept = Source::new(Vec::from_slice(alloc, source)?).unwrap();
    let unit = StoredUnit {
        source: kept,
        image: Image { code, globals },
        certificate: certificate(alloc, certified(source))?,
    };
    let shared = Arc::new(alloc, unit)?;
    Ok(Piece {
        unit: SharedUnit::new(shared),
        part,
    })
}
