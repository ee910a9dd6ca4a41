// Writes and takes apart the certificate of a unit: how many functions the unit has, then for each function the length of its LTL and
// the LTL.

ghost use Rattle.std.specs.Prelude.{◌≡◌, ◌≤◌, ◌<◌, ◌^◌, ◌++◌, length, IfOk, OnOk};
ghost use Rattle.cc_ltl.specs.Ltl.{IsLtl};
ghost use Rattle.cc_linear_language.specs.Pair.{most_blocks};
ghost use Rattle.cc_link.specs.Certificate.{certificate_of, ltl_field};
ghost use Rattle.cc_link.specs.Linked.{all_ltl, lent_pieces};

use cc_emit::Piece;
use cc_ltl::{Ltl, write_ltl};
use cc_unit::Certificate;
use std::alloc::{AllocError, Global};

/// The certificate of a unit whose functions have these pieces, in the order of definitions.
pub(crate) fn certificate(alloc: Global, pieces: &[&Piece]) -> Result<Certificate, AllocError>
    requires { length pieces.now < 2 ^ 32 }
    ensures { IfOk result (λ made. made ≡ certificate_of (all_ltl (lent_pieces pieces.now))) }
{
    let mut bytes = Vec::new(alloc);
    bytes.extend_from_slice(&(pieces.len() as u32).to_le_bytes())?;
    for piece in pieces {
        add_ltl(alloc, &mut bytes, piece.ltl())?;
    }
    Ok(Certificate::new(bytes))
}

// Adds the length of a function's LTL, and the LTL.
fn add_ltl(alloc: Global, bytes: &mut Vec<u8>, ltl: &Ltl) -> Result<(), AllocError>
    requires is_ltl { IsLtl ltl.now }
    requires few { length ltl.now.blocks ≤ most_blocks }
    ensures { OnOk result (bytes.new.items ≡ bytes.old.items ++ ltl_field ltl.now) }
{
    let written = write_ltl(alloc, ltl)?;
    bytes.extend_from_slice(&(written.len() as u32).to_le_bytes())?;
    bytes.extend_from_slice(written.as_slice())
}

/// The bytes of the first LTL function, and the bytes after it, or `None` if its length or a part of it is missing.
pub(crate) fn first_ltl(bytes: &[u8]) -> Option<(&[u8], &[u8])> {
    let (count, rest) = number_at(bytes)?;
    let count = count as usize;
    if rest.len() < count {
        return None;
    }
    Some((&rest[..count], &rest[count..]))
}

/// The number that the first four bytes spell, and the bytes after them, or `None` if there are fewer than four.
pub(crate) fn number_at(bytes: &[u8]) -> Option<(u32, &[u8])> {
    match bytes {
        [a, b, c, d, rest @ ..] => Some((u32::from_le_bytes([*a, *b, *c, *d]), rest)),
        _ => None,
    }
}
