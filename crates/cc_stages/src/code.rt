// The listing of a unit's image, and the place in it of each function's lines. After three lines, those of the start that calls `main`, the
// functions follow one another in the order of definitions, a line for each word.

ghost use Rattle.std.specs.Prelude.{◌≡◌, IfErr};
ghost use Rattle.cc_stages.specs.declared.fault.StagesFault.TheVariants.{UnknownFunction};

use crate::fault::StagesFault;
use cc_emit::Piece;
use cc_link::{Mode, link_pieces_in};
use cc_rv32::listing::list;
use cc_types::TypedUnit;
use std::alloc::{AllocError, Global};
use std::sync::Arc;

// How many words come before the functions.
const START_WORDS: usize = 3;

/// The listing of a unit's image.
#[derive(Drop)]
pub(crate) struct Listing {
    lines: Vec<u8>,
    // Entry k is the place at which the lines of function k begin; one more entry is the end of the last function's lines.
    places: Vec<usize>,
}

impl Listing {
    /// The lines of a function's code, none if the unit has no such function.
    pub(crate) fn of_function(&self, function: usize) -> &[u8] {
        let from = self.places.get(function).copied();
        let to = self.places.get(function.saturating_add(1)).copied();
        match (from, to) {
            (Some(from), Some(to)) => self.lines.get(from..to).unwrap_or(b""),
            _ => b"",
        }
    }
}

// How many words of code each piece has.
fn sizes(alloc: Global, pieces: &[Piece]) -> Result<Vec<usize>, AllocError> {
    let mut sizes = Vec::with_capacity(alloc, pieces.len())?;
    for piece in pieces {
        sizes.push(piece.items().len())?;
    }
    Ok(sizes)
}

// The end of the `count` lines that begin at offset `from` of a text; the text's end if there are fewer.
fn behind_lines(text: &[u8], from: usize, count: usize) -> usize {
    let mut left = count;
    for at in from..text.len() {
        if left == 0 {
            return at;
        }
        if text[at] == b'\n' {
            left -= 1;
        }
    }
    text.len()
}

// The place at which the lines of each function begin, and the end of the last ones.
fn places(alloc: Global, lines: &[u8], sizes: &[usize]) -> Result<Vec<usize>, AllocError> {
    let mut place = behind_lines(lines, 0, START_WORDS);
    let mut places = Vec::new(alloc);
    places.push(place)?;
    for size in sizes {
        place = behind_lines(lines, place, *size);
        places.push(place)?;
    }
    Ok(places)
}

// The lines of the image of a unit with these pieces.
fn lines(
    alloc: Global,
    mode: Mode,
    unit: &Arc<TypedUnit>,
    pieces: Vec<Piece>,
) -> Result<Vec<u8>, StagesFault>
    ensures { IfErr result (λ fault. ¬ (fault ≡ UnknownFunction)) }
{
    let linked = match link_pieces_in(alloc, mode, unit, pieces) {
        Ok(linked) => linked,
        Err(fault) => return Err(StagesFault::Link(fault)),
    };
    match list(alloc, &linked.stored().image) {
        Ok(lines) => Ok(lines),
        Err(_) => Err(StagesFault::OutOfMemory),
    }
}

/// The listing of the image of a unit with these pieces. Refusals: 25 if there would be more than 131,072 words of code, 40 if memory runs
/// out.
pub(crate) fn list_unit(
    alloc: Global,
    mode: Mode,
    unit: &Arc<TypedUnit>,
    pieces: Vec<Piece>,
) -> Result<Listing, StagesFault>
    ensures { IfErr result (λ fault. ¬ (fault ≡ UnknownFunction)) }
{
    let sizes = sizes(alloc, pieces.as_slice())?;
    let lines = lines(alloc, mode, unit, pieces)?;
    let places = places(alloc, lines.as_slice(), sizes.as_slice())?;
    Ok(Listing { lines, places })
}
