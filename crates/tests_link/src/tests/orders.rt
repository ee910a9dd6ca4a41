// The pieces of a unit, linked in every order, and wrong lists of pieces.

use super::helpers::{QUOTIENTS, Run, WORDS, ends_well, image_runs};
use cc_emit::Piece;
use cc_link::{CompiledUnit, LinkFault, compile_function, link, link_lent, typed_unit};
use cc_rv32::outcome::MachineOutcome;
use cc_types::TypedUnit;
use std::alloc::{AllocError, Global};
use std::sync::Arc;
use std::test::Fail;
use tests_texts::verdict::passes;
use tests_texts::worked::LONG;

/// The piece of the function with this number.
pub fn piece(alloc: Global, unit: &Arc<TypedUnit>, function: usize) -> Result<Piece, Fail> {
    if function >= unit.functions() {
        return Err(Fail::from("no such function"));
    }
    Ok(compile_function(alloc, unit, function)?)
}

/// Adds the pieces of all functions of a unit after others.
pub fn add_pieces(
    alloc: Global,
    pieces: &mut Vec<Piece>,
    unit: &Arc<TypedUnit>,
) -> Result<(), Fail> {
    for function in 0..unit.functions() {
        let made = piece(alloc, unit, function)?;
        pieces.push(made)?;
    }
    Ok(())
}

// The pieces at these places, in this order.
fn lent<'a>(
    alloc: Global,
    pieces: &'a [Piece],
    places: &[usize],
) -> Result<Vec<&'a Piece>, AllocError> {
    let mut lent = Vec::new(alloc);
    for place in places {
        if let Some(piece) = pieces.get(*place) {
            lent.push(piece)?;
        }
    }
    Ok(lent)
}

// The unit that the pieces at these places make, linked in this order.
fn linked(
    alloc: Global,
    unit: &Arc<TypedUnit>,
    pieces: &[Piece],
    places: &[usize],
) -> Result<CompiledUnit, LinkFault> {
    let Ok(lent) = lent(alloc, pieces, places) else {
        return Err(LinkFault::OutOfMemory);
    };
    let made = link_lent(alloc, unit, lent.as_slice());
    drop(lent);
    made
}

// Whether the pieces at these places make the same unit as all pieces in order.
fn is_same(
    alloc: Global,
    unit: &Arc<TypedUnit>,
    pieces: &[Piece],
    places: &[usize],
    whole: &CompiledUnit,
) -> Result<bool, Fail> {
    let made = linked(alloc, unit, pieces, places)?;
    let same = made.stored().is_same(whole.stored());
    drop(made);
    Ok(same)
}

/// The answer for a list of pieces, with the number of the function and the place of its piece in the list.
#[derive(Clone, Copy, PartialEq)]
enum Answer {
    Image,
    Missing(usize),
    Doubled(usize, usize),
    Stranger(usize, usize),
    Other,
}

fn answer_for(alloc: Global, unit: &Arc<TypedUnit>, pieces: &[Piece], places: &[usize]) -> Answer {
    match linked(alloc, unit, pieces, places) {
        Ok(made) => {
            drop(made);
            Answer::Image
        }
        Err(LinkFault::Missing { function }) => Answer::Missing(function),
        Err(LinkFault::Doubled { function, at }) => Answer::Doubled(function, at),
        Err(LinkFault::Stranger { function, at }) => Answer::Stranger(function, at),
        Err(_) => Answer::Other,
    }
}

/// Lists of pieces and their answers. Pieces 0 and 1 are those of the unit with 24 locals, piece 2 is the `main` of another
/// text, and pieces 3 and 4 are those of a second unit with the text of the first.
static LISTS: [(&[usize], Answer); 17] = [
    (&[0, 1], Answer::Image),
    (&[1, 0], Answer::Image),
    (&[3, 1], Answer::Image),
    (&[4, 0], Answer::Image),
    // a piece that occurs twice: the answer names the first repetition
    (&[0, 0], Answer::Doubled(0, 1)),
    (&[0, 1, 0], Answer::Doubled(0, 2)),
    (&[1, 0, 1, 0], Answer::Doubled(1, 2)),
    (&[0, 3, 1], Answer::Doubled(0, 1)),
    (&[1, 1], Answer::Doubled(1, 1)),
    // the first function whose piece is missing
    (&[0], Answer::Missing(1)),
    (&[1], Answer::Missing(0)),
    (&[], Answer::Missing(0)),
    // a piece of another text, whatever else is wrong
    (&[2], Answer::Stranger(0, 0)),
    (&[2, 1], Answer::Stranger(0, 0)),
    (&[0, 1, 2], Answer::Stranger(0, 2)),
    (&[0, 0, 2, 2], Answer::Stranger(0, 2)),
    (&[1, 2, 1], Answer::Stranger(0, 1)),
];

// Whether each of `LISTS` gets its answer.
fn are_answered(alloc: Global, unit: &Arc<TypedUnit>, pieces: &[Piece]) -> bool {
    for (places, answer) in LISTS.iter() {
        if answer_for(alloc, unit, pieces, places) != *answer {
            return false;
        }
    }
    true
}

#[test]
fn lists_of_pieces(rt: HostRuntime) -> Result<(), Fail> {
    let alloc = rt.alloc();
    let unit = typed_unit(alloc, LONG.as_bytes())?;
    let other = typed_unit(alloc, QUOTIENTS.as_bytes())?;
    let again = typed_unit(alloc, LONG.as_bytes())?;
    let mut pieces = Vec::new(alloc);
    add_pieces(alloc, &mut pieces, &unit)?;
    add_pieces(alloc, &mut pieces, &other)?;
    add_pieces(alloc, &mut pieces, &again)?;
    let right = are_answered(alloc, &unit, pieces.as_slice());
    drop(pieces);
    drop(unit);
    drop(other);
    drop(again);
    passes(Ok(right))
}

// The unit with 24 locals, with its two pieces made and handed over in reverse order.
fn reversed(alloc: Global) -> Result<CompiledUnit, Fail> {
    let unit = typed_unit(alloc, LONG.as_bytes())?;
    let mut pieces = Vec::new(alloc);
    pieces.push(piece(alloc, &unit, 1)?)?;
    pieces.push(piece(alloc, &unit, 0)?)?;
    let made = link(alloc, &unit, pieces);
    drop(unit);
    Ok(made?)
}

#[test]
fn function_by_function(rt: HostRuntime) -> Result<(), Fail> {
    let unit = reversed(rt.alloc())?;
    let run = ends_well(WORDS, 10_000, &[0, 300]);
    let right = image_runs(rt.alloc(), &unit, run)?;
    let kept = unit.stored().source.bytes() == LONG.as_bytes();
    drop(unit);
    passes(Ok(right && kept))
}

/// Four functions that call one another, also functions that are defined later.
const FOUR: &str =
    "int c(int);int a[3]={1,2,3};int b(int n){a[1]=n;return n*2+c(1);}int c(int n){if(n>3)return a[1];return c(n+1)+a[2];}void d(int n){write_word(n-b(n));}int main(void){d(7);write_word(c(2));return b(1);}";

/// Every order of the four functions.
static ORDERS: [[usize; 4]; 24] = [
    [0, 1, 2, 3],
    [0, 1, 3, 2],
    [0, 2, 1, 3],
    [0, 2, 3, 1],
    [0, 3, 1, 2],
    [0, 3, 2, 1],
    [1, 0, 2, 3],
    [1, 0, 3, 2],
    [1, 2, 0, 3],
    [1, 2, 3, 0],
    [1, 3, 0, 2],
    [1, 3, 2, 0],
    [2, 0, 1, 3],
    [2, 0, 3, 1],
    [2, 1, 0, 3],
    [2, 1, 3, 0],
    [2, 3, 0, 1],
    [2, 3, 1, 0],
    [3, 0, 1, 2],
    [3, 0, 2, 1],
    [3, 1, 0, 2],
    [3, 1, 2, 0],
    [3, 2, 0, 1],
    [3, 2, 1, 0],
];

// Worked out by hand: `b(7)` stores 7 and returns 14 + c(1), which is 7 + 3 * 3 = 16; `d` writes 7 - 30. `c(2)` is 7 + 2 * 3.
// `b(1)` stores 1 and returns 2 + 1 + 9.
const FOUR_RUN: Run<'static> = Run {
    input: &[],
    steps: 10_000,
    words: &[-23, 13],
    outcome: MachineOutcome::Exited(12),
};

// Whether the pieces make the same unit in each order, and its image runs right.
fn are_same(
    alloc: Global,
    unit: &Arc<TypedUnit>,
    pieces: &[Piece],
    whole: &CompiledUnit,
) -> Result<bool, Fail> {
    for order in ORDERS.iter() {
        if !is_same(alloc, unit, pieces, order.as_slice(), whole)? {
            return Ok(false);
        }
    }
    image_runs(alloc, whole, FOUR_RUN)
}

#[test]
fn every_order(rt: HostRuntime) -> Result<(), Fail> {
    let alloc = rt.alloc();
    let unit = typed_unit(alloc, FOUR.as_bytes())?;
    let mut pieces = Vec::new(alloc);
    add_pieces(alloc, &mut pieces, &unit)?;
    let whole = linked(alloc, &unit, pieces.as_slice(), &[0, 1, 2, 3])?;
    let right = are_same(alloc, &unit, pieces.as_slice(), &whole);
    drop(whole);
    drop(pieces);
    drop(unit);
    passes(right)
}
