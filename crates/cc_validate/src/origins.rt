// Where words come from through many moves: a table of all locations, made once, in place of a step for each move.

ghost use Rattle.std.specs.Prelude.{[], IfOk};
ghost use Rattle.cc_validate.specs.internal.Origins.{AreOrigins};

use crate::moves::{number, source, target};
use cc_ltl::Move;
use std::alloc::{AllocError, Global};

/// The number of locations: 32 registers, then 495 slots.
pub const PLACES: usize = 527;

/// For each location, the number of the location from which its word comes through the moves. `Err` if memory runs
/// out.
pub fn origins(alloc: Global, moves: &[Move]) -> Result<Vec<usize>, AllocError>
    ensures { IfOk result (λ made. AreOrigins moves.now made.items) }
{
    let mut origins = places(alloc)?;
    for m in moves {
        origins[number(target(m))] = origins[number(source(m))];
    }
    Ok(origins)
}

/// The table for no moves: each word comes from its own location.
fn places(alloc: Global) -> Result<Vec<usize>, AllocError>
    ensures { IfOk result (λ made. AreOrigins [] made.items) }
{
    let mut places = Vec::with_capacity(alloc, PLACES)?;
    for place in 0..PLACES {
        places.push(place)?;
    }
    Ok(places)
}
