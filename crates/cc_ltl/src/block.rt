// A block: moves, then one operation, then moves.

ghost use Rattle.std.specs.Prelude.{◌≡◌, ◌<◌, ◌^◌, ◌↔◌, length, IsOk, MatchResult};

use crate::operation::{Move, Operation};
use std::marker::Model;

/// A block has at most this many moves before its operation, and at most this many after it.
pub const MOST_MOVES: usize = 65_535;

/// At most 65,535 moves, which are made one after the other. Contracts see the list of moves.
pub struct Moves {
    moves: Vec<Move>,
}

// Written by hand, so that crates above can call this `drop` and need not prove again how each part is dropped.
impl Drop for Moves {
    fn drop(self) {
        let Moves { moves } = self;
    }
}

impl Model for Moves {
    ghost use Rattle.std.specs.Prelude.{List, length, ◌<◌, ◌^◌};
    ghost use Rattle.cc_ltl.specs.declared.operation.Move.{Move};

    ghost Value = { List Move };

    ghost view = { λ m. m.moves.items };

    ghost invariant = { λ m. length m.moves.items < 2 ^ 16 };
}

impl Moves {
    /// Makes a list of these moves. Fails and hands the moves back if there are more than 65,535. Takes no memory.
    pub fn new(moves: Vec<Move>) -> Result<Self, Vec<Move>>
        ensures fits { IsOk result ↔ (length moves.items < 2 ^ 16) }
        ensures hands_back { MatchResult result (λ made. made ≡ moves.items) (λ back. back ≡ moves) }
    {
        if moves.len() > MOST_MOVES {
            return Err(moves);
        }
        Ok(Moves { moves })
    }

    /// The moves, in the order in which they are made.
    pub fn moves(&self) -> &[Move]
        ensures moves { result.now ≡ self.now }
        ensures few { length self.now < 2 ^ 16 }
    {
        self.moves.as_slice()
    }
}

/// One step of a function: the moves before, the operation, and the moves after.
#[derive(Drop)]
pub struct Block {
    pub label: u32,
    pub before: Moves,
    pub operation: Operation,
    pub after: Moves,
}
