// What a book's parameter names.

use std::marker::Brand;
use std::sync::ledger::Ledger;

/// The ledger of a book, the map with which the book began, and what a crash could have left before. Whoever opens a book chooses
/// these.
pub trait Based: Ledger {
    ghost use Rattle.std.specs.Prelude.{ℕ, List};
    ghost use Rattle.cc_library.specs.Apply.{Units};

    /// The map that an honest disk's library had when the book was opened.
    ghost base: { Units };

    /// At most the number of device calls that had failed at the opening: each change that failed did so in a call that failed later.
    ghost failures: { ℕ };

    /// A moment of that disk, no later than the opening: the book says what a crash has left since then.
    ghost from: { ℕ };

    /// What a crash from that moment until the opening may have left.
    ghost left: { List ℕ → Type 0 };
}

impl Based for Brand {
    ghost use Rattle.std.specs.FinMap.{empty};

    ghost base = { empty };

    ghost failures = { 0 };

    ghost from = { 0 };

    ghost left = { λ image. Unit {0} };
}
