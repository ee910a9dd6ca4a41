// A count without an upper limit, which is shown as a 64-bit number if it fits.

ghost use Rattle.std.specs.Prelude.{◌≡◌, ◌+◌, ◌-◌, ◌^◌, ℕ, min, length};

use crate::history::History;
use std::marker::Model;

/// How many failures there were. A clause sees a number.
#[derive(Drop)]
pub struct FailureCount {
    shown: u64,
    each: History<()>,
}

impl Model for FailureCount {
    ghost Value = { ℕ };

    ghost view = { λ c. length c.each.items };

    ghost invariant = { λ c. c.shown ≡ min (length c.each.items) (2 ^ 64 - 1) };
}

impl FailureCount {
    pub fn new() -> FailureCount
        ensures { result ≡ 0 }
    {
        FailureCount {
            shown: 0,
            each: History::new(),
        }
    }

    pub fn add_one(&mut self)
        ensures { self.new ≡ self.old + 1 }
    {
        self.shown = self.shown.saturating_add(1);
        self.each = self.each.and(&());
    }

    /// The count, or 2^64 - 1 if it is larger.
    pub fn shown(&self) -> u64
        ensures { result ≡ min self.now (2 ^ 64 - 1) }
    {
        self.shown
    }
}
