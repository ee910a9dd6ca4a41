// Where a word can be: an allocatable register, or a slot of the frame.

ghost use Rattle.std.specs.Prelude.{◌≡◌, ◌<◌, IsSome, IfSome, ◌↔◌};
ghost use Rattle.cc_ltl.specs.Registers.{IsAllocatable, most_slots};

use std::marker::Model;

/// A register that the allocator may use: `x7` to `x31`. The emitter keeps `x5` and `x6` for itself, and `x0` to `x4` have uses
/// of their own. Contracts see its number.
#[derive(Clone, Copy, PartialEq, Eq)]
pub struct Register {
    number: u8,
}

impl Model for Register {
    ghost use Rattle.std.specs.Prelude.{ℕ};
    ghost use Rattle.cc_ltl.specs.Registers.{IsAllocatable};

    ghost Value = { ℕ };

    ghost view = { λ r. r.number };

    ghost invariant = { λ r. IsAllocatable r.number };

    ghost inverse = { λ n. record { number = n } };
}

impl Register {
    /// The register with this number; `None` if that is not allocatable (below 7 or above 31).
    pub fn new(number: u8) -> Option<Self>
        ensures allocatable { IsSome result ↔ IsAllocatable number }
        ensures answer { IfSome result (λ register. register ≡ number) }
    {
        if 7 <= number && number < 32 {
            Some(Register { number })
        } else {
            None
        }
    }

    /// The register's number, 7 to 31.
    pub fn number(self) -> u8
        ensures number { result ≡ self }
        ensures allocatable { IsAllocatable self }
    {
        self.number
    }
}

/// A function has at most this many slots.
pub const MOST_SLOTS: u16 = 495;

/// A slot of a function's frame, which holds a word. Contracts see its number, 0 to 494.
#[derive(Clone, Copy, PartialEq, Eq)]
pub struct Slot {
    number: u16,
}

impl Model for Slot {
    ghost use Rattle.std.specs.Prelude.{ℕ, ◌<◌};
    ghost use Rattle.cc_ltl.specs.Registers.{most_slots};

    ghost Value = { ℕ };

    ghost view = { λ s. s.number };

    ghost invariant = { λ s. s.number < most_slots };

    ghost inverse = { λ n. record { number = n } };
}

impl Slot {
    /// The slot with this number; `None` if it is 495 or more.
    pub fn new(number: u16) -> Option<Self>
        ensures few { IsSome result ↔ (number < most_slots) }
        ensures answer { IfSome result (λ slot. slot ≡ number) }
    {
        if number < MOST_SLOTS {
            Some(Slot { number })
        } else {
            None
        }
    }

    /// The slot's number, 0 to 494.
    pub fn number(self) -> u16
        ensures number { result ≡ self }
        ensures few { self < most_slots }
    {
        self.number
    }
}

/// Where a word can be.
#[derive(Clone, Copy, PartialEq, Eq)]
pub enum Location {
    Register(Register),
    Slot(Slot),
}
