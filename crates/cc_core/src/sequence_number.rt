// A number that only contracts see. It tells apart commands that ask for the same thing.

ghost use Rattle.std.specs.Prelude.{◌≡◌, ℕ, ◌+◌};
ghost use Rattle.std.specs.Borrow.{ftrue};

use std::marker::Model;

/// The sequence number of a Begin among those that took a step, counted from 0. Only contracts see it, as `value`, which has no
/// upper limit. At run time a sequence number has no bytes.
#[derive(Drop)]
pub struct SequenceNumber {
    pub ghost value: { ℕ },
}

// The struct owns nothing.
impl Model for SequenceNumber {
    ghost also_owns = { λ _. ftrue };
}

impl SequenceNumber {
    /// The sequence number of the first Begin.
    pub(crate) fn first() -> SequenceNumber
        ensures { result ≡ record { value = 0 } }
    {
        SequenceNumber {}
    }

    /// The number after this one.
    pub(crate) fn next(&self) -> SequenceNumber
        ensures { result ≡ record { value = self.now.value + 1 } }
    {
        SequenceNumber {}
    }

    /// A copy of the number.
    pub(crate) fn same(&self) -> SequenceNumber
        ensures { result ≡ self.now }
    {
        SequenceNumber {}
    }
}
