// The outcome of a run of the machine so far.

/// The outcome of a run so far. After an exit or a trap it does not change.
#[derive(Clone, Copy, PartialEq, Eq, Debug)]
pub enum MachineOutcome {
    /// The machine has executed all instructions that were asked for, and can continue.
    Going,
    /// The program has exited with this word.
    Exited(u32),
    /// The program has reached a word that is not an instruction, an access that is not allowed, or a service that does not
    /// exist.
    Trapped,
}
