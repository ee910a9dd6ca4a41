// What a compiled program must do if its source goes wrong.

/// What a compiled program must do if its source goes wrong.
#[derive(Clone, Copy, PartialEq, Eq, Debug)]
pub enum Mode {
    /// Nothing.
    Plain,
    /// The program has to run for ever with the output so far, without writing more and without ending. If the cause is too many open
    /// calls, nothing is required of it.
    Checked,
}
