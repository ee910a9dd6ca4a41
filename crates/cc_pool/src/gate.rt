// A gate that workers pass.

/// A call that each worker makes after taking a piece and before compiling it. The worker holds no lock during the call.
pub trait Gate {
    /// Called before a piece is compiled: `job` is the job's number, and `piece` is the number of the function, counted from 0
    /// in the order of definitions.
    fn before(&self, job: u64, piece: u32);
}

/// A gate that does nothing.
#[derive(Drop)]
pub struct NoGate;

impl Gate for NoGate {
    fn before(&self, _job: u64, _piece: u32) {}
}
