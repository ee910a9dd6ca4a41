// Why a job has no pieces.

ghost use Rattle.std.specs.Prelude.{◌≡◌};
ghost use Rattle.cc_pool.specs.Fault.{pool_fault_number};

use cc_link::PieceFault;
use thiserror::Error;

/// Why a job has no pieces, or why a pool did not start or end as it should.
#[derive(Clone, Copy, Debug, Error)]
pub enum PoolFault {
    /// 22, 24: a worker refused the function with this number.
    #[error("{fault}")]
    Piece { function: usize, fault: PieceFault },
    /// 41: a thread could not be started, the queue is closed, there are no more job numbers, a job's answers ended early, or not all
    /// of a pool's passes came back.
    #[error("WorkersGone")]
    WorkersGone,
    /// 40: memory ran out.
    #[error("OutOfMemory")]
    OutOfMemory,
}

impl PoolFault {
    /// The fault's number: the number of the piece's fault, or 41 or 40.
    pub fn number(&self) -> u32
        ensures { result ≡ pool_fault_number self.now }
    {
        match self {
            PoolFault::Piece { function: _, fault } => fault.number(),
            PoolFault::WorkersGone => 41,
            PoolFault::OutOfMemory => 40,
        }
    }
}
