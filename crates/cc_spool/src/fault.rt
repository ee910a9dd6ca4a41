// Why a folder, or a script in it, is refused.

ghost use Rattle.std.specs.Prelude.{◌≤◌};

use thiserror::Error;

/// Why a folder can't be used as a spool, or why a script in it has no complete answer.
#[derive(Clone, Copy, Debug, Drop, Error)]
pub enum SpoolFault {
    /// 55: the server ended while it ran the script.
    #[error("Interrupted")]
    Interrupted,
    /// 56: the folder, or a part of it, can't be used.
    #[error("FolderFault")]
    FolderFault,
    /// 57: another server works in the folder.
    #[error("FolderInUse")]
    FolderInUse,
    /// 58: no server took the script in time. It was taken back, so none of it is run.
    #[error("NotTaken")]
    NotTaken,
}

impl SpoolFault {
    /// The number of the fault: 55 to 58.
    pub fn number(self) -> u32
        ensures { (55 ≤ result) × (result ≤ 58) }
    {
        match self {
            SpoolFault::Interrupted => 55,
            SpoolFault::FolderFault => 56,
            SpoolFault::FolderInUse => 57,
            SpoolFault::NotTaken => 58,
        }
    }
}
