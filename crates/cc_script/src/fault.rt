// Why a script, or a line of it, is refused.

ghost use Rattle.std.specs.Prelude.{◌≡◌};
ghost use Rattle.cc_script.specs.Fault.{fault_number};

use thiserror::Error;

/// Why a script ends before its last line, or why a line of it is not executed.
#[derive(Clone, Copy, Debug, Drop, Error)]
pub enum ScriptFault {
    /// 50: a line that is not a command, or a byte other than a newline after a source.
    #[error("BadLine")]
    BadLine,
    /// 51: the script ends within a source.
    #[error("EndOfScript")]
    EndOfScript,
    /// 52: a script of more than 16,777,216 bytes.
    #[error("ScriptTooLong")]
    ScriptTooLong,
    /// 53: the script could not be read.
    #[error("ReadFault")]
    ReadFault,
    /// 54: an answer could not be written.
    #[error("WriteFault")]
    WriteFault,
    /// 61: the script was at work for a long time while others waited; never in a session.
    #[error("Stopped")]
    Stopped,
}

impl ScriptFault {
    /// The number of the fault: 50 to 54, or 61.
    pub fn number(self) -> u32
        ensures { result ≡ fault_number self }
    {
        match self {
            ScriptFault::BadLine => 50,
            ScriptFault::EndOfScript => 51,
            ScriptFault::ScriptTooLong => 52,
            ScriptFault::ReadFault => 53,
            ScriptFault::WriteFault => 54,
            ScriptFault::Stopped => 61,
        }
    }
}
