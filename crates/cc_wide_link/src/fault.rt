// Why a text of wide C has no image.

ghost use Rattle.std.specs.Prelude.{◌≡◌};
ghost use Rattle.cc_wide_link.specs.Refused.{wide_fault_number};

use cc_link::BuildFault;
use cc_translate::TranslateFault;
use thiserror::Error;

/// Why a text of wide C has no image.
#[derive(Debug, Drop, Error)]
pub enum WideBuildFault {
    /// 1 to 7, 11 to 21, 40, 42: the text is not translated.
    #[error(transparent)]
    Wide(TranslateFault),
    /// 22, 24, 25, 40: the translation has no image.
    #[error(transparent)]
    Build(BuildFault),
}

impl WideBuildFault {
    /// The number of the fault: 1 to 7, 11 to 22, 24, 25, 40 or 42.
    pub fn number(&self) -> u32
        ensures { result ≡ wide_fault_number self.now }
    {
        match self {
            WideBuildFault::Wide(fault) => fault.number(),
            WideBuildFault::Build(fault) => fault.number(),
        }
    }
}
