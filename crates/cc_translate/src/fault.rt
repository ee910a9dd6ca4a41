// Why a text of wide C is not translated.

ghost use Rattle.std.specs.Prelude.{◌≡◌};
ghost use Rattle.cc_translate.specs.Fault.{fault_number, fault_place};

use cc_tokens::{Place, SyntaxFault};
use cc_types::TypeFault;
use thiserror::Error;

/// Why a text of wide C is not translated. Places are those of the wide text.
#[derive(Debug, Drop, Error)]
pub enum TranslateFault {
    /// 1 to 7, 40: `read` refuses the text.
    #[error(transparent)]
    Read(SyntaxFault),
    /// The text has been read, but it is not printed: 5 for a label in a wrong place; 6 if the translation would be nested below
    /// level 64, or have an expression of more than 512 tokens; 7 if it would have more than 65,536 bytes; 40.
    #[error(transparent)]
    Print(SyntaxFault),
    /// 12: a switch has a second label with the same value, or a second `default`. 13: a label is not constant.
    #[error(transparent)]
    Labels(TypeFault),
    /// 18: a `continue` that is in a `switch` and in no loop.
    #[error("BadBreak")]
    Continue(Place),
    /// 11 to 21, 40: `check` refuses the translation.
    #[error(transparent)]
    Typing(TypeFault),
    /// 42: what has been printed is no translation. The place is that of a token which the profile does not have there, if there is
    /// one.
    #[error("Untranslated")]
    Untranslated(Option<Place>),
}

impl TranslateFault {
    /// The number of the fault: 1 to 7, 11 to 21, 40 or 42.
    pub fn number(&self) -> u32
        ensures { result ≡ fault_number self.now }
    {
        match self {
            TranslateFault::Read(fault) | TranslateFault::Print(fault) => fault.number(),
            TranslateFault::Labels(fault) | TranslateFault::Typing(fault) => fault.number(),
            TranslateFault::Continue(_) => 18,
            TranslateFault::Untranslated(_) => 42,
        }
    }

    /// The place in the wide text, if the fault has one.
    pub fn place(&self) -> Option<Place>
        ensures { result ≡ fault_place self.now }
    {
        match self {
            TranslateFault::Read(fault) | TranslateFault::Print(fault) => fault.place(),
            TranslateFault::Labels(fault) | TranslateFault::Typing(fault) => fault.place(),
            TranslateFault::Continue(place) => Some(*place),
            TranslateFault::Untranslated(place) => *place,
        }
    }
}
