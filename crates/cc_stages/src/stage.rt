// The stages of a function, and how each is written: a line `== f: RTL` at its beginning, and then its text.

use std::fmt::Display;
use std::io::{self, Write};

/// What is shown for a function, in this order.
#[derive(Clone, Copy)]
pub(crate) enum Stage {
    Cminor,
    /// Cminor with its guards, for a checked image.
    Guarded,
    /// RTL as it is generated.
    Rtl,
    /// RTL in which the nodes that nobody needs are nops.
    Pruned,
    /// Validated LTL.
    Ltl,
    Linear,
    /// The steps that selection gives.
    Selected,
    /// The lines of its code in the image's listing.
    Code,
}

impl Stage {
    // The stage's name, for the line at its beginning.
    fn title(self) -> &'static str {
        match self {
            Stage::Cminor => "Cminor",
            Stage::Guarded => "Cminor with guards",
            Stage::Rtl => "RTL",
            Stage::Pruned => "RTL without dead nodes",
            Stage::Ltl => "LTL",
            Stage::Linear => "Linear",
            Stage::Selected => "Selected",
            Stage::Code => "code",
        }
    }

    /// Writes the line at the beginning of the stage, for the function with this name. No other line of a stage begins with
    /// `==`.
    pub(crate) fn begin<W: Write>(self, name: &[u8], writer: &mut W) -> io::Result<()> {
        let title = self.title();
        writer.write_all(b"== ")?;
        writer.write_all(name)?;
        writeln!(writer, ": {title}")
    }

    /// Writes the stage, with its text.
    pub(crate) fn write<T: Display, W: Write>(
        self,
        name: &[u8],
        text: &T,
        writer: &mut W,
    ) -> io::Result<()> {
        self.begin(name, writer)?;
        write!(writer, "{text}")
    }
}
