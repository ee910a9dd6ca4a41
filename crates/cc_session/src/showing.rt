// What is written for a unit that was found: its image or its source, in the form that an answer has.

ghost use Rattle.std.specs.Prelude.{◌≡◌, IfOk};
ghost use Rattle.cc_session.specs.Showing.{IsShownOf};

use cc_service::Found;
use cc_task::Part;
use std::alloc::{AllocError, Global};

// The text of this part of the unit that was found: its image as Intel HEX; or its source in a frame that says how many bytes it
// has.
pub(crate) fn text_of(alloc: Global, found: &Found, part: Part) -> Result<Vec<u8>, AllocError>
    ensures { IfOk result (λ text. IsShownOf part found.now.entry.reply text.items) }
{
    let unit = found.unit().stored();
    match part {
        Part::Image => cc_hex::image::write(alloc, &unit.image),
        Part::Source => cc_spool::frame(alloc, unit.source.bytes()),
    }
}
