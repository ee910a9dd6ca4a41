// Running the image of a unit while its input comes.

ghost use Rattle.std.specs.Prelude.{IfSome};
ghost use Rattle.cc_runs.specs.Live.{GoesLive};

use cc_runs::{LiveEnd, explain_final, run_live};
use cc_rv32::image::Image;
use std::alloc::Global;
use std::io::{BufRead, Write};

/// Runs an image while its input comes, line by line: what `cc_runs::run_live` does. If the run has stopped in place, that is explained.
pub fn call_live<R: BufRead, W: Write, E: Write>(
    alloc: Global,
    image: &Image,
    steps: u64,
    reads_zeros: bool,
    reader: &mut R,
    writer: &mut W,
    explanations: &mut E,
) -> LiveEnd
    // For a reader whose bytes are known.
    ensures turns { IfSome (R.remaining reader.old) (λ input.
        GoesLive image.now steps reads_zeros input (W.contents writer.old) (W.contents writer.new) result) }
{
    let end = run_live(
        alloc,
        image,
        steps,
        reads_zeros,
        reader,
        writer,
        explanations,
    );
    if let LiveEnd::Ended {
        is_final: true,
        has_bad_line: _,
    } = &end
    {
        let _ = explain_final(explanations);
    }
    end
}
