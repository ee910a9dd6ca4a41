// How the line of a text is shown, with the caret.

use super::helpers::written;
use cc_diagnostic::{Diagnostic, of_name};
use std::alloc::Global;
use std::test::Fail;
use tests_texts::verdict::{each_passes, passes};

// A text, an offset in it, and the lines that are written for a diagnostic there.
type Written = (&'static [u8], Option<usize>, &'static str);

fn is_written(alloc: Global, row: &Written) -> Result<bool, Fail> {
    let (text, at, told) = *row;
    let message = String::from_str(alloc, "this")?;
    let related = None;
    let diagnostic = Diagnostic {
        at,
        message,
        related,
    };
    let lines = written(alloc, text, Some(diagnostic))?;
    Ok(lines.as_slice() == told.as_bytes())
}

const TEXT: &[u8] = b"a\nbc";

static OFFSETS: [Written; 6] = [
    (TEXT, Some(0), "-:1:1: this\n    1 | a\n      | ^\n"),
    (TEXT, Some(1), "-:1:2: this\n    1 | a\n      |  ^\n"),
    (TEXT, Some(4), "-:2:3: this\n    2 | bc\n      |   ^\n"),
    (TEXT, Some(999), "-:2:3: this\n    2 | bc\n      |   ^\n"),
    (TEXT, None, "-: this\n"),
    (b"", Some(0), "-:1:1: this\n    1 | \n      | ^\n"),
];

#[test]
fn offsets(rt: HostRuntime) -> Result<(), Fail> {
    each_passes(rt.alloc(), OFFSETS.as_slice(), is_written)
}

// Whether the message about the name of `length` bytes at offset `at` has exactly these lines.
fn names(alloc: Global, at: usize, length: usize, told: &str) -> Result<bool, Fail> {
    let text = b"int f(void){}".as_slice();
    let diagnostic = of_name(alloc, text, at, length, "is too large")?;
    let lines = written(alloc, text, Some(diagnostic))?;
    Ok(lines.as_slice() == told.as_bytes())
}

#[test]
fn words_about_names(rt: HostRuntime) -> Result<(), Fail> {
    let f = "-:1:5: 'f' is too large\n    1 | int f(void){}\n      |     ^\n";
    let past = "-:1:14: '' is too large\n    1 | int f(void){}\n      |              ^\n";
    passes(names(rt.alloc(), 4, 1, f))?;
    passes(names(rt.alloc(), 99, 1, past))
}
