// The inputs of several runs, one on each line.

use cc_runs::words_in;
use std::alloc::Global;

/// Why lines are not inputs: the line with this number, counted from 1, is not a list of words, or memory ran out.
#[derive(Clone, Copy)]
pub enum BadInput {
    Line(usize),
    OutOfMemory,
}

/// The inputs in these lines, each read as `words_in` of `cc_runs` reads it. What follows the last newline is a line if it has
/// any bytes.
pub fn inputs_of(alloc: Global, lines: &[u8]) -> Result<Vec<Vec<u32>>, BadInput> {
    let mut inputs = Vec::new(alloc);
    if lines.is_empty() {
        return Ok(inputs);
    }
    let whole = lines.strip_suffix(b"\n").unwrap_or(lines);
    let mut number = 0usize;
    for line in whole.split(|byte| *byte == b'\n') {
        number = number.saturating_add(1);
        match words_in(alloc, line) {
            Ok(Some(words)) => {
                if inputs.push(words).is_err() {
                    return Err(BadInput::OutOfMemory);
                }
            }
            Ok(None) => return Err(BadInput::Line(number)),
            Err(_) => return Err(BadInput::OutOfMemory),
        }
    }
    Ok(inputs)
}
