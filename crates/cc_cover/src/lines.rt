// The lines of a text.

use std::alloc::{AllocError, Global};

/// For each byte of a text, and for the end of the text, the number of its line, counted from 0.
pub fn lines_of(alloc: Global, text: &[u8]) -> Result<Vec<u32>, AllocError> {
    let mut lines = Vec::with_capacity(alloc, text.len().saturating_add(1))?;
    let mut line = 0u32;
    for byte in text {
        lines.push(line)?;
        if *byte == b'\n' {
            line = line.saturating_add(1);
        }
    }
    lines.push(line)?;
    Ok(lines)
}
