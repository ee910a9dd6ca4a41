// The messages about a text, as they are written.

use cc_diagnostic::Diagnostic;
use std::alloc::{AllocError, Global};

/// The lines that are written for a diagnostic about a text, or none without a diagnostic.
pub fn written(
    alloc: Global,
    text: &[u8],
    diagnostic: Option<Diagnostic>,
) -> Result<Vec<u8>, AllocError> {
    let mut lines = Vec::new(alloc);
    if let Some(diagnostic) = diagnostic {
        let result = diagnostic.write(text, &mut lines);
        drop(diagnostic);
        if result.is_err() {
            drop(lines);
            return Err(AllocError);
        }
    }
    Ok(lines)
}
