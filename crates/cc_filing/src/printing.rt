// The buffers that a command prints to.

use cc_answers::Telling;
use std::alloc::{AllocError, Global};
use std::io::{BufWriter, Write};

/// Buffers for a command's answers and explanations. If explanations are to be left out, they are dropped.
pub fn buffers<A: Write + Drop, E: Write + Drop>(
    alloc: Global,
    answers: A,
    errors: E,
    is_quiet: bool,
) -> Result<(BufWriter<A>, Telling<BufWriter<E>>), AllocError> {
    let (Ok(writer), Ok(errors)) = (
        BufWriter::new(alloc, answers),
        BufWriter::new(alloc, errors),
    ) else {
        return Err(AllocError);
    };
    Ok((writer, Telling { errors, is_quiet }))
}
