// Runs whose words come while they run, of a program in files: `run --live`.

use cc_answers::explain_words;
use cc_command_line::Living;
use cc_filing::buffers;
use cc_tasks::{Done, perform_live_texts, read_or_refuse};
use std::alloc::AllocError;
use std::io::{BufReader, Input, Write};

/// Runs the program in these files on the words that standard input has, line by line. The result is the status. The only error is that
/// memory ran out before this began.
pub fn start_live<R: AllocGlobal + Input, A: Write + Drop, E: Write + Drop>(
    rt: &R,
    files: &HostRuntime,
    asked: Living,
    names: &[String],
    is_quiet: bool,
    answers: A,
    errors: E,
) -> Result<u8, AllocError> {
    let (mut writer, mut told) = buffers(rt.alloc(), answers, errors, is_quiet)?;
    let Some(texts) = read_or_refuse(rt, files, names, &mut writer, &mut told)? else {
        return Ok(1);
    };
    let Ok(mut reader) = BufReader::new(rt.alloc(), rt.reader()) else {
        return Err(AllocError);
    };
    let texts = texts.as_slice();
    let Living {
        kind,
        steps,
        reads_zeros,
    } = asked;
    let Done { status, is_written } = perform_live_texts(
        rt,
        kind,
        steps,
        reads_zeros,
        texts,
        &mut reader,
        &mut writer,
        &mut told,
    );
    if !is_written {
        let _ = explain_words(54, &mut told);
    }
    Ok(status)
}
