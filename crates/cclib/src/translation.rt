// The command `translate`.

use cc_answers::explain_words;
use cc_command_line::Translating;
use cc_filing::buffers;
use cc_tasks::read_or_refuse;
use cc_translating::{Done, Wanted, translate_texts_to, translate_to};
use std::alloc::AllocError;
use std::io::{Input, Write};

// What is to be written of a text that has a translation.
fn wanted_by(asked: Translating) -> Wanted {
    if asked.is_check {
        Wanted::Verdict
    } else if asked.is_bare {
        Wanted::Bare
    } else {
        Wanted::Text
    }
}

/// Translates the text of wide C in these files, or on standard input if no file is named. The result is the status. The only error is that
/// memory ran out before this began.
pub fn start_translation<R: AllocGlobal + Input, A: Write + Drop, E: Write + Drop>(
    rt: &R,
    files: &HostRuntime,
    asked: Translating,
    names: &[String],
    is_quiet: bool,
    answers: A,
    errors: E,
) -> Result<u8, AllocError> {
    let (mut writer, mut told) = buffers(rt.alloc(), answers, errors, is_quiet)?;
    let wanted = wanted_by(asked);
    let Done { status, is_written } = if names.is_empty() {
        translate_to(rt, wanted, &mut rt.reader(), &mut writer, &mut told)
    } else {
        let Some(texts) = read_or_refuse(rt, files, names, &mut writer, &mut told)? else {
            return Ok(1);
        };
        translate_texts_to(rt, wanted, texts.as_slice(), &mut writer, &mut told)
    };
    if !is_written {
        let _ = explain_words(54, &mut told);
    }
    Ok(status)
}
