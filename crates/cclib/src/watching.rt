// The commands `trace` and `cover`.

use cc_answers::{Persons, Telling};
use cc_command_line::{Covered, Traced};
use cc_cover::{cover_files, cover_lines, trace_files};
use cc_filing::buffers;
use cc_watch::AnswerProgress;
use std::alloc::AllocError;
use std::io::{self, Input, Write};
use std::rt::Clock;

/// Runs `trace` for the program in these files, or on standard input if no file is named. The result is the status. The only
/// error is that memory ran out before this began.
pub fn start_trace<R: AllocGlobal + Input, A: Write + Drop, E: Write + Drop>(
    rt: &R,
    files: &HostRuntime,
    asked: Traced,
    names: &[String],
    is_quiet: bool,
    answers: A,
    errors: E,
) -> Result<u8, AllocError> {
    let Ok((mut writer, mut told)) = buffers(rt.alloc(), answers, errors, is_quiet) else {
        drop(asked);
        return Err(AllocError);
    };
    let Traced { steps, words, last } = asked;
    let last = last as usize;
    trace_files(rt, files, names, steps, words, last, &mut writer, &mut told)
}

// Runs `cover` for each line of a file. A person who sees standard error is shown how many runs there were.
fn cover_each<R: AllocGlobal + Clock + Input + Copy + Drop, W: Write, E: Write + Drop>(
    rt: &R,
    files: &HostRuntime,
    names: &[String],
    steps: u64,
    lines: &str,
    is_watched: bool,
    writer: &mut W,
    told: &mut Telling<E>,
) -> Result<u8, AllocError> {
    let screen = if is_watched {
        Some(files.stderr())
    } else {
        None
    };
    let mut seen = AnswerProgress::new(io::sink(), *rt, screen, "runs");
    let status = cover_lines(rt, files, names, steps, lines, &mut seen, writer, told);
    seen.clear();
    drop(seen);
    status
}

/// Runs `cover` for the program in these files, or on standard input if no file is named. The result is the status. The only
/// error is that memory ran out before this began.
pub fn start_cover<R: AllocGlobal + Clock + Input + Copy + Drop, A: Write + Drop, E: Write + Drop>(
    rt: &R,
    files: &HostRuntime,
    asked: Covered,
    names: &[String],
    persons: Persons,
    answers: A,
    errors: E,
) -> Result<u8, AllocError> {
    let is_quiet = persons.is_quiet;
    let Ok((mut writer, mut told)) = buffers(rt.alloc(), answers, errors, is_quiet) else {
        drop(asked);
        return Err(AllocError);
    };
    let Covered {
        steps,
        words,
        lines,
    } = asked;
    match lines {
        Some(lines) => {
            drop(words);
            let lines = lines.as_str();
            let is_watched = persons.is_watched && !is_quiet;
            cover_each(
                rt,
                files,
                names,
                steps,
                lines,
                is_watched,
                &mut writer,
                &mut told,
            )
        }
        None => cover_files(rt, files, names, steps, words, &mut writer, &mut told),
    }
}
