// A command line that asks for no work: what a person reads, and the program's status.

ghost use Rattle.std.specs.Prelude.{IfOk};
ghost use Rattle.cc_command_line.specs.Work.{IsAllowed};

use crate::command_line::{Invocation, Work, read_invocation, refused_bytes};
use clap::Error;
use clap::error::ErrorKind;
use std::alloc::Global;
use std::convert::AsStr;

/// Why there is no work.
#[derive(Clone, Copy)]
pub enum NoRequest {
    /// The program's status: 2 if the command line was refused, 0 if it asked for help and the help was printed, 1 if the help or the version
    /// could not be printed (54).
    Told(u8),
    /// The version was printed, and nothing else.
    Version,
    /// Memory ran out.
    OutOfMemory,
}

fn tell<R: Eprint + Print>(rt: &R, error: Error) -> NoRequest {
    if error.kind() == ErrorKind::OutOfMemory {
        return NoRequest::OutOfMemory;
    }
    let is_version = error.kind() == ErrorKind::DisplayVersion;
    let is_printed = error.print(rt).is_ok();
    if is_version && is_printed {
        return NoRequest::Version;
    }
    NoRequest::Told(if error.exit_code() != 0 {
        2
    } else if is_printed {
        0
    } else {
        1
    })
}

// Whether a function may have this name.
fn may_name_function(name: &str) -> bool {
    name.bytes()
        .all(|byte| byte.is_ascii_alphanumeric() || byte == b'_')
}

// Whether a screen shows this name as it is.
fn is_shown(name: &str) -> bool {
    name.chars().all(|c| !c.is_control())
}

// Says that the program is read from standard input, if the FUNCTION of `stages` can't be a function's name: it may be meant as
// the program's file.
fn note_file<R: Eprint>(rt: &R, request: &Invocation) {
    if request.is_quiet || request.is_json || !request.files.is_empty() {
        return;
    }
    if let Work::Stages(_, Some(name)) = &request.work
        && !may_name_function(name.as_str())
        && is_shown(name.as_str())
    {
        let _ = eprintln!(rt;
            "cclib: the program is read from standard input; if '{name}' is its file, write '< {name}' or '--file {name}'"
        );
    }
}

/// Reads the command line as `read_invocation` does. A refusal goes to standard error; help and the version go to standard output.
pub fn read_or_tell<'a, R: Eprint + Print, S: AsStr>(
    rt: &R,
    alloc: Global,
    words: &'a [S],
) -> Result<Invocation, NoRequest>
    ensures { IfOk result (λ request. IsAllowed request.work) }
{
    match read_invocation(alloc, words) {
        Ok(request) => {
            note_file(rt, &request);
            Ok(request)
        }
        Err(error) => Err(tell(rt, error)),
    }
}

/// Says on standard error that a word of the command line is not UTF-8. The status is 2, unless memory ran out.
pub fn tell_bytes<R: Eprint + Print>(rt: &R, alloc: Global) -> NoRequest {
    match refused_bytes(alloc) {
        Ok(error) => tell(rt, error),
        Err(_) => NoRequest::OutOfMemory,
    }
}
