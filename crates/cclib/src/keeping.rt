// The commands that look into libraries in files, take something out of one, and copy one.

ghost use Rattle.cc_command_line.specs.Work.{IsBoundedLook};

use cc_answers::Persons;
use cc_command_line::{Keeping, Wanted};
use cc_filing::take_out_of_file;
use cc_keeping::{
    call_in_file, copy_file, diff_files, log_of_file, restore_in_file, size_in_file,
    take_out_of_past,
};
use std::alloc::AllocError;
use std::io::{Input, Print, Write};
use std::process;
use std::rt::Clock;

/// Takes a part of a unit out of a library, as it is now or as a command stored it. The result is the status. The only error is that
/// memory ran out before this began.
pub fn take_out<R: AllocGlobal + Print, E: Write + Drop>(
    rt: &R,
    files: &HostRuntime,
    wanted: &Wanted,
    is_quiet: bool,
    errors: E,
) -> Result<u8, AllocError> {
    match wanted.at {
        Some(number) => take_out_of_past(rt, files, wanted, number, is_quiet, errors),
        None => take_out_of_file(rt, files, wanted, is_quiet, errors),
    }
}

/// Looks into libraries. The result is the status. Some kinds of work write to `answers`, others to standard output. The only
/// error is that memory ran out before this began.
pub fn look_into<
    R: AllocGlobal + Clock + Input + Print + Copy + Drop,
    A: Write + Drop,
    E: Write + Drop,
>(
    rt: &R,
    files: &HostRuntime,
    asked: &Keeping,
    persons: Persons,
    answers: A,
    errors: E,
) -> Result<u8, AllocError>
    requires { IsBoundedLook asked.now }
{
    let is_quiet = persons.is_quiet;
    match asked {
        Keeping::Size(asked) => size_in_file(rt, files, asked, is_quiet, answers, errors),
        Keeping::Call(asked) => call_in_file(rt, files, asked, persons, answers, errors),
        Keeping::Diff(asked) => diff_files(rt, files, asked, is_quiet, answers, errors),
        Keeping::Log(asked) => log_of_file(rt, files, asked, is_quiet, answers, errors),
        Keeping::Restore(asked) => {
            drop(answers);
            restore_in_file(rt, files, asked, is_quiet, errors)
        }
        Keeping::Copy(asked) => {
            drop(answers);
            let process = process::id(files.process());
            copy_file(rt, files, process, asked, persons, errors)
        }
    }
}
