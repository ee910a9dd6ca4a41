// Why words that the parser accepted ask for no work, and the error that a person sees.

use crate::commands::command_of_all;
use crate::row::{Row, command_of};
use crate::tips::{file_tip, first_unexpected};
use clap::error::ErrorKind;
use clap::{ArgMatches, Command, Error};
use std::alloc::{AllocError, Global};

pub(crate) enum Refused {
    /// The words break this rule of their command.
    ByCommand(&'static str),
    /// The word or the option of this name breaks this rule of its command.
    ByWord(&'static str, &'static str),
    /// There are more words than the command takes.
    Unexpected,
    /// The words break this rule of all commands.
    ByAll(&'static str),
    OutOfMemory(AllocError),
}

impl From<AllocError> for Refused {
    fn from(error: AllocError) -> Refused {
        Refused::OutOfMemory(error)
    }
}

// The error of a command, with the command's usage.
fn shown<'a>(mut command: Command<'a>, text: &str) -> Result<Error, AllocError> {
    command.error(ErrorKind::ValueValidation, text)
}

// The error of the command in this row, with its usage.
fn shown_by(alloc: Global, row: &'static Row, text: &str) -> Result<Error, AllocError> {
    let command = command_of(alloc, row)?;
    shown(command.bin_name(row.whole)?, text)
}

/// The error for words of all commands that break this rule. Its status is 2. `AllocError` if memory ran out.
pub(crate) fn error_of_all(alloc: Global, text: &str) -> Result<Error, AllocError> {
    shown(command_of_all(alloc)?, text)
}

/// The error for the words that were given to this command and were refused for this reason. Its status is 2. `AllocError` if
/// memory ran out.
pub(crate) fn error_of(
    alloc: Global,
    row: &'static Row,
    given: &ArgMatches<'_>,
    refused: Refused,
) -> Result<Error, AllocError> {
    match refused {
        Refused::ByCommand(rule) => shown_by(alloc, row, rule),
        Refused::ByWord(rule, name) => {
            let tip = file_tip(alloc, row, given, name)?;
            let text = format!(in alloc; "{rule}{tip}")?;
            shown_by(alloc, row, text.as_str())
        }
        Refused::Unexpected => {
            let (name, word) = first_unexpected(given);
            let tip = file_tip(alloc, row, given, name)?;
            let text = format!(in alloc; "unexpected argument '{word}' found{tip}")?;
            shown_by(alloc, row, text.as_str())
        }
        Refused::ByAll(rule) => error_of_all(alloc, rule),
        Refused::OutOfMemory(error) => Err(error),
    }
}
