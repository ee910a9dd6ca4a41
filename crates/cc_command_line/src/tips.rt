// What a person may have meant by words that are refused. A tip is the end of an error's text, in the form of the parser's own tips.

use crate::files::FILE;
use crate::given::UNEXPECTED;
use crate::row::{Form, Row};
use crate::spool::SUBMIT_HELP;
use clap::ArgMatches;
use std::alloc::{AllocError, Global};
use std::convert::AsStr;

/// The name under which a command is given more words than it takes, and the first of them.
pub(crate) fn first_unexpected<'a>(given: &ArgMatches<'a>) -> (&'static str, &'a str) {
    (UNEXPECTED.0, given.get_str(UNEXPECTED.0).unwrap_or(""))
}

// Whether a word may name a file: it is no number, with a sign or without one.
fn may_be_file(word: &str) -> bool {
    !word.is_empty()
        && !word.starts_with('-')
        && !word.starts_with('+')
        && !word.bytes().all(|byte| byte.is_ascii_digit())
}

// Whether the command in this row reads a program from standard input, and the word of this name comes without `--`.
fn is_in_place_of_file(row: &Row, name: &str) -> bool {
    let mut reads_program = false;
    let mut is_plain = false;
    for word in row.words {
        reads_program = reads_program || word.0 == FILE.0;
        is_plain = is_plain
            || word.0 == name
                && matches!(
                    word.1,
                    Form::Optional | Form::Number | Form::Numbers | Form::Unexpected
                );
    }
    reads_program && is_plain
}

/// The tip for the words of this name, which break a rule of the command: how the program's file is given, if the first of them
/// that is no number may be that file. An empty text if there is nothing to say.
pub(crate) fn file_tip(
    alloc: Global,
    row: &Row,
    given: &ArgMatches<'_>,
    name: &str,
) -> Result<String, AllocError> {
    if is_in_place_of_file(row, name) {
        for word in given.get_strs(name).unwrap_or(&[]) {
            if may_be_file(word) {
                return format!(in alloc;
                    "\n\n  tip: the program is read from standard input; if '{word}' is its file, write '< {word}' or '--file {word}'"
                );
            }
        }
    }
    Ok(String::new(alloc))
}

// The form of a script's line with this first word, as the first paragraph of a help text lists it: `add NAME LEN`.
fn form_in<'a>(help: &'a str, first: &str) -> Option<&'a str> {
    let listed = match help.split_once("\n\n") {
        Some((listed, _)) => listed,
        None => help,
    };
    for line in listed.lines() {
        if let Some(line) = line.strip_prefix("  ") {
            let form = match line.split_once("  ") {
                Some((form, _)) => form,
                None => line,
            };
            if form.split(' ').next() == Some(first) {
                return Some(form);
            }
        }
    }
    None
}

/// The first of these words, after the program's name, that is no option; `None` if each is one.
fn command_in<'a, S: AsStr>(words: &'a [S]) -> Option<&'a str> {
    for word in words.iter().skip(1) {
        let word = word.as_str();
        if !word.starts_with('-') {
            return Some(word);
        }
    }
    None
}

/// The text of the error for a command line whose first word is no command: it is a line of a script, or may be a file. `None`
/// if nothing is known about the word.
pub(crate) fn no_command_text<'a, S: AsStr>(
    alloc: Global,
    words: &'a [S],
) -> Result<Option<String>, AllocError> {
    let Some(name) = command_in(words) else {
        return Ok(None);
    };
    let Some(submitted) = form_in(SUBMIT_HELP, name) else {
        if !name.contains('.') {
            return Ok(None);
        }
        return Ok(Some(format!(in alloc;
            "unrecognized subcommand '{name}'\n\n  tip: a command comes first: cclib check {name}"
        )?));
    };
    Ok(Some(format!(in alloc;
        "'{name}' is a line of a script, and no command\n\n  tip: with a server: cclib submit FOLDER {submitted}"
    )?))
}
