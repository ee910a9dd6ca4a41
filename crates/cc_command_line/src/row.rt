// A command as a row of a table. `command_of` makes its parser.

use clap::{Arg, ArgAction, Command};
use std::alloc::{AllocError, Global};

const CALL_USAGE: &str = "\
cclib call [OPTIONS] <DISK> <NAME> <STEPS> [WORD]...
       cclib call [OPTIONS] --unit <FILE> <STEPS> [WORD]...";

const AUDIT_USAGE: &str = "\
cclib audit [OPTIONS] <DISK> [NAME]
       cclib audit [OPTIONS] --unit <FILE>";

/// What a word of a command is.
#[derive(Clone, Copy)]
pub(crate) enum Form {
    /// A word that may be left out.
    Optional,
    /// A word that has to be given.
    Required,
    /// A word that has to be given unless the option of this name is.
    RequiredUnless(&'static str),
    /// A number that has to be given: -1 is such a word, and not an option.
    Number,
    /// Such a number that has to be given unless the option of this name is.
    NumberUnless(&'static str),
    /// Any number of words.
    Several,
    /// Any number of numbers.
    Numbers,
    /// Any number of words that the command does not take. Help does not show them. They are refused with a tip, which the
    /// parser by itself does not have.
    Unexpected,
    /// `--NAME`
    Flag,
    /// `--NAME`, which goes only with the option of this name.
    FlagWith(&'static str),
    /// `--NAME`, before the name of a command or after it.
    Global,
    /// `--NAME VALUE`, with the name by which help calls the value.
    Value(&'static str),
    /// `--NAME VALUE`, an option that has to be given.
    RequiredValue(&'static str),
    /// `--NAME VALUE`, with the value that counts if the option is not given.
    Default(&'static str, &'static str),
    /// `--NAME VALUE`, an option that may be given any number of times, also as `-` and this letter.
    Values(&'static str, char),
}

/// A word of a command, or an option: its name, what it is, and its help.
#[derive(Clone, Copy)]
pub(crate) struct Word(
    pub(crate) &'static str,
    pub(crate) Form,
    pub(crate) &'static str,
);

/// Which command a row is. `work_of` reads its words, with a case for each.
#[derive(Clone, Copy)]
pub(crate) enum Reader {
    Check,
    Interpret,
    Run,
    Trace,
    Cover,
    Asm,
    Stages,
    Size,
    Safe,
    Image,
    Source,
    Call,
    Diff,
    Log,
    Restore,
    Copy,
    Library,
    Add,
    Replace,
    Withdraw,
    List,
    Audit,
    Compact,
    Pack,
    Unpack,
    Hash,
    Serve,
    Submit,
    Translate,
}

/// A command.
pub(crate) struct Row {
    pub(crate) name: &'static str,
    /// What reads the words that are given to it.
    pub(crate) reader: Reader,
    /// The program's name, followed by the command's.
    pub(crate) whole: &'static str,
    pub(crate) about: &'static str,
    pub(crate) words: &'static [Word],
    /// What its help ends with.
    pub(crate) help: &'static str,
}

fn flag_of<'a>(alloc: Global, name: &'static str) -> Arg<'a> {
    Arg::new(alloc, name).long(name).action(ArgAction::SetTrue)
}

fn value_of<'a>(alloc: Global, name: &'static str, value: &'static str) -> Arg<'a> {
    Arg::new(alloc, name)
        .long(name)
        .value_name(value)
        .action(ArgAction::Set)
}

// The word for the parser, without its help.
fn form_of<'a>(alloc: Global, name: &'static str, form: &Form) -> Result<Arg<'a>, AllocError> {
    Ok(match form {
        Form::Optional => Arg::new(alloc, name),
        Form::Required => Arg::new(alloc, name).required(true),
        Form::RequiredUnless(other) => Arg::new(alloc, name).required_unless_present(other)?,
        Form::Number => Arg::new(alloc, name)
            .required(true)
            .allow_negative_numbers(true),
        Form::NumberUnless(other) => Arg::new(alloc, name)
            .required_unless_present(other)?
            .allow_negative_numbers(true),
        Form::Several => Arg::new(alloc, name).num_args(0..),
        Form::Numbers => Arg::new(alloc, name)
            .num_args(0..)
            .allow_negative_numbers(true),
        Form::Unexpected => Arg::new(alloc, name).num_args(0..).hide(true),
        Form::Flag => flag_of(alloc, name),
        Form::FlagWith(other) => flag_of(alloc, name).requires_arg(other)?,
        Form::Global => flag_of(alloc, name).global(true),
        Form::Value(value) => value_of(alloc, name, value),
        Form::RequiredValue(value) => value_of(alloc, name, value).required(true),
        Form::Default(value, default) => value_of(alloc, name, value).default_value(default),
        Form::Values(value, letter) => value_of(alloc, name, value)
            .short(*letter)
            .action(ArgAction::Append),
    })
}

/// This parser, which takes these words too.
pub(crate) fn with_words<'a>(
    alloc: Global,
    parser: Command<'a>,
    words: &'static [Word],
) -> Result<Command<'a>, AllocError> {
    let mut parser = parser;
    for Word(name, form, help) in words {
        let arg = match form_of(alloc, name, form) {
            Ok(arg) => arg.help(help),
            Err(error) => {
                drop(parser);
                return Err(error);
            }
        };
        parser = parser.arg(arg)?;
    }
    Ok(parser)
}

// The usage of a command whose words come in two ways. For the others it is made from the row.
fn usage_of(reader: Reader) -> Option<&'static str> {
    match reader {
        Reader::Call => Some(CALL_USAGE),
        Reader::Audit => Some(AUDIT_USAGE),
        _ => None,
    }
}

/// The parser of one command.
pub(crate) fn command_of<'a>(alloc: Global, row: &'static Row) -> Result<Command<'a>, AllocError> {
    let mut parser = Command::new(alloc, row.name)
        .about(row.about)
        .after_help(row.help);
    if let Some(usage) = usage_of(row.reader) {
        parser = parser.override_usage(usage);
    }
    with_words(alloc, parser, row.words)
}
