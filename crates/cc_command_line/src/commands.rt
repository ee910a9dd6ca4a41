// The table of the commands, and the parser that is made from it.

use crate::json::JSON;
use crate::keeping::{CALL, COPY, DIFF, LOG, RESTORE};
use crate::library::LIBRARY;
use crate::pack::{HASH, PACK, UNPACK};
use crate::program::{ASM, CHECK, INTERPRET, RUN, SAFE, STAGES};
use crate::row::{Form, Row, Word, command_of, with_words};
use crate::short::{ADD, AUDIT, COMPACT, LIST, REPLACE, WITHDRAW};
use crate::spool::{SERVE, SUBMIT};
use crate::translate::TRANSLATE;
use crate::unit::{IMAGE, SIZE, SOURCE};
use crate::watch::{COVER, TRACE};
use clap::Command;
use std::alloc::{AllocError, Global};

// What a person reads below the list of commands.
const WHOLE_HELP: &str = "\
Examples:
  cclib check < examples/quotient.c
  cclib check main.c table.c
  cclib interpret 1000 < examples/quotient.c
  cclib run 10000 2 104 105 < examples/checksum.c
  cclib run --checked --count 10000 2 104 105 < examples/checksum.c
  cclib trace 1000 --last 20 < examples/quotient.c
  cclib cover 1000 < examples/quotient.c
  cclib asm < examples/quotient.c
  cclib stages main < examples/quotient.c
  cclib size < examples/quotient.c
  cclib safe < examples/quotient.c
  cclib translate < wide.c > program.c
  cclib image < examples/quotient.c > quotient.hex
  cclib library units.disk --format 65536 --if-new < examples/units.script
  cclib image units.disk sum > sum.hex
  cclib source units.disk sum
  cclib size units.disk sum
  cclib call units.disk sum 1000 4 5
  cclib diff units.disk backup.disk
  cclib log units.disk sum
  cclib restore units.disk sum 1
  cclib copy units.disk larger.disk --format 1048576
  cclib add units.disk quotient < examples/quotient.c
  cclib replace units.disk quotient < examples/quotient.c
  cclib withdraw units.disk quotient
  cclib list units.disk
  cclib audit units.disk sum
  cclib compact units.disk
  cclib pack units.disk sum > sum.unit
  cclib unpack units.disk sum < sum.unit
  cclib hash units.disk
  cclib serve units.disk spool
  cclib submit spool add quotient < examples/quotient.c

The C program is read from standard input, or from the files that --file names, which are
put together in their order. The WORDs are the program's own input;
a negative one is written modulo 4294967296: 4294967293 for -3.

`library` reads a script of commands in place of a program:

  add a 16           compiles the 16 bytes that follow and keeps them as `a`: ok 1
  int main(void){}
  run a 1000         exited 0
  list               unit a, then ok 3

`add`, `replace`, `withdraw`, `list`, `audit` and `compact` do one such line. `serve` does such scripts for many clients at once;
`submit` is such a client.

Exit status: 0 for an answer, 1 for a fault, 2 for a command line that is refused.";

pub(crate) const QUIET: Word = Word(
    "quiet",
    Form::Global,
    "Write no explanations to standard error",
);

const WHOLE_ABOUT: &str =
    "Reads a C program from standard input or files: checks, interprets, compiles and runs it, or keeps compiled programs in a file";

// The options of all commands.
static WHOLE_WORDS: &[Word] = &[QUIET, JSON];

const COMMANDS: usize = 29;

// The commands, in the order in which help lists them. As an array they would be too large a term for the prover.
fn row_at(at: usize) -> Option<&'static Row> {
    match at {
        0 => Some(&CHECK),
        1 => Some(&INTERPRET),
        2 => Some(&RUN),
        3 => Some(&TRACE),
        4 => Some(&COVER),
        5 => Some(&ASM),
        6 => Some(&STAGES),
        7 => Some(&SIZE),
        8 => Some(&SAFE),
        9 => Some(&TRANSLATE),
        10 => Some(&IMAGE),
        11 => Some(&SOURCE),
        12 => Some(&CALL),
        13 => Some(&DIFF),
        14 => Some(&LOG),
        15 => Some(&RESTORE),
        16 => Some(&COPY),
        17 => Some(&LIBRARY),
        18 => Some(&ADD),
        19 => Some(&REPLACE),
        20 => Some(&WITHDRAW),
        21 => Some(&LIST),
        22 => Some(&AUDIT),
        23 => Some(&COMPACT),
        24 => Some(&PACK),
        25 => Some(&UNPACK),
        26 => Some(&HASH),
        27 => Some(&SERVE),
        28 => Some(&SUBMIT),
        _ => None,
    }
}

/// The parser of all commands.
pub(crate) fn command_of_all<'a>(alloc: Global) -> Result<Command<'a>, AllocError> {
    let parser = Command::new(alloc, "cclib")
        .about(WHOLE_ABOUT)
        .after_help(WHOLE_HELP)
        .version("0.1.0")
        .subcommand_required(true);
    let mut whole = with_words(alloc, parser, WHOLE_WORDS)?;
    for at in 0..COMMANDS {
        let Some(row) = row_at(at) else {
            continue;
        };
        match command_of(alloc, row) {
            Ok(command) => whole = whole.subcommand(command)?,
            Err(error) => {
                drop(whole);
                return Err(error);
            }
        }
    }
    Ok(whole)
}

/// The row of the command with this name.
pub(crate) fn row_of(name: &str) -> Option<&'static Row> {
    for at in 0..COMMANDS {
        match row_at(at) {
            Some(row) if row.name == name => return Some(row),
            _ => {}
        }
    }
    None
}
