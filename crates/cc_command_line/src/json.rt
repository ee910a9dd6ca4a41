// The option that prints everything as JSON, and the work that it goes with.

use crate::command_line::Work;
use crate::keeping::Keeping;
use crate::pack::PackVerb;
use crate::row::{Form, Word};
use cc_task::Task;

pub(crate) const JSON: Word = Word(
    "json",
    Form::Global,
    "Print answers and explanations as JSON, an object a line",
);

pub(crate) const JSON_RULE: &str =
    "--json goes with check, interpret, run, size, safe, image --size, call, diff, log, library, add, replace, withdraw, list, audit, compact, \
    hash, and submit except its lines `image` and `source`; --live goes without it";

// Whether the answer to a line of a script is a text as it was stored.
fn asks_text(line: &str) -> bool {
    line.starts_with("image ") || line.starts_with("source ")
}

/// Whether this work can be printed as JSON.
pub(crate) fn is_told_in_json(work: &Work) -> bool {
    match work {
        Work::One(task) => !matches!(task, Task::Asm(_) | Task::Image(_)),
        Work::Keep(asked) => match asked {
            Keeping::Call(asked) => !asked.is_live,
            Keeping::Size(_) | Keeping::Diff(_) | Keeping::Log(_) => true,
            Keeping::Restore(_) | Keeping::Copy(_) => false,
        },
        Work::Library(_) | Work::Short(_) => true,
        Work::Pack(asked) => matches!(asked.verb, PackVerb::Hash(_)),
        Work::Submit(asked) => match &asked.line {
            Some(line) => !asks_text(line.as_str()),
            None => true,
        },
        Work::Stages(_, _) | Work::Live(_) | Work::Trace(_) | Work::Cover(_) | Work::TakeOut(_) =>
            false,
        Work::Serve(_) | Work::Translate(_) => false,
    }
}
