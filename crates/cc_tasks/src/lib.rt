//! The work of the program: a task, done over any reader and writer.
//!
//! `source` reads the text, `answer` computes the answer to a task for a text, `counting` adds a count to it, `observing` says
//! what was read, `within` stops before there are too many words, `live` runs while the input comes, `work` does a task, `stages` shows a text's functions at each stage of the compiler, `texts` does both for
//! several texts that are joined to one, `part` takes a part of a unit out of a library, `fault` has every refusal with its line,
//! `explain` and `unknown` have what else a person reads. `cc_task` says which tasks there are, the crates of the language say what a text means, and `cc_answers`
//! says how answers and faults are written. The main exports are `answer_for`, `carry_out`, `perform`, `perform_and_explain`,
//! `perform_into`, the same for stages, `part_in`, `take_out`, their types, and the definitions that the contracts name (`specs/`).
#![tactic(auto)]

mod answer;
mod counting;
mod explain;
mod fault;
mod live;
mod observing;
mod part;
mod source;
mod stages;
mod texts;
mod unknown;
mod within;
mod work;

pub use answer::{Answer, answer_for, mode_of};
pub use explain::{
    Explanation, Halt, explanation_of_fault, explanation_of_program, explanation_of_wrong,
    write_explanation,
};
pub use fault::Fault;
pub use live::{perform_live, perform_live_texts};
pub use part::{PartFault, explain_absent, part_in, part_of, take_out, write_part};
pub use stages::{perform_and_explain_stages, perform_stages};
pub use texts::{
    carry_out_texts, perform_and_explain_stages_of_texts, perform_stages_of_texts, perform_texts,
    perform_texts_and_explain, perform_texts_into, read_or_refuse,
};
pub use work::{
    Done, carry_out, explanation_of_answer, perform, perform_and_explain, perform_into,
    status_of_answer, write_answer, write_stop,
};
