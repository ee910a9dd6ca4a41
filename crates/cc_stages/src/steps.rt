// The steps of a function as text: its number and its slots, and a line for each step, in the form of Linear.
//
// A step that is an item of Linear has that item's text. An operator on a register and a word has the word in place of its
// second register, `x7 = add x8, 12`; an access to an element has the element's number in place of a register,
// `x7 = object0[3]` and `object0[3] = x8`, or a register and a word whose sum is the number, `x7 = object0[x8 + 3]`; a branch
// has the comparison, and leads to the label if it holds, `branch lt_s x7, x8 -> 3`, or if it does not,
// `branch not lt_s x7, 12 -> 3`. Words are unsigned.

use cc_linear_language::LinearItem;
use cc_select::{SelectedPair, Step, WordOperator};
use std::io::{self, Write};

// The name of an operator on a register and a word: the name of the same operator on two registers.
fn immediate_name(operator: WordOperator) -> &'static str {
    match operator {
        WordOperator::Add => "add",
        WordOperator::Sub => "sub",
        WordOperator::Shl => "shl",
        WordOperator::ShrS => "shr_s",
        WordOperator::ShrU => "shr_u",
        WordOperator::And => "and",
        WordOperator::Or => "or",
        WordOperator::Xor => "xor",
        WordOperator::Eq => "eq",
        WordOperator::Ne => "ne",
        WordOperator::LtS => "lt_s",
        WordOperator::LtU => "lt_u",
        WordOperator::LeS => "le_s",
        WordOperator::LeU => "le_u",
        WordOperator::GtS => "gt_s",
        WordOperator::GtU => "gt_u",
        WordOperator::GeS => "ge_s",
        WordOperator::GeU => "ge_u",
    }
}

// The word before the comparison of a branch. It says whether the branch goes to its label if the comparison holds, or if it
// does not.
fn sense(nonzero: bool) -> &'static str {
    if nonzero { "" } else { "not " }
}

fn write_step<W: Write>(step: &Step, writer: &mut W) -> io::Result<()> {
    match step {
        Step::One(item) => write!(writer, "{item}"),
        Step::Immediate {
            operator,
            to,
            from,
            word,
        } => {
            let name = immediate_name(*operator);
            write!(writer, "{to} = {name} {from}, {word}")
        }
        Step::LoadAt {
            width,
            object,
            to,
            number,
        } => {
            let mark = width.mark();
            write!(writer, "{to} = {mark}object{object}[{number}]")
        }
        Step::StoreAt {
            width,
            object,
            number,
            from,
        } => {
            let mark = width.mark();
            write!(writer, "{mark}object{object}[{number}] = {from}")
        }
        Step::LoadNear { .. } | Step::StoreNear { .. } => write_near(step, writer),
        Step::Branch { .. } | Step::BranchImmediate { .. } => write_branch(step, writer),
    }
}

// Writes a step if it is an access to an element whose number is a register's word plus a word.
fn write_near<W: Write>(step: &Step, writer: &mut W) -> io::Result<()> {
    match step {
        Step::LoadNear {
            width,
            object,
            to,
            index,
            word,
        } => {
            let mark = width.mark();
            write!(writer, "{to} = {mark}object{object}[{index} + {word}]")
        }
        Step::StoreNear {
            width,
            object,
            index,
            word,
            from,
        } => {
            let mark = width.mark();
            write!(writer, "{mark}object{object}[{index} + {word}] = {from}")
        }
        Step::One(_)
        | Step::Immediate { .. }
        | Step::LoadAt { .. }
        | Step::StoreAt { .. }
        | Step::Branch { .. }
        | Step::BranchImmediate { .. } => Ok(()),
    }
}

// Writes a step if it compares.
fn write_branch<W: Write>(step: &Step, writer: &mut W) -> io::Result<()> {
    match step {
        Step::Branch {
            operator,
            nonzero,
            left,
            right,
            to,
        } => {
            let (sense, name) = (sense(*nonzero), operator.name());
            write!(writer, "branch {sense}{name} {left}, {right} -> {to}")
        }
        Step::BranchImmediate {
            operator,
            nonzero,
            from,
            word,
            to,
        } => {
            let (sense, name) = (sense(*nonzero), immediate_name(*operator));
            write!(writer, "branch {sense}{name} {from}, {word} -> {to}")
        }
        Step::One(_)
        | Step::Immediate { .. }
        | Step::LoadAt { .. }
        | Step::StoreAt { .. }
        | Step::LoadNear { .. }
        | Step::StoreNear { .. } => Ok(()),
    }
}

// The space before a step on its line: all steps but labels are indented.
fn indent(step: &Step) -> &'static str {
    match step {
        Step::One(LinearItem::Label { .. }) => "",
        _ => "  ",
    }
}

/// Writes the steps of a function.
pub(crate) fn write_steps<W: Write>(pair: &SelectedPair, writer: &mut W) -> io::Result<()> {
    let (function, slots) = (pair.function(), pair.slots());
    writeln!(writer, "f{function} slots {slots}")?;
    for step in pair.code() {
        let indent = indent(step);
        write!(writer, "{indent}")?;
        write_step(step, writer)?;
        writeln!(writer)?;
    }
    Ok(())
}
