// One walk over statements: what is known after each, whether the table is inductive there, and which operations are not covered.
//
// What is known at a loop's head and at a block's end is read from the function's row. It is compared with what arrives there: before
// the loop, after its body, at an exit, and at the end of a block. So each statement is walked once, also in nested loops. After a
// statement that never continues, nothing is reached; then loops, blocks and operations are only counted.
//
// The recursion is as deep as the tree: at most eight levels of Cminor for each of the source's 64 levels.

ghost use Rattle.std.specs.Prelude.{◌≡◌, IfOk, OnOk};
ghost use Rattle.cc_cminor_language.specs.Code.{statement_of, in_sequence};
ghost use Rattle.cc_cminor_language.specs.Statements.{statements_of};
ghost use Rattle.cc_range_table.specs.Inductive.{known_after};
ghost use Rattle.cc_range_check.specs.Sizes.{sizes_of};
ghost use Rattle.cc_range_check.specs.Values.{facts_of, state_of, states_of, row_of_value, table_of};
ghost use Rattle.cc_range_check.specs.internal.Walked.{FindsAt, PassesAt};

use crate::counting::skip;
use crate::expressions::{see_expression, see_expressions};
use crate::learning::{learn, set_variable};
use crate::places::Found;
use crate::ranges::is_written;
use crate::sizes::ObjectSize;
use crate::steps::{after_call, ends_well, is_called_well, set_result, store};
use crate::table::{Facts, Row, Table};
use crate::walk::{
    Walk, arrives, ends_within, enter_block, enter_loop, exits_within, hold, joined, leave_block,
    noted,
};
use cc_cminor_language::Statement;
use cc_range::Range;
use std::alloc::{AllocError, Global};

/// Walks over a statement, before which these facts are known. Returns what is known after it; `None` if the run never continues
/// after it.
#[cycle(statements)]
pub(crate) fn statement(
    alloc: Global,
    sizes: &[ObjectSize],
    table: &Table,
    row: &Row,
    walk: &mut Walk,
    found: &mut Found,
    mut facts: Facts,
    s: &Statement,
) -> Result<Option<Facts>, AllocError>
    ensures after { IfOk result (λ after. state_of after ≡ known_after (sizes_of sizes.now) (table_of table.now) (states_of row.now.notes.items) walk.old.place (facts_of facts) (statement_of s.now)) }
    ensures walk { OnOk result (PassesAt (sizes_of sizes.now) (table_of table.now) (row_of_value row.now) (facts_of facts) (statement_of s.now) walk.old walk.new) }
    ensures found { OnOk result (FindsAt (sizes_of sizes.now) (table_of table.now) (states_of row.now.notes.items) walk.old.place (facts_of facts) (statement_of s.now) found.old found.new) }
{
    match s {
        Statement::Skip => {
            hold(walk, true);
            Ok(Some(facts))
        }
        Statement::Set(variable, e) => {
            let range = see_expression(found, sizes, &facts, e)?;
            set_variable(&mut facts, *variable, range);
            hold(walk, true);
            Ok(Some(facts))
        }
        Statement::Store(width, object, i, e) => {
            store(found, sizes, &mut facts, *width, *object, i, e)?;
            hold(walk, is_written(row.writes.as_slice(), *object));
            Ok(Some(facts))
        }
        Statement::Call(to, function, es) => {
            see_expressions(found, sizes, &facts, es.as_slice())?;
            hold(
                walk,
                is_called_well(table, row, &facts, *function, es.as_slice()),
            );
            Ok(Some(after_call(alloc, table, facts, *to, *function)?))
        }
        Statement::Read(to) => {
            set_result(&mut facts, *to, Range::all());
            hold(walk, true);
            Ok(Some(facts))
        }
        Statement::Write(e) => {
            see_expression(found, sizes, &facts, e)?;
            hold(walk, true);
            Ok(Some(facts))
        }
        Statement::Sequence(all) => statements(
            alloc,
            sizes,
            table,
            row,
            walk,
            found,
            facts,
            all.as_slice(),
        ),
        Statement::If(e, nonzero, otherwise) => {
            see_expression(found, sizes, &facts, e)?;
            let mut other = facts.copy(alloc)?;
            learn(sizes, true, &mut facts, e);
            let one = statement(alloc, sizes, table, row, walk, found, facts, nonzero)?;
            learn(sizes, false, &mut other, e);
            let other = statement(alloc, sizes, table, row, walk, found, other, otherwise)?;
            joined(alloc, one, other)
        }
        Statement::Loop(body) => {
            let head = walk.place;
            hold(walk, arrives(row, head, &facts));
            drop(facts);
            let known = noted(alloc, row, head)?;
            enter_loop(walk)?;
            match known {
                Some(known) => {
                    let turned = statement(alloc, sizes, table, row, walk, found, known, body)?;
                    hold(walk, ends_within(row, head, &turned));
                    drop(turned);
                    Ok(None)
                }
                None => {
                    skip(walk, found, body)?;
                    Ok(None)
                }
            }
        }
        Statement::Block(body) => {
            let end = walk.place;
            let depth = walk.exits.len();
            enter_block(walk)?;
            let left = statement(alloc, sizes, table, row, walk, found, facts, body)?;
            leave_block(walk, depth);
            hold(walk, ends_within(row, end, &left));
            drop(left);
            noted(alloc, row, end)
        }
        Statement::Exit(count) => {
            let is_noted = exits_within(row, walk, *count, &facts);
            hold(walk, is_noted);
            drop(facts);
            Ok(None)
        }
        Statement::Return(e) => {
            let range = see_expression(found, sizes, &facts, e)?;
            hold(walk, ends_well(table, row, &facts, range));
            drop(facts);
            Ok(None)
        }
    }
}

#[cycle(statements)]
fn statements(
    alloc: Global,
    sizes: &[ObjectSize],
    table: &Table,
    row: &Row,
    walk: &mut Walk,
    found: &mut Found,
    facts: Facts,
    all: &[Statement],
) -> Result<Option<Facts>, AllocError>
    ensures after { IfOk result (λ after. state_of after ≡ known_after (sizes_of sizes.now) (table_of table.now) (states_of row.now.notes.items) walk.old.place (facts_of facts) (in_sequence (statements_of all.now))) }
    ensures walk { OnOk result (PassesAt (sizes_of sizes.now) (table_of table.now) (row_of_value row.now) (facts_of facts) (in_sequence (statements_of all.now)) walk.old walk.new) }
    ensures found { OnOk result (FindsAt (sizes_of sizes.now) (table_of table.now) (states_of row.now.notes.items) walk.old.place (facts_of facts) (in_sequence (statements_of all.now)) found.old found.new) }
{
    let mut state = Some(facts);
    for s in all {
        match state {
            Some(facts) => {
                state = statement(alloc, sizes, table, row, walk, found, facts, s)?;
            }
            None => {
                skip(walk, found, s)?;
                state = None;
            }
        }
    }
    Ok(state)
}
