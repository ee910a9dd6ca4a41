// One walk over the statements of a function, in which the table grows.

use crate::drafts::{
    Draft, arrive_at_end, arrive_at_loop, call, forget_end, give_back, never_returns, noted, write,
};
use cc_cminor_language::{Expression, Statement};
use cc_range::Range;
use cc_range_check::{
    Facts, ObjectSize, after_call, after_store, joined, learn, range_of, set_result, set_variable,
};
use std::alloc::{AllocError, Global};

/// How many loops and blocks a statement has.
#[cycle(places)]
pub(crate) fn places(s: &Statement) -> usize {
    match s {
        Statement::Skip
        | Statement::Set(_, _)
        | Statement::Store(_, _, _, _)
        | Statement::Call(_, _, _)
        | Statement::Read(_)
        | Statement::Write(_)
        | Statement::Exit(_)
        | Statement::Return(_) => 0,
        Statement::Sequence(all) => all_places(all.as_slice()),
        Statement::If(_, nonzero, otherwise) => places(nonzero).saturating_add(places(otherwise)),
        Statement::Loop(body) | Statement::Block(body) => places(body).saturating_add(1),
    }
}

#[cycle(places)]
fn all_places(all: &[Statement]) -> usize {
    let mut count: usize = 0;
    for s in all {
        count = count.saturating_add(places(s));
    }
    count
}

/// Where a walk is: the function, how many loops and blocks it has passed, and the places of the blocks that it is in.
#[derive(Drop)]
pub(crate) struct Walk {
    pub(crate) function: usize,
    pub(crate) place: usize,
    pub(crate) exits: Vec<usize>,
}

// An exit that leaves `count` blocks and one more.
fn exit(
    alloc: Global,
    draft: &mut Draft,
    walk: &Walk,
    count: usize,
    facts: &Facts,
) -> Result<(), AllocError> {
    let Some(depth) = walk.exits.len().checked_sub(1) else {
        return Ok(());
    };
    let Some(index) = depth.checked_sub(count) else {
        return Ok(());
    };
    let Some(place) = walk.exits.get(index) else {
        return Ok(());
    };
    arrive_at_end(alloc, draft, walk.function, *place, facts)
}

// A call. Nothing is reached after a function that has not returned yet.
fn after(
    alloc: Global,
    numbers: &[i32],
    draft: &mut Draft,
    walk: &Walk,
    facts: Facts,
    to: Option<usize>,
    function: usize,
    es: &[Expression],
) -> Result<Option<Facts>, AllocError> {
    call(numbers, draft, walk.function, function, &facts, es);
    if never_returns(draft, function) {
        return Ok(None);
    }
    Ok(Some(after_call(alloc, &draft.table, facts, to, function)?))
}

/// Walks over a statement, before which these facts are known, and returns what is known after it.
#[cycle(statements)]
pub(crate) fn statement(
    alloc: Global,
    sizes: &[ObjectSize],
    numbers: &[i32],
    draft: &mut Draft,
    walk: &mut Walk,
    mut facts: Facts,
    s: &Statement,
) -> Result<Option<Facts>, AllocError> {
    match s {
        Statement::Skip | Statement::Write(_) => Ok(Some(facts)),
        Statement::Set(variable, e) => {
            let range = range_of(&facts, e);
            set_variable(&mut facts, *variable, range);
            Ok(Some(facts))
        }
        Statement::Store(width, object, _, e) => {
            let range = range_of(&facts, e);
            after_store(sizes, &mut facts, *width, *object, range);
            write(draft, walk.function, *object);
            Ok(Some(facts))
        }
        Statement::Call(to, function, es) => after(
            alloc,
            numbers,
            draft,
            walk,
            facts,
            *to,
            *function,
            es.as_slice(),
        ),
        Statement::Read(to) => {
            set_result(&mut facts, *to, Range::all());
            Ok(Some(facts))
        }
        Statement::Sequence(all) => {
            statements(alloc, sizes, numbers, draft, walk, facts, all.as_slice())
        }
        Statement::If(e, nonzero, otherwise) => {
            let mut other = facts.copy(alloc)?;
            learn(sizes, true, &mut facts, e);
            let one = statement(alloc, sizes, numbers, draft, walk, facts, nonzero)?;
            learn(sizes, false, &mut other, e);
            let other = statement(alloc, sizes, numbers, draft, walk, other, otherwise)?;
            joined(alloc, one, other)
        }
        Statement::Loop(body) => {
            let head = walk.place;
            walk.place = head.saturating_add(1);
            arrive_at_loop(alloc, numbers, draft, walk.function, head, &facts)?;
            drop(facts);
            let known = noted(alloc, draft, walk.function, head)?;
            let Some(known) = known else {
                walk.place = walk.place.saturating_add(places(body));
                return Ok(None);
            };
            let turned = statement(alloc, sizes, numbers, draft, walk, known, body)?;
            if let Some(turned) = &turned {
                arrive_at_loop(alloc, numbers, draft, walk.function, head, turned)?;
            }
            Ok(None)
        }
        Statement::Block(body) => {
            let end = walk.place;
            let depth = walk.exits.len();
            walk.exits.push(end)?;
            walk.place = end.saturating_add(1);
            forget_end(draft, walk.function, end);
            let left = statement(alloc, sizes, numbers, draft, walk, facts, body)?;
            walk.exits.truncate(depth);
            if let Some(left) = &left {
                arrive_at_end(alloc, draft, walk.function, end, left)?;
            }
            noted(alloc, draft, walk.function, end)
        }
        Statement::Exit(count) => {
            exit(alloc, draft, walk, *count, &facts)?;
            Ok(None)
        }
        Statement::Return(e) => {
            let range = range_of(&facts, e);
            give_back(numbers, draft, walk.function, &facts, range);
            Ok(None)
        }
    }
}

#[cycle(statements)]
fn statements(
    alloc: Global,
    sizes: &[ObjectSize],
    numbers: &[i32],
    draft: &mut Draft,
    walk: &mut Walk,
    facts: Facts,
    all: &[Statement],
) -> Result<Option<Facts>, AllocError> {
    let mut state = Some(facts);
    for s in all {
        match state {
            Some(facts) => {
                state = statement(alloc, sizes, numbers, draft, walk, facts, s)?;
            }
            None => {
                walk.place = walk.place.saturating_add(places(s));
                state = None;
            }
        }
    }
    Ok(state)
}
