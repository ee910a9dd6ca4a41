// The state of a walk over a function's code, and what arrives at the places that have notes.

ghost use Rattle.std.specs.Prelude.{◌≡◌, ◌++◌, ◌∷◌, [], suc, take, get_or, Some, None, IfOk, OnOk};
ghost use Rattle.cc_range_table.specs.Table.{note_at};
ghost use Rattle.cc_range_table.specs.Inductive.{facts_within, state_within, joined_facts, joined_states};
ghost use Rattle.cc_range_check.specs.Values.{facts_of, state_of, states_of};
ghost use Rattle.cc_range_check.specs.internal.Walked.{Passes, Enters, ends_of};

use crate::ranges::{are_within, joined_all};
use crate::table::{Facts, Row};
use cc_cminor_language::above;
use std::alloc::{AllocError, Global};

/// How many loops and blocks a walk has passed, the places of the blocks that it is in, the outermost first, and whether all tests
/// so far held.
#[derive(Drop)]
pub(crate) struct Walk {
    pub(crate) place: usize,
    pub(crate) exits: Vec<usize>,
    pub(crate) is_inductive: bool,
}

/// One more test.
pub(crate) fn hold(walk: &mut Walk, test: bool)
    ensures { Passes 0 test walk.old walk.new }
{
    walk.is_inductive = walk.is_inductive && test;
}

/// Enters the body of a loop.
pub(crate) fn enter_loop(walk: &mut Walk) -> Result<(), AllocError>
    ensures { OnOk result (Enters walk.old.exits.items walk.old walk.new) }
{
    walk.place = above(walk.place, 1)?;
    Ok(())
}

/// Enters the body of a block.
pub(crate) fn enter_block(walk: &mut Walk) -> Result<(), AllocError>
    ensures { OnOk result (Enters (walk.old.exits.items ++ walk.old.place ∷ []) walk.old walk.new) }
{
    let place = walk.place;
    walk.exits.push(place)?;
    walk.place = above(place, 1)?;
    Ok(())
}

/// Leaves a block, so that this many remain.
pub(crate) fn leave_block(walk: &mut Walk, depth: usize)
    ensures place { walk.new.place ≡ walk.old.place }
    ensures exits { walk.new.exits.items ≡ take depth walk.old.exits.items }
    ensures inductive { walk.new.is_inductive ≡ walk.old.is_inductive }
{
    walk.exits.truncate(depth);
}

/// Whether the first facts say at least what the second say.
fn facts_within(first: &Facts, second: &Facts) -> bool
    ensures { result ≡ facts_within (facts_of first.now) (facts_of second.now) }
{
    are_within(first.variables.as_slice(), second.variables.as_slice())
        && are_within(first.objects.as_slice(), second.objects.as_slice())
}

/// Whether facts that arrive at a place say at least what is noted there.
pub(crate) fn arrives(row: &Row, place: usize, facts: &Facts) -> bool
    ensures { result ≡ state_within (Some (facts_of facts.now)) (note_at (states_of row.now.notes.items) place) }
{
    if place >= row.notes.len() {
        return false;
    }
    match &row.notes[place] {
        Some(noted) => facts_within(facts, noted),
        None => false,
    }
}

/// The same of what is known after a statement.
pub(crate) fn ends_within(row: &Row, place: usize, state: &Option<Facts>) -> bool
    ensures { result ≡ state_within (state_of state.now) (note_at (states_of row.now.notes.items) place) }
{
    match state {
        Some(facts) => arrives(row, place, facts),
        None => true,
    }
}

/// The same at an exit that leaves `count` blocks and one more.
pub(crate) fn exits_within(row: &Row, walk: &Walk, count: usize, facts: &Facts) -> bool
    ensures { result ≡ state_within (Some (facts_of facts.now)) (get_or (ends_of (states_of row.now.notes.items) walk.now.exits.items) count None) }
{
    let depth = walk.exits.len();
    if count >= depth {
        return false;
    }
    arrives(row, walk.exits[depth - 1 - count], facts)
}

/// What is noted at a place.
pub(crate) fn noted(alloc: Global, row: &Row, place: usize) -> Result<Option<Facts>, AllocError>
    ensures { IfOk result (λ state. state_of state ≡ note_at (states_of row.now.notes.items) place) }
{
    if place >= row.notes.len() {
        return Ok(None);
    }
    match &row.notes[place] {
        Some(facts) => Ok(Some(facts.copy(alloc)?)),
        None => Ok(None),
    }
}

fn joined_facts(alloc: Global, one: &Facts, other: &Facts) -> Result<Facts, AllocError>
    ensures { IfOk result (λ facts. facts_of facts ≡ joined_facts (facts_of one.now) (facts_of other.now)) }
{
    let variables = joined_all(alloc, one.variables.as_slice(), other.variables.as_slice())?;
    let objects = joined_all(alloc, one.objects.as_slice(), other.objects.as_slice())?;
    Ok(Facts { variables, objects })
}

/// What is known after a choice between two ways.
pub fn joined(
    alloc: Global,
    one: Option<Facts>,
    other: Option<Facts>,
) -> Result<Option<Facts>, AllocError>
    ensures { IfOk result (λ state. state_of state ≡ joined_states (state_of one) (state_of other)) }
{
    match one {
        None => Ok(other),
        Some(one) => match other {
            None => Ok(Some(one)),
            Some(other) => {
                let facts = joined_facts(alloc, &one, &other);
                drop(one);
                drop(other);
                Ok(Some(facts?))
            }
        },
    }
}
