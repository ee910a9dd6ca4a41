// Branches: one instruction if the place is near, else the opposite branch over a jump. A branch on a register and a word has an
// instruction in front of it, unless a comparison with 0 has the same result.

ghost use Rattle.std.specs.Prelude.{◌≡◌, ◌<◌, ◌≤◌, ◌+◌, ◌++◌, true, length, get_or, OnOk};
ghost use Rattle.cc_rv32.specs.Fields.{IsBranchOffset};
ghost use Rattle.cc_emit.specs.Branches.{against_zero};
ghost use Rattle.cc_emit.specs.Emission.{branch_items, word_branch_items, distance};
ghost use Rattle.cc_emit.specs.internal.Behind.{reaches, near_behind, place_from};
ghost use Rattle.cc_emit.specs.internal.Room.{HasRoom};

use crate::condition::Condition;
use crate::instructions::{SCRATCH, ZERO, branch, put, put_item};
use crate::item::PieceItem;
use crate::recipe::WordRecipe;
use crate::tables::Places;
use std::alloc::AllocError;

// The distance from one place to another, in bytes.
fn distance(from: usize, to: usize) -> u32
    requires { reaches from to ≡ true }
    ensures value { result ≡ distance from to }
    ensures fits { IsBranchOffset result }
{
    if from <= to {
        4 * (to - from) as u32
    } else {
        0u32.wrapping_sub(4 * (from - to) as u32)
    }
}

// Emits a branch to item `to`.
fn put_branch(
    items: &mut Vec<PieceItem>,
    near: bool,
    condition: Condition,
    to: usize,
) -> Result<(), AllocError>
    requires reach { near ≡ true → reaches (length items.old.items) to ≡ true }
    ensures { OnOk result (items.new.items ≡ items.old.items ++ branch_items near condition (length items.old.items) to) }
{
    if near {
        let offset = distance(items.len(), to);
        put(items, branch(condition, offset))
    } else {
        put(items, branch(condition.opposite(), 8))?;
        put_item(items, PieceItem::Go(to))
    }
}

// Emits a branch to item `to` on a register and a word, by the recipe for their comparison.
fn put_word_branch(
    items: &mut Vec<PieceItem>,
    near: bool,
    recipe: WordRecipe,
    nonzero: bool,
    from: u8,
    to: usize,
) -> Result<(), AllocError>
    requires room { HasRoom recipe }
    requires from { from < 32 }
    requires reach { near ≡ true → reaches (length items.old.items) to ≡ true }
    requires next { near ≡ true → reaches (length items.old.items + 1) to ≡ true }
    ensures { OnOk result (items.new.items ≡ items.old.items ++ word_branch_items (against_zero recipe from) recipe near nonzero from (length items.old.items) to) }
{
    match Condition::against_zero(recipe, from) {
        Some(condition) => put_branch(items, near, condition.turned(nonzero), to),
        None => {
            put(items, recipe.first(SCRATCH, from))?;
            let condition = Condition::new(recipe.asked(), SCRATCH, ZERO);
            put_branch(items, near, condition.turned(nonzero), to)
        }
    }
}

/// Emits a branch to a label. `here` is the number of items from the step to the end, with each branch in its long form.
pub(crate) fn put_branch_to(
    items: &mut Vec<PieceItem>,
    places: &Places,
    here: usize,
    condition: Condition,
    label: u32,
) -> Result<(), AllocError>
    requires known { label < length places.now.second.items }
    requires within { get_or places.now.second.items label 0 ≤ places.now.end }
    requires reach { near_behind places.now.first.items here label ≡ true → reaches (length items.old.items) (place_from places.now.second.items places.now.end label) ≡ true }
    ensures { OnOk result (items.new.items ≡ items.old.items ++ branch_items (near_behind places.now.first.items here label) condition (length items.old.items) (place_from places.now.second.items places.now.end label)) }
{
    let (near, place) = (places.is_near(here, label), places.place(label));
    put_branch(items, near, condition, place)
}

/// Emits a branch on a register and a word to a label. `here` is the number of items from the step to the end, with each branch in its
/// long form.
pub(crate) fn put_word_branch_to(
    items: &mut Vec<PieceItem>,
    places: &Places,
    here: usize,
    recipe: WordRecipe,
    nonzero: bool,
    from: u8,
    label: u32,
) -> Result<(), AllocError>
    requires room { HasRoom recipe }
    requires from { from < 32 }
    requires known { label < length places.now.second.items }
    requires within { get_or places.now.second.items label 0 ≤ places.now.end }
    requires reach { near_behind places.now.first.items here label ≡ true → reaches (length items.old.items) (place_from places.now.second.items places.now.end label) ≡ true }
    requires next { near_behind places.now.first.items here label ≡ true → reaches (length items.old.items + 1) (place_from places.now.second.items places.now.end label) ≡ true }
    ensures { OnOk result (items.new.items ≡ items.old.items ++ word_branch_items (against_zero recipe from) recipe (near_behind places.now.first.items here label) nonzero from (length items.old.items) (place_from places.now.second.items places.now.end label)) }
{
    let (near, place) = (places.is_near(here, label), places.place(label));
    put_word_branch(items, near, recipe, nonzero, from, place)
}
