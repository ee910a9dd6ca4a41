// Whether a program can go wrong at all.

ghost use Rattle.std.specs.Prelude.{◌≡◌, [], true, IfOk};
ghost use Rattle.std.specs.Arc.{arc_value};
ghost use Rattle.cc_ast.specs.Source.{source};
ghost use Rattle.cc_safe.specs.Safe.{AreGuarded, IsSafe};

use crate::acyclic::is_acyclic;
use crate::guards::guarded;
use cc_depth::acyclic_programs_are_never_deep;
use cc_guard::only_depth_is_left;
use cc_types::TypedUnit;
use std::alloc::{AllocError, Global};
use std::sync::Arc;

/// What was found about a program.
#[derive(Drop)]
pub struct Safety {
    /// The functions that need a guard, by their numbers in the order of definitions: as the guard pass sees it, one of their
    /// divisions, shifts or indices may go wrong.
    pub guarded: Vec<usize>,
    /// Whether its calls have no cycle. If they have one, too many calls may be open at once.
    pub acyclic: bool,
}

/// Finds out whether a program can go wrong. If no function needs a guard and its calls have no cycle, it goes wrong on no input and at no
/// bound on its steps (`safe`). Each function that is listed has code that goes wrong as it does and into which the guard pass puts a test;
/// each other one has such code that needs none (`guarded`). It fails only if memory runs out.
pub fn examine(alloc: Global, unit: &Arc<TypedUnit>) -> Result<Safety, AllocError>
    ensures safe { IfOk result (λ found. found.guarded.items ≡ [] → found.acyclic ≡ true → IsSafe (source (arc_value unit.now))) }
    ensures guarded { IfOk result (λ found. AreGuarded (source (arc_value unit.now)).externals found.guarded.items) }
{
    let _kept = unit.externals();
    only_depth_is_left();
    acyclic_programs_are_never_deep();
    let guarded = guarded(alloc, unit)?;
    let acyclic = is_acyclic(alloc, unit)?;
    Ok(Safety { guarded, acyclic })
}
