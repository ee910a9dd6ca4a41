// Which functions of a unit need a guard.

ghost use Rattle.std.specs.Prelude.{◌≡◌, ◌<◌, true, false, length, IfOk};
ghost use Rattle.std.specs.Arc.{arc_value};
ghost use Rattle.cc_ast.specs.Source.{source};
ghost use Rattle.cc_cminor_language.specs.Cminor.{Statement};
ghost use Rattle.cc_guard.specs.Safe.{NeedsNoGuard};
ghost use Rattle.cc_safe.specs.Safe.{AreGuarded, NeedsGuard};
ghost use Rattle.cc_types.specs.Typed.{defined_names};

use cc_cminor::to_cminor;
use cc_guard::needs_no_guard;
use cc_types::TypedUnit;
use std::alloc::{AllocError, Global};
use std::sync::Arc;

// Whether a function needs a guard.
fn needs_guard(alloc: Global, unit: &Arc<TypedUnit>, function: usize) -> Result<bool, AllocError>
    requires { function < length (defined_names (source (arc_value unit.now))) }
    ensures needs { IfOk result (λ needs. needs ≡ true → NeedsGuard (source (arc_value unit.now)).externals function) }
    ensures none { IfOk result (λ needs. needs ≡ false → (s : Statement) × NeedsNoGuard (source (arc_value unit.now)).externals function s) }
{
    let pair = match to_cminor(alloc, unit, function) {
        Ok(pair) => pair,
        Err(_) => return Err(AllocError),
    };
    let none = needs_no_guard(alloc, &pair);
    drop(pair);
    Ok(!none?)
}

/// The functions of a unit that need a guard, by their numbers, in the order of definitions. `Err` if memory runs out.
pub(crate) fn guarded(alloc: Global, unit: &Arc<TypedUnit>) -> Result<Vec<usize>, AllocError>
    ensures { IfOk result (λ found. AreGuarded (source (arc_value unit.now)).externals found.items) }
{
    let mut found = Vec::new(alloc);
    let count = unit.functions();
    for function in 0..count {
        if needs_guard(alloc, unit, function)? {
            found.push(function)?;
        }
    }
    Ok(found)
}
