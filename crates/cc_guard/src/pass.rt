// The pass: it makes Cminor in which a test comes before each operation that can lack a value.

ghost use Rattle.std.specs.Prelude.{◌≡◌, ◌<◌, ◌≤◌, true, false, not, IfOk, OnOk, IfErr};
ghost use Rattle.cc_c_semantics.specs.Numbered.{objects_in};
ghost use Rattle.cc_c_semantics.specs.declared.mode.Mode.TheVariants.{Checked};
ghost use Rattle.cc_cminor_language.specs.Code.{statement_of};
ghost use Rattle.cc_cminor_language.specs.Exits.{ExitsFit};
ghost use Rattle.cc_cminor_language.specs.Numbers.{most_variables};
ghost use Rattle.cc_cminor_language.specs.Pair.{tree_of, code_of, FailsAlike, GoesWrong};
ghost use Rattle.cc_cminor_language.specs.Variables.{above_statement};
ghost use Rattle.cc_cminor_language.specs.declared.fault.CodeFault.TheVariants.{FunctionTooLarge};
ghost use Rattle.cc_guard.specs.Guard.{guarded_code, has_guards, guarded_function, variables_in};
ghost use Rattle.cc_guard.specs.Held.{IsHeld};
ghost use Rattle.cc_guard.specs.Safe.{NeedsNoGuard};
ghost use Rattle.cc_guard.specs.internal.Written.{Sees};

use crate::constants::constants_fit;
use crate::guards::{Seen, with_loop};
use crate::held::{MOST_VARIABLES, held};
use crate::sizes::object_sizes;
use crate::statements::{Done, statement};
use cc_c_semantics::{Mode, calls_keep_objects};
use cc_cminor_language::{CminorPair, CodeFault as GuardFault, Statement, variables_above};
use cc_types::TypedUnit;
use std::alloc::{AllocError, Global};

// The code of a function's own body with its guards. Updates `seen`.
fn guarded_body(
    alloc: Global,
    pair: &CminorPair,
    seen: &mut Seen,
) -> Result<Box<Statement>, AllocError>
    ensures code { IfOk result (λ code. statement_of code.value ≡ guarded_code (objects_in (tree_of pair.now)) (above_statement 0 (code_of pair.now)) 0 (code_of pair.now)) }
    ensures seen { OnOk result (Sees (has_guards (objects_in (tree_of pair.now)) (above_statement 0 (code_of pair.now)) (code_of pair.now)) (variables_in (objects_in (tree_of pair.now)) (above_statement 0 (code_of pair.now)) (code_of pair.now)) seen.old seen.new) }
{
    let unit: &TypedUnit = pair.unit();
    let sizes = object_sizes(alloc, unit.externals())?;
    let code = pair.code();
    let first = variables_above(0, code) as usize;
    let made = statement(alloc, sizes.as_slice(), first, 0, seen, &[], code)?;
    let Done { code, known } = made;
    drop(known);
    Ok(code)
}

// What was seen before the start: no guard, and no variable that a guard sets.
const NOTHING: Seen = Seen {
    guards: false,
    variables: 0,
};

// The code of a function with its guards, in which conditions may read their constants from variables.
fn guarded(alloc: Global, pair: &CminorPair) -> Result<Box<Statement>, GuardFault>
    ensures code { IfOk result (λ code. IsHeld (guarded_function (objects_in (tree_of pair.now)) (above_statement 0 (code_of pair.now)) (code_of pair.now)) (statement_of code.value)) }
    ensures unguarded { IfOk result (λ code. has_guards (objects_in (tree_of pair.now)) (above_statement 0 (code_of pair.now)) (code_of pair.now) ≡ false → statement_of code.value ≡ code_of pair.now) }
    ensures few { IfOk result (λ _. variables_in (objects_in (tree_of pair.now)) (above_statement 0 (code_of pair.now)) (code_of pair.now) ≤ most_variables) }
    ensures large { IfErr result (λ fault. fault ≡ FunctionTooLarge → most_variables < variables_in (objects_in (tree_of pair.now)) (above_statement 0 (code_of pair.now)) (code_of pair.now)) }
{
    let mut seen = NOTHING;
    let made = guarded_body(alloc, pair, &mut seen)?;
    if seen.variables > MOST_VARIABLES {
        drop(made);
        return Err(GuardFault::FunctionTooLarge);
    }
    if seen.guards {
        let _kept = pair.code();
        let code = with_loop(alloc, made)?;
        Ok(held(alloc, code)?)
    } else {
        Ok(made)
    }
}

/// Whether a function needs no guard: the pass puts none before any of its operations. If so, its code, unchanged, keeps up with
/// the checked function (`needs`). A unit in which no function needs a guard goes wrong only because calls are nested too deep:
/// `only_depth_is_left`.
///
/// Fails with `AllocError` if memory runs out.
pub fn needs_no_guard(alloc: Global, pair: &CminorPair) -> Result<bool, AllocError>
    requires exits { ExitsFit 0 (code_of pair.now) }
    requires fails_alike { FailsAlike (tree_of pair.now) pair.now.function (code_of pair.now) }
    requires goes_wrong { GoesWrong (tree_of pair.now) pair.now.function (code_of pair.now) }
    ensures answer { IfOk result (λ none. none ≡ not (has_guards (objects_in (tree_of pair.now)) (above_statement 0 (code_of pair.now)) (code_of pair.now))) }
    ensures needs { IfOk result (λ none. none ≡ true → NeedsNoGuard (tree_of pair.now) pair.now.function (code_of pair.now)) }
{
    let mut seen = NOTHING;
    let made = guarded_body(alloc, pair, &mut seen)?;
    drop(made);
    calls_keep_objects();
    constants_fit(pair.code());
    Ok(!seen.guards)
}

/// Returns the Cminor of a function with a test before each operation that can lack a value, unless the operation evidently has a
/// value. If a test fails, the run goes on for ever: it writes nothing more and never ends. So the code keeps up with the checked
/// function, as the type of the pair guarantees. Constants that conditions in loops compare with may be held in variables
/// (`code`). A function without guards keeps its code unchanged (`unguarded`).
///
/// Fails with `FunctionTooLarge` (22) if the guards would set more variables than code may have, and with `OutOfMemory` (40) if
/// memory runs out. On an error, `pair` is dropped.
pub fn guard(alloc: Global, pair: CminorPair) -> Result<CminorPair, GuardFault>
    requires exits { ExitsFit 0 (code_of pair) }
    requires fails_alike { FailsAlike (tree_of pair) pair.function (code_of pair) }
    ensures mode { IfOk result (λ made. made.mode ≡ Checked) }
    ensures unit { IfOk result (λ made. made.unit ≡ pair.unit) }
    ensures function { IfOk result (λ made. made.function ≡ pair.function) }
    ensures code { IfOk result (λ made. IsHeld (guarded_function (objects_in (tree_of pair)) (above_statement 0 (code_of pair)) (code_of pair)) (code_of made)) }
    ensures unguarded { IfOk result (λ made. has_guards (objects_in (tree_of pair)) (above_statement 0 (code_of pair)) (code_of pair) ≡ false → code_of made ≡ code_of pair) }
    ensures large { IfErr result (λ fault. fault ≡ FunctionTooLarge → most_variables < variables_in (objects_in (tree_of pair)) (above_statement 0 (code_of pair)) (code_of pair)) }
{
    match guarded(alloc, &pair) {
        Ok(code) => {
            calls_keep_objects();
            let function = pair.function();
            let _kept = pair.code();
            Ok(CminorPair::new(Mode::Checked, pair.into_unit(), function, code))
        }
        Err(fault) => {
            drop(pair);
            Err(fault)
        }
    }
}
