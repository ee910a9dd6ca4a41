// From a function of a typed unit to its Cminor.
//
// The code is that of the function's body, from the environment in which the body begins. It keeps up with the function, and
// calls each function with the right number of arguments; both follow from the laws of the meaning for every typed unit.

ghost use Rattle.std.specs.Prelude.{◌≡◌, ◌<◌, length, IfOk};
ghost use Rattle.std.specs.Arc.{arc_value};
ghost use Rattle.cc_ast.specs.Source.{source};
ghost use Rattle.cc_types.specs.Typed.{defined_names};
ghost use Rattle.cc_c_semantics.specs.declared.mode.Mode.TheVariants.{Plain};
ghost use Rattle.cc_cminor_language.specs.Code.{statement_of};
ghost use Rattle.cc_cminor_language.specs.Pair.{tree_of, code_of, FailsAlike, GoesWrong};
ghost use Rattle.cc_cminor_language.specs.Exits.{ExitsFit};
ghost use Rattle.cc_cminor_language.specs.Numbers.{most_lowered, StatementBelow};
ghost use Rattle.cc_cminor_language.specs.Size.{AtMostTwelveAToken, AtMostOnePartialAToken};
ghost use Rattle.cc_cminor.specs.internal.Lowered.{IsLowered};

use super::statements::body;
use cc_c_semantics::{
    Mode, calls_are_effects, calls_keep_objects, functions_are_resolved, names_have_numbers,
    units_have_meanings,
};
use cc_cminor_language::{CminorPair, Statement};
use cc_resolve::function_environment;
use cc_types::TypedUnit;
use std::alloc::{AllocError, Global};
use std::sync::Arc;

// The code of a function.
fn lowered(alloc: Global, unit: &TypedUnit, function: usize) -> Result<Box<Statement>, AllocError>
    requires { function < length (defined_names (source unit.now)) }
    ensures { IfOk result (λ s. IsLowered (source unit.now).externals function (statement_of s.value)) }
{
    let definition = unit.definition(function);
    let mut names = function_environment(alloc, unit, function)?;
    let code = body(alloc, &mut names, definition.body);
    names.release();
    code
}

// Makes a pair of a function's lowered code. What the pair's type guarantees follows from the laws of the meaning, applied to
// this unit.
fn paired(unit: Arc<TypedUnit>, function: usize, code: Box<Statement>) -> CminorPair
    requires function { function < length (defined_names (source (arc_value unit))) }
    requires code { IsLowered (source (arc_value unit)).externals function (statement_of code.value) }
    ensures answer { result ≡ record { mode = Plain; unit = arc_value unit; function = function; statement = code.value } }
    ensures small { AtMostTwelveAToken (source (arc_value unit)).externals function (statement_of code.value) }
    ensures operations { AtMostOnePartialAToken (source (arc_value unit)).externals function (statement_of code.value) }
    ensures lowered { StatementBelow most_lowered (statement_of code.value) }
    ensures exits { ExitsFit 0 (statement_of code.value) }
    ensures fails_alike { FailsAlike (source (arc_value unit)).externals function (statement_of code.value) }
    ensures goes_wrong { GoesWrong (source (arc_value unit)).externals function (statement_of code.value) }
{
    let _kept = unit.externals();
    calls_are_effects();
    calls_keep_objects();
    names_have_numbers();
    functions_are_resolved();
    units_have_meanings();
    CminorPair::new(Mode::Plain, unit, function, code)
}

/// Returns the Cminor of the function with this number. Functions are numbered from 0 in the order of their definitions. The
/// pair's type guarantees that the code's run follows the meaning of the function. If the function goes wrong for a cause other
/// than depth, the code reaches something that it cannot do, with the same output (`fails_alike`, `goes_wrong`): nothing that may
/// go wrong is left out.
///
/// Fails with `AllocError` if memory runs out.
pub fn to_cminor(
    alloc: Global,
    unit: &Arc<TypedUnit>,
    function: usize,
) -> Result<CminorPair, AllocError>
    requires { function < length (defined_names (source (arc_value unit.now))) }
    ensures mode { IfOk result (λ p. p.mode ≡ Plain) }
    ensures unit { IfOk result (λ p. p.unit ≡ arc_value unit.now) }
    ensures function { IfOk result (λ p. p.function ≡ function) }
    ensures small { IfOk result (λ p. AtMostTwelveAToken (tree_of p) p.function (code_of p)) }
    ensures operations { IfOk result (λ p. AtMostOnePartialAToken (tree_of p) p.function (code_of p)) }
    ensures lowered { IfOk result (λ p. StatementBelow most_lowered (code_of p)) }
    ensures exits { IfOk result (λ p. ExitsFit 0 (code_of p)) }
    ensures fails_alike { IfOk result (λ p. FailsAlike (tree_of p) p.function (code_of p)) }
    ensures goes_wrong { IfOk result (λ p. GoesWrong (tree_of p) p.function (code_of p)) }
{
    let code = lowered(alloc, unit, function)?;
    let Ok(unit) = Arc::try_clone(unit) else {
        drop(code);
        return Err(AllocError);
    };
    Ok(paired(unit, function, code))
}
