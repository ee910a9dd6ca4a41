// From a parsed unit to a typed one.

ghost use Rattle.std.specs.Prelude.{◌≡◌, ◌⊎◌, ◌++◌, [], None, IfOk, IfErr, OnOk};
ghost use Rattle.cc_ast.specs.Source.{source};
ghost use Rattle.cc_tokens.specs.Place.{place_of};
ghost use Rattle.cc_ast.specs.Erase.{external_tree, external_trees};
ghost use Rattle.cc_typing.specs.internal.Counts.{all_defined};
ghost use Rattle.cc_types.specs.internal.Externals.{defined_in};
ghost use Rattle.cc_types.specs.Fault.{fault_of};
ghost use Rattle.cc_typing.specs.internal.Findings.{noted};
ghost use Rattle.cc_types.specs.Rules.{is_main, defines_main, undefined_calls};
ghost use Rattle.cc_types.specs.Scope.{first_file_scope};
ghost use Rattle.cc_types.specs.Typed.{IsTyped, IsWithinLimits, IsTypeRefusal, TypeAnswersAreOne, UnitsHaveTypeAnswers, all_errors};

use super::externals::all_externals;
use super::findings::Findings;
use super::functions::Functions;
use super::limits::with_excesses;
use cc_ast::{External, Place, Scalar, Unit, place_at};
use cc_scope::{READ_WORD, Scope, WRITE_WORD, same_result};
use cc_types::{Rule, RuleError, TypeFault, TypedUnit};
use std::alloc::{AllocError, Global};

const MAIN: &[u8] = b"main";

/// Checks the rules of scope and type (C99 6.2.1, 6.5 to 6.9) and the limits.
///
/// Refuses with one of the faults 11 to 18 and 21 (`TypeFault` names them): the one at the earliest token, and if there are
/// several at that token, the one with the least number. If there is none of these, a unit without `main` is refused with 19
/// (NoMain), at the end of the text. A unit with `main` is then refused with 20 (Undefined) at the first call of a function
/// that is not defined, if there is one. Refuses with 40 (OutOfMemory) if memory runs out. An `Err` drops the unit.
pub fn check(alloc: Global, unit: Unit) -> Result<TypedUnit, TypeFault>
    ensures answer { IfOk result (λ t. t ≡ unit) }
    ensures typed { OnOk result (IsTyped (source unit).externals) }
    ensures limits { OnOk result (IsWithinLimits (source unit).externals) }
    ensures refused { IfErr result (λ f. (f ≡ TypeFault.OutOfMemory) ⊎ IsTypeRefusal (source unit) f) }
{
    let found = first_errors(alloc, unit.externals())?;
    if let Some(error) = found.first {
        let place = place_in(unit.text(), error.at);
        return Err(fault(error.rule, place));
    }
    if !defines_main(unit.externals()) {
        let text = unit.text();
        return Err(TypeFault::NoMain(place_at(text, text.len())));
    }
    if let Some(error) = found.undefined {
        let place = place_in(unit.text(), error.at);
        return Err(fault(error.rule, place));
    }
    Ok(TypedUnit::new(unit))
}

// The first error (exceeded limits count as errors), and the first call of a function that is not defined.
#[derive(Clone, Copy)]
struct FirstErrors {
    first: Option<RuleError>,
    undefined: Option<RuleError>,
}

fn first_errors(alloc: Global, externals: &[External]) -> Result<FirstErrors, AllocError>
    ensures first { IfOk result (λ r. r.first ≡ noted None (all_errors (external_trees externals.now))) }
    ensures undefined { IfOk result (λ r. r.undefined ≡ noted None (undefined_calls (external_trees externals.now))) }
{
    let mut findings = Findings::new(definitions(alloc, externals)?);
    let mut scope = match Scope::new(alloc) {
        Ok(scope) => scope,
        Err(error) => {
            drop(findings);
            return Err(error);
        }
    };
    let walked = all_externals(&mut scope, &mut findings, externals);
    drop(scope);
    let found = FirstErrors {
        first: with_excesses(findings.first(), externals),
        undefined: findings.undefined(),
    };
    drop(findings);
    walked?;
    Ok(found)
}

// Adds the builtins, which count as defined before the text begins.
fn add_builtins(functions: &mut Functions<'_>) -> Result<(), AllocError>
    requires { functions.old ≡ record { defined = []; before = [] } }
    ensures { OnOk result (functions.new ≡ record { defined = first_file_scope.defined; before = first_file_scope.defined }) }
{
    functions.define(READ_WORD)?;
    functions.define(WRITE_WORD)?;
    functions.mark_before(READ_WORD)?;
    functions.mark_before(WRITE_WORD)
}

fn define<'a>(functions: &mut Functions<'a>, external: &'a External) -> Result<(), AllocError>
    ensures { OnOk result (functions.new ≡ record functions.old { defined = defined_in (external_tree external.now) ++ functions.old.defined }) }
{
    match external {
        External::Definition(signature, _) => functions.define(signature.name.bytes.as_slice()),
        External::Declaration(_) | External::Objects(_, _) => Ok(()),
    }
}

fn define_all<'a>(
    functions: &mut Functions<'a>,
    externals: &'a [External],
) -> Result<(), AllocError>
    ensures { OnOk result (functions.new ≡ record functions.old { defined = all_defined (external_trees externals.now) functions.old.defined }) }
{
    for external in externals {
        define(functions, external)?;
    }
    Ok(())
}

fn add_functions<'a>(
    functions: &mut Functions<'a>,
    externals: &'a [External],
) -> Result<(), AllocError>
    requires { functions.old ≡ record { defined = []; before = [] } }
    ensures { OnOk result (functions.new ≡ record { defined = all_defined (external_trees externals.now) first_file_scope.defined; before = first_file_scope.defined }) }
{
    add_builtins(functions)?;
    define_all(functions, externals)
}

// The functions that a unit defines. At the beginning of the unit, only the builtins count as already defined.
fn definitions<'a>(alloc: Global, externals: &'a [External]) -> Result<Functions<'a>, AllocError>
    ensures { IfOk result (λ r. r ≡ record { defined = all_defined (external_trees externals.now) first_file_scope.defined; before = first_file_scope.defined }) }
{
    let mut functions = Functions::new(alloc);
    match add_functions(&mut functions, externals) {
        Ok(()) => Ok(functions),
        Err(error) => {
            drop(functions);
            Err(error)
        }
    }
}

fn is_main(external: &External) -> bool
    ensures { result ≡ is_main (external_tree external.now) }
{
    match external {
        External::Definition(signature, _) => {
            MAIN == signature.name.bytes.as_slice()
                && same_result(signature.result, Some(Scalar::Int))
                && signature.parameters.as_slice().is_empty()
        }
        External::Declaration(_) | External::Objects(_, _) => false,
    }
}

fn defines_main(externals: &[External]) -> bool
    ensures { result ≡ defines_main (external_trees externals.now) }
{
    for external in externals {
        if is_main(external) {
            return true;
        }
    }
    false
}

fn fault(rule: Rule, place: Place) -> TypeFault
    ensures { result ≡ fault_of rule place }
{
    match rule {
        Rule::Unknown => TypeFault::Unknown(place),
        Rule::Redeclared => TypeFault::Redeclared(place),
        Rule::WrongKind => TypeFault::WrongKind(place),
        Rule::WrongCount => TypeFault::WrongCount(place),
        Rule::VoidValue => TypeFault::VoidValue(place),
        Rule::BadReturn => TypeFault::BadReturn(place),
        Rule::BadAssign => TypeFault::BadAssign(place),
        Rule::BadBreak => TypeFault::BadBreak(place),
        Rule::Undefined => TypeFault::Undefined(place),
        Rule::TooMany => TypeFault::TooMany(place),
    }
}

// The place of an offset. An offset past the end has the place of the end.
fn place_in(text: &[u8], at: usize) -> Place
    ensures { result ≡ place_of text.now at }
{
    place_at(text, at.min(text.len()))
}

/// Shows that, if memory suffices, the unit alone determines what `check` returns: each unit is typed and within the limits,
/// or has one fault with one number and one place, but never both.
pub fn check_is_determined()
    ensures one { TypeAnswersAreOne }
    ensures some { UnitsHaveTypeAnswers }
{}
