// The rules at file scope (C99 6.2.1, 6.6, 6.7, 6.9).

ghost use Rattle.std.specs.Prelude.{◌≡◌, ◌++◌, [], length, OnOk};
ghost use Rattle.cc_ast.specs.Erase.{name_tree, constant_tree, optional_constant, constant_trees, object_tree, object_trees, parameter_tree, parameter_trees, signature_tree, external_tree, external_trees};
ghost use Rattle.cc_scope.specs.Bindings.{file_level, file_of, file_with};
ghost use Rattle.cc_types.specs.internal.Externals.{defined_in};
ghost use Rattle.cc_typing.specs.internal.Findings.{after, noted, is_bad_length, with_before};
ghost use Rattle.cc_types.specs.Rules.{constant_errors, optional_constant_errors, constants_errors, named_array_errors, object_errors, objects_errors, parameter_errors, parameters_errors, signature_errors, external_errors, externals_errors, called_in_constant, called_in_optional_constant, called_in_constants, called_in_object, called_in_objects, called_in_external, called, undefined_among};
ghost use Rattle.cc_types.specs.Scope.{Elements, in_scope, with_declared, with_object, with_objects, parameter_declared, parameters_declared, body_scope, file_scope_behind};

use super::around::Surroundings;
use super::expressions::value;
use super::findings::Findings;
use super::statements::all_statements;
use cc_ast::{ConstantExpression, External, Identifier, Object, Parameter, Scalar, Signature};
use cc_scope::{Entity, Scope, differs};
use cc_types::{Rule, array_length, constant_word};
use std::alloc::AllocError;

// Checks a constant expression.
fn constant(scope: &Scope, findings: &mut Findings, tree: &ConstantExpression)
    ensures { findings.new ≡ after findings.old (constant_errors (in_scope scope.now) (constant_tree tree.now)) (called_in_constant (constant_tree tree.now)) }
{
    value(scope, findings, &tree.expression);
    findings.note_if(constant_word(tree).is_none(), Rule::WrongKind, tree.at);
}

fn optional_constant(scope: &Scope, findings: &mut Findings, tree: &Option<ConstantExpression>)
    ensures { findings.new ≡ after findings.old (optional_constant_errors (in_scope scope.now) (optional_constant tree.now)) (called_in_optional_constant (optional_constant tree.now)) }
{
    if let Some(tree) = tree {
        constant(scope, findings, tree);
    }
}

// Checks the values of an initialiser list.
fn constants(scope: &Scope, findings: &mut Findings, trees: &[ConstantExpression])
    ensures { findings.new ≡ after findings.old (constants_errors (in_scope scope.now) (constant_trees trees.now)) (called_in_constants (constant_trees trees.now)) }
{
    for tree in trees {
        constant(scope, findings, tree);
    }
}

// Whether an array has no elements, or fewer than its list has values.
fn is_bad_length(length: Option<usize>, given: usize) -> bool
    ensures { result ≡ is_bad_length length given }
{
    match length {
        None => false,
        Some(count) => count == 0 || count < given,
    }
}

// Checks one name in a declaration of objects, and declares it.
fn object<'a>(
    scope: &mut Scope<'a>,
    findings: &mut Findings,
    scalar: Scalar,
    tree: &'a Object,
) -> Result<(), AllocError>
    requires { scope.old.inner ≡ [] }
    ensures scope { OnOk result (scope.new ≡ file_level (with_object scalar (object_tree tree.now) (file_of scope.old)).bindings) }
    ensures found { OnOk result (findings.new ≡ after findings.old (object_errors scalar (object_tree tree.now) (file_of scope.old)) (called_in_object (object_tree tree.now))) }
{
    match tree {
        Object::Single(name, initial) => {
            let bytes = name.bytes.as_slice();
            let again = scope.declare_in_file(bytes, Entity::Variable(scalar))?;
            findings.note_if(again, Rule::Redeclared, name.at);
            optional_constant(scope, findings, initial);
        }
        Object::Array(name, length, values) => {
            array(scope, findings, scalar, name, length, values.as_slice())?;
        }
        Object::Bytes(name, length, values) => {
            array(
                scope,
                findings,
                Scalar::Int,
                name,
                length,
                values.as_slice(),
            )?;
        }
    }
    Ok(())
}

// Checks an array's name, length and initialiser list, and declares the array.
fn array<'a>(
    scope: &mut Scope<'a>,
    findings: &mut Findings,
    scalar: Scalar,
    name: &'a Identifier,
    length: &'a Option<ConstantExpression>,
    values: &'a [ConstantExpression],
) -> Result<(), AllocError>
    requires { scope.old.inner ≡ [] }
    ensures scope { OnOk result (scope.new ≡ file_level (with_declared (name_tree name.now).text (Elements scalar) (file_of scope.old)).bindings) }
    ensures found { OnOk result (findings.new ≡ after findings.old (named_array_errors scalar (name_tree name.now) (optional_constant length.now) (constant_trees values.now) (file_of scope.old)) (called_in_optional_constant (optional_constant length.now) ++ called_in_constants (constant_trees values.now))) }
{
    let bytes = name.bytes.as_slice();
    findings.note_if(scope.find(bytes).is_some(), Rule::Redeclared, name.at);
    optional_constant(scope, findings, length);
    let wrong = is_bad_length(array_length(length, values), values.len());
    findings.note_if(wrong, Rule::WrongCount, name.at);
    scope.declare_in_file(bytes, Entity::Elements(scalar))?;
    constants(scope, findings, values);
    Ok(())
}

// Checks a declaration of objects.
fn objects<'a>(
    scope: &mut Scope<'a>,
    findings: &mut Findings,
    scalar: Scalar,
    trees: &'a [Object],
) -> Result<(), AllocError>
    requires { scope.old.inner ≡ [] }
    ensures scope { OnOk result (scope.new ≡ file_level (with_objects scalar (object_trees trees.now) (file_of scope.old)).bindings) }
    ensures found { OnOk result (findings.new ≡ after findings.old (objects_errors scalar (object_trees trees.now) (file_of scope.old)) (called_in_objects (object_trees trees.now))) }
{
    for tree in trees {
        object(scope, findings, scalar, tree)?;
    }
    Ok(())
}

fn parameter<'a>(
    scope: &mut Scope<'a>,
    findings: &mut Findings,
    tree: &'a Parameter,
) -> Result<(), AllocError>
    ensures scope { OnOk result (scope.new ≡ parameter_declared tree.now.scalar (parameter_tree tree.now).name scope.old) }
    ensures found { OnOk result (findings.new ≡ after findings.old (parameter_errors (parameter_tree tree.now).name scope.old) []) }
{
    if let Some(name) = &tree.name {
        let again = scope.declare(name.bytes.as_slice(), Entity::Variable(tree.scalar))?;
        findings.note_if(again, Rule::Redeclared, name.at);
    }
    Ok(())
}

fn parameters<'a>(
    scope: &mut Scope<'a>,
    findings: &mut Findings,
    trees: &'a [Parameter],
) -> Result<(), AllocError>
    ensures scope { OnOk result (scope.new ≡ parameters_declared (parameter_trees trees.now) scope.old) }
    ensures found { OnOk result (findings.new ≡ after findings.old (parameters_errors (parameter_trees trees.now) scope.old) []) }
{
    for tree in trees {
        parameter(scope, findings, tree)?;
    }
    Ok(())
}

// Checks the head of a function. Afterwards the names of its parameters are in scope.
fn signature<'a>(
    scope: &mut Scope<'a>,
    findings: &mut Findings,
    tree: &'a Signature,
) -> Result<(), AllocError>
    requires { scope.old.inner ≡ [] }
    ensures scope { OnOk result (scope.new ≡ body_scope (signature_tree tree.now) (file_of scope.old)) }
    ensures found { OnOk result (findings.new ≡ after findings.old (signature_errors (signature_tree tree.now) (file_of scope.old)) []) }
{
    let name = tree.name.bytes.as_slice();
    findings.note_if(
        differs(scope.find(name), tree),
        Rule::Redeclared,
        tree.name.at,
    );
    scope.declare_in_file(name, Entity::Function(tree))?;
    parameters(scope, findings, tree.parameters.as_slice())
}

// Checks an external declaration. `findings` contains the functions that are defined before this declaration.
fn external<'a>(
    scope: &mut Scope<'a>,
    findings: &mut Findings<'a>,
    tree: &'a External,
) -> Result<(), AllocError>
    requires { scope.old.inner ≡ [] }
    ensures scope { OnOk result (scope.new ≡ file_level (file_scope_behind (external_tree tree.now) (file_with scope.old findings.old.functions.before)).bindings) }
    ensures found { OnOk result (findings.new ≡ after (with_before findings.old (defined_in (external_tree tree.now))) (external_errors (external_tree tree.now) (file_with scope.old findings.old.functions.before)) (called_in_external (external_tree tree.now))) }
{
    match tree {
        External::Declaration(declared) => {
            signature(scope, findings, declared)?;
            scope.close(0);
        }
        External::Definition(declared, body) => {
            let name = declared.name.bytes.as_slice();
            signature(scope, findings, declared)?;
            let again = findings.stands_before(name);
            findings.note_if(again, Rule::Redeclared, declared.name.at);
            let around = Surroundings {
                result: declared.result,
                in_loop: false,
            };
            all_statements(scope, findings, around, body.as_slice())?;
            scope.close(0);
            findings.mark_before(name)?;
        }
        External::Objects(scalar, declared) => {
            objects(scope, findings, *scalar, declared.as_slice())?;
        }
    }
    Ok(())
}

/// Checks the external declarations of a unit.
pub fn all_externals<'a>(
    scope: &mut Scope<'a>,
    findings: &mut Findings<'a>,
    trees: &'a [External],
) -> Result<(), AllocError>
    requires { scope.old.inner ≡ [] }
    ensures first { OnOk result (findings.new.first ≡ noted findings.old.first (externals_errors (external_trees trees.now) (file_with scope.old findings.old.functions.before))) }
    ensures undefined { OnOk result (findings.new.undefined ≡ noted findings.old.undefined (undefined_among findings.old.functions.defined (called (external_trees trees.now)))) }
{
    for tree in trees {
        external(scope, findings, tree)?;
    }
    Ok(())
}
