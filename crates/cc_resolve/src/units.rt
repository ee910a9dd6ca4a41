// The functions and the objects of a unit: what their names refer to, and how the names come into scope.

ghost use Rattle.std.specs.Prelude.{◌≡◌, ◌<◌, ◌≤◌, [], ◌++◌, Some, length, slice_get, OnOk, IfOk};
ghost use Rattle.cc_ast.specs.Erase.{parameter_trees, signature_tree, external_tree, external_trees};
ghost use Rattle.cc_ast.specs.Source.{source};
ghost use Rattle.cc_ast.specs.Tree as tree;
ghost use Rattle.cc_scope.specs.Bindings.{file_level, file_of};
ghost use Rattle.cc_types.specs.internal.Externals.{defined_in, objects_in};
ghost use Rattle.cc_types.specs.Limits.{objects};
ghost use Rattle.cc_types.specs.Scope.{FileScope, first_file_scope, parameters_declared, with_function};
ghost use Rattle.cc_types.specs.Typed.{defined_names, definitions};
ghost use Rattle.cc_layout.specs.Environment.{parameter_names, environment_of, environments};
ghost use Rattle.cc_layout.specs.Layout.{Layout, laid_from, layout_of, all_words};
ghost use Rattle.cc_resolve.specs.internal.Laying.{offset_behind};

use super::environment::Environment;
use super::layout::Layout;
use super::objects::{add_objects, declare_objects};
use cc_ast::{External, Parameter, Signature};
use cc_scope::Entity;
use cc_types::TypedUnit;
use std::alloc::{AllocError, Global};

// Brings the parameters of a function into scope.
fn declare_parameters<'a>(
    names: &mut Environment<'a>,
    trees: &'a [Parameter],
) -> Result<(), AllocError>
    ensures { OnOk result (names.new ≡ record names.old {
      visible = parameters_declared (parameter_trees trees.now) names.old.visible;
      locals = parameter_names (parameter_trees trees.now) names.old.locals;
    }) }
{
    for tree in trees {
        names.declare_parameter(tree)?;
    }
    Ok(())
}

/// Brings the name of a function into file scope, if it is new. `AllocError` if memory runs out; nothing is then known about the
/// environment.
pub fn declare_function<'a>(
    names: &mut Environment<'a>,
    tree: &'a Signature,
) -> Result<(), AllocError>
    requires { names.old.visible.inner ≡ [] }
    ensures { OnOk result (names.new ≡ record names.old { visible = file_level (with_function (signature_tree tree.now) (file_of names.old.visible)).bindings }) }
{
    names.declare_in_file(tree.name.bytes.as_slice(), Entity::Function(tree))
}

/// Enters a function's body from file scope: the function's name is in scope, and its parameters are the first locals.
/// `AllocError` if memory runs out; nothing is then known about the environment.
pub fn enter_function<'a>(
    names: &mut Environment<'a>,
    tree: &'a Signature,
) -> Result<(), AllocError>
    requires inner { names.old.visible.inner ≡ [] }
    requires locals { names.old.locals ≡ [] }
    ensures { OnOk result (names.new ≡ environment_of names.old.layout (signature_tree tree.now) (file_of names.old.visible)) }
{
    declare_function(names, tree)?;
    declare_parameters(names, tree.parameters.as_slice())
}

/// Leaves a function's body: the function's name stays in file scope, and its parameters and locals are removed.
pub fn leave_function(names: &mut Environment<'_>)
    ensures { (layout : Layout) (s : tree.Signature) (f : FileScope) → names.old ≡ environment_of layout s f
        → names.new ≡ record { visible = file_level (with_function s f).bindings; locals = []; layout = layout } }
{
    names.close(0);
    names.forget_locals();
}

// Adds the objects and the function of an external declaration, and returns the offset after the objects. The first object
// begins at the given offset.
fn add_external<'a>(
    layout: &mut Layout<'a>,
    words: &mut Vec<u32>,
    offset: usize,
    tree: &'a External,
) -> Result<usize, AllocError>
    requires { offset ≤ length words.old.items }
    ensures layout { OnOk result (layout.new ≡ record {
      objects = layout.old.objects ++ laid_from offset (objects_in (external_tree tree.now));
      functions = layout.old.functions ++ defined_in (external_tree tree.now);
    }) }
    ensures words { OnOk result (words.new.items ≡ words.old.items ++ all_words (objects_in (external_tree tree.now))) }
    ensures behind { IfOk result (λ n. n ≡ offset_behind offset (objects_in (external_tree tree.now))) }
    ensures fits { IfOk result (λ n. n ≤ length words.new.items) }
{
    match tree {
        External::Declaration(_) => Ok(offset),
        External::Definition(signature, _) => {
            layout.add_function(signature.name.bytes.as_slice())?;
            Ok(offset)
        }
        External::Objects(_, trees) => add_objects(layout, words, offset, trees.as_slice()),
    }
}

/// Returns what the names of a unit refer to, and appends the initial words of its objects to an empty list. `AllocError` if
/// memory runs out; nothing is then known about the list.
pub fn lay_out<'a>(
    alloc: Global,
    words: &mut Vec<u32>,
    trees: &'a [External],
) -> Result<Layout<'a>, AllocError>
    requires { words.old.items ≡ [] }
    ensures answer { IfOk result (λ p. p ≡ layout_of (external_trees trees.now)) }
    ensures words { OnOk result (words.new.items ≡ all_words (objects (external_trees trees.now))) }
{
    let mut layout = Layout::new(alloc);
    let mut offset = 0;
    for tree in trees {
        offset = add_external(&mut layout, words, offset, tree)?;
    }
    Ok(layout)
}

// Enters the body of the function with this number, from file scope at the start of a unit.
fn enter_definition<'a>(
    names: &mut Environment<'a>,
    trees: &'a [External],
    function: usize,
) -> Result<(), AllocError>
    requires start { names.old ≡ record { visible = file_level first_file_scope.bindings; locals = []; layout = layout_of (external_trees trees.now) } }
    requires number { function < length (definitions (external_trees trees.now)) }
    ensures { OnOk result (slice_get (environments (external_trees trees.now)) function ≡ Some names.new) }
{
    let mut left = function;
    for tree in trees {
        match tree {
            External::Declaration(signature) => declare_function(names, signature)?,
            External::Definition(signature, _) => {
                if left == 0 {
                    return enter_function(names, signature);
                }
                left -= 1;
                declare_function(names, signature)?;
            }
            External::Objects(scalar, trees) => {
                declare_objects(names, *scalar, trees.as_slice())?;
            }
        }
    }
    unreachable!()
}

/// Returns the environment at the beginning of the body of the function with this number. Functions are numbered from 0 in the
/// order of their definitions. `AllocError` if memory runs out.
pub fn function_environment(
    alloc: Global,
    unit: &TypedUnit,
    function: usize,
) -> Result<Environment<'_>, AllocError>
    requires { function < length (defined_names (source unit.now)) }
    ensures { IfOk result (λ v. slice_get (environments (source unit.now).externals) function ≡ Some v) }
{
    let trees = unit.externals();
    let mut words = Vec::new(alloc);
    let layout = lay_out(alloc, &mut words, trees)?;
    drop(words);
    let mut names = Environment::new(alloc, layout)?;
    match enter_definition(&mut names, trees, function) {
        Ok(()) => Ok(names),
        Err(error) => {
            names.release();
            Err(error)
        }
    }
}
