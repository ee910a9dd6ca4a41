// The objects at file scope: their initial words, the places of those words, and the objects' names.

ghost use Rattle.std.specs.Prelude.{◌≡◌, ◌≤◌, ◌+◌, ◌%◌, ◌^◌, [], ◌∷◌, ◌++◌, Some, length, map, replicate, OnOk, IfOk};
ghost use Rattle.cc_ast.specs.Erase.{constant_tree, constant_trees, optional_constant, object_tree, object_trees};
ghost use Rattle.cc_ast.specs.Tree as tree;
ghost use Rattle.cc_scope.specs.Bindings.{file_level, file_of};
ghost use Rattle.cc_types.specs.Limits.{object_name};
ghost use Rattle.cc_layout.specs.Layout.{laid_from, all_words};
ghost use Rattle.cc_resolve.specs.internal.Laying.{offset_behind};
ghost use Rattle.cc_types.specs.Scope.{with_object, with_objects};
ghost use Rattle.cc_types.specs.Types.{initial_word, initial_words, object_elements, object_width};

use super::environment::Environment;
use super::layout::Layout;
use cc_ast::{ConstantExpression, Object, Scalar};
use cc_layout::{Extent, object_width};
use cc_scope::Entity;
use cc_types::{array_length, constant_word, object_elements};
use std::alloc::AllocError;

// ---- words

fn word_of(tree: &ConstantExpression) -> u32
    ensures { result ≡ initial_word (Some (constant_tree tree.now)) }
{
    match constant_word(tree) {
        Some(word) => word,
        None => 0,
    }
}

fn initial_word(tree: &Option<ConstantExpression>) -> u32
    ensures { result ≡ initial_word (optional_constant tree.now) }
{
    match tree {
        Some(tree) => word_of(tree),
        None => 0,
    }
}

// Appends the words of an initialiser list.
fn add_values(words: &mut Vec<u32>, trees: &[ConstantExpression]) -> Result<(), AllocError>
    ensures { OnOk result (words.new.items ≡ words.old.items ++ map (λ (c : tree.ConstantExpr). initial_word (Some c)) (constant_trees trees.now)) }
{
    for tree in trees {
        words.push(word_of(tree))?;
    }
    Ok(())
}

// Appends the bytes of an initialiser list, one word for each byte.
fn add_bytes(words: &mut Vec<u32>, trees: &[ConstantExpression]) -> Result<(), AllocError>
    ensures { OnOk result (words.new.items ≡ words.old.items ++ map (λ (c : tree.ConstantExpr). initial_word (Some c) % 2 ^ 8) (constant_trees trees.now)) }
{
    for tree in trees {
        words.push(word_of(tree) % 256)?;
    }
    Ok(())
}

fn add_zeros(words: &mut Vec<u32>, count: usize) -> Result<(), AllocError>
    ensures { OnOk result (words.new.items ≡ words.old.items ++ replicate count 0) }
{
    for _ in 0..count {
        words.push(0)?;
    }
    Ok(())
}

/// Appends the words of an object's elements.
pub fn add_words(words: &mut Vec<u32>, tree: &Object) -> Result<(), AllocError>
    ensures { OnOk result (words.new.items ≡ words.old.items ++ initial_words (object_tree tree.now)) }
{
    match tree {
        Object::Single(_, initial) => {
            words.push(initial_word(initial))?;
            Ok(())
        }
        Object::Array(_, length, values) => {
            let values = values.as_slice();
            let count = array_length(length, values).unwrap_or(0);
            add_values(words, values)?;
            add_zeros(words, count.saturating_sub(values.len()))
        }
        Object::Bytes(_, length, values) => {
            let values = values.as_slice();
            let count = array_length(length, values).unwrap_or(0);
            add_bytes(words, values)?;
            add_zeros(words, count.saturating_sub(values.len()))
        }
    }
}

// ---- offsets

fn object_name(tree: &Object) -> &[u8]
    ensures { result.now ≡ (object_name (object_tree tree.now)).text }
{
    match tree {
        Object::Single(name, _) | Object::Array(name, _, _) | Object::Bytes(name, _, _) => {
            name.bytes.as_slice()
        }
    }
}

// Adds an object whose words begin at an offset, and returns the offset after the words. Appends its words to `words`, which
// contains at least as many words as the objects before it have.
fn add_object<'a>(
    layout: &mut Layout<'a>,
    words: &mut Vec<u32>,
    offset: usize,
    tree: &'a Object,
) -> Result<usize, AllocError>
    requires { offset ≤ length words.old.items }
    ensures layout { OnOk result (layout.new ≡ record layout.old {
      objects = layout.old.objects ++ record { name = (object_name (object_tree tree.now)).text; extent = record { offset = offset; length = object_elements (object_tree tree.now); width = object_width (object_tree tree.now) } } ∷ [];
    }) }
    ensures words { OnOk result (words.new.items ≡ words.old.items ++ initial_words (object_tree tree.now)) }
    ensures behind { IfOk result (λ n. n ≡ offset + object_elements (object_tree tree.now)) }
    ensures fits { IfOk result (λ n. n ≤ length words.new.items) }
{
    let length = object_elements(tree);
    let width = object_width(tree);
    add_words(words, tree)?;
    layout.add_object(
        object_name(tree),
        Extent {
            offset,
            length,
            width,
        },
    )?;
    Ok(offset + length)
}

/// Adds objects, the first one at this offset, and returns the offset after them. Appends their words to `words`, which
/// contains at least as many words as the objects before them have.
pub fn add_objects<'a>(
    layout: &mut Layout<'a>,
    words: &mut Vec<u32>,
    offset: usize,
    trees: &'a [Object],
) -> Result<usize, AllocError>
    requires { offset ≤ length words.old.items }
    ensures layout { OnOk result (layout.new ≡ record layout.old { objects = layout.old.objects ++ laid_from offset (object_trees trees.now) }) }
    ensures words { OnOk result (words.new.items ≡ words.old.items ++ all_words (object_trees trees.now)) }
    ensures behind { IfOk result (λ n. n ≡ offset_behind offset (object_trees trees.now)) }
    ensures fits { IfOk result (λ n. n ≤ length words.new.items) }
{
    let mut behind = offset;
    for tree in trees {
        behind = add_object(layout, words, behind, tree)?;
    }
    Ok(behind)
}

// ---- names

fn declare_object<'a>(
    names: &mut Environment<'a>,
    scalar: Scalar,
    tree: &'a Object,
) -> Result<(), AllocError>
    requires { names.old.visible.inner ≡ [] }
    ensures { OnOk result (names.new ≡ record names.old { visible = file_level (with_object scalar (object_tree tree.now) (file_of names.old.visible)).bindings }) }
{
    match tree {
        Object::Single(name, _) => {
            names.declare_in_file(name.bytes.as_slice(), Entity::Variable(scalar))
        }
        Object::Array(name, _, _) => {
            names.declare_in_file(name.bytes.as_slice(), Entity::Elements(scalar))
        }
        Object::Bytes(name, _, _) => {
            names.declare_in_file(name.bytes.as_slice(), Entity::Elements(Scalar::Int))
        }
    }
}

/// Brings the names of a declaration of objects into file scope.
pub fn declare_objects<'a>(
    names: &mut Environment<'a>,
    scalar: Scalar,
    trees: &'a [Object],
) -> Result<(), AllocError>
    requires { names.old.visible.inner ≡ [] }
    ensures { OnOk result (names.new ≡ record names.old { visible = file_level (with_objects scalar (object_trees trees.now) (file_of names.old.visible)).bindings }) }
{
    for tree in trees {
        declare_object(names, scalar, tree)?;
    }
    Ok(())
}
