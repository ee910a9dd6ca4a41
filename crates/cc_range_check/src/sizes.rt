// The sizes of a unit's objects.

ghost use Rattle.std.specs.Prelude.{◌≡◌, ◌++◌, ◌∷◌, List, IfOk, OnOk};
ghost use Rattle.cc_ast.specs.Erase.{object_tree, object_trees, external_tree, external_trees};
ghost use Rattle.cc_ast.specs.Tree.{External as Tree};
ghost use Rattle.cc_types.specs.Limits.{objects};
ghost use Rattle.cc_types.specs.Typed.{IsTyped};
ghost use Rattle.cc_types.specs.Types.{object_elements, object_width};
ghost use Rattle.cc_c_semantics.specs.Numbered.{objects_in};
ghost use Rattle.cc_guard.specs.Guard.{elements_in};
ghost use Rattle.cc_guard.specs.internal.Written.{declared_sizes, is_byte};
ghost use Rattle.cc_range_table.specs.Inductive.{is_scalar};
ghost use Rattle.cc_range_check.specs.Sizes.{sizes_of};

use cc_ast::{External, Object};
use cc_c_semantics::names_have_numbers;
use cc_layout::object_width;
use cc_types::object_elements;
use cc_words::Width;
use std::alloc::{AllocError, Global};

/// The size of an object: the width of its elements, and how many there are.
#[derive(Clone, Copy)]
pub struct ObjectSize {
    pub width: Width,
    pub elements: u32,
}

// The size of an object. In a typed unit no object has 2^32 elements or more.
fn size_of(tree: &Object) -> Result<ObjectSize, AllocError>
    ensures width { IfOk result (λ size. size.width ≡ object_width (object_tree tree.now)) }
    ensures elements { IfOk result (λ size. size.elements ≡ object_elements (object_tree tree.now)) }
{
    match u32::try_from(object_elements(tree)) {
        Ok(elements) => Ok(ObjectSize {
            width: object_width(tree),
            elements,
        }),
        Err(_) => Err(AllocError),
    }
}

/// The objects that an external declaration declares.
pub(crate) fn objects_of(external: &External) -> &[Object]
    ensures { (rest : List Tree) → objects (external_tree external.now ∷ rest) ≡ object_trees result.now ++ objects rest }
{
    match external {
        External::Objects(_, objects) => objects.as_slice(),
        External::Declaration(_) | External::Definition(_, _) => &[],
    }
}

fn add_sizes(sizes: &mut Vec<ObjectSize>, trees: &[Object]) -> Result<(), AllocError>
    ensures { OnOk result (sizes_of sizes.new.items ≡ sizes_of sizes.old.items ++ declared_sizes (object_trees trees.now)) }
{
    for tree in trees {
        sizes.push(size_of(tree)?)?;
    }
    Ok(())
}

/// The sizes of the objects of a unit, in the order of their declarations. Fails only if memory runs out.
pub fn object_sizes(alloc: Global, trees: &[External]) -> Result<Vec<ObjectSize>, AllocError>
    requires { IsTyped (external_trees trees.now) }
    ensures { IfOk result (λ sizes. sizes_of sizes.items ≡ objects_in (external_trees trees.now)) }
{
    names_have_numbers();
    let mut sizes = Vec::new(alloc);
    for tree in trees {
        add_sizes(&mut sizes, objects_of(tree))?;
    }
    Ok(sizes)
}

fn is_byte(width: Width) -> bool
    ensures { result ≡ is_byte width }
{
    match width {
        Width::Byte => true,
        Width::Word => false,
    }
}

/// How many elements of this width an object has: 0 if its elements have the other width.
pub fn elements_in(sizes: &[ObjectSize], width: Width, object: usize) -> u32
    ensures { result ≡ elements_in (sizes_of sizes.now) width object }
{
    if object < sizes.len() && is_byte(sizes[object].width) == is_byte(width) {
        sizes[object].elements
    } else {
        0
    }
}

/// Whether an object has one element.
pub fn is_scalar(sizes: &[ObjectSize], object: usize) -> bool
    ensures { result ≡ is_scalar (sizes_of sizes.now) object }
{
    object < sizes.len() && sizes[object].elements == 1
}
