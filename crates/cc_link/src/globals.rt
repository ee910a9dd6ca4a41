// The words of objects in an image: four elements of an array of `unsigned char` are one word.

ghost use Rattle.std.specs.Prelude.{◌≡◌, ◌<◌, ◌+◌, ◌^◌, ◌++◌, get_or, length, IfOk, OnOk};
ghost use Rattle.cc_ast.specs.Erase.{object_tree, object_trees, external_tree, external_trees};
ghost use Rattle.cc_types.specs.Limits.{objects};
ghost use Rattle.cc_link.specs.Packed.{word_of_bytes, packed_bytes, object_image, image_words};
ghost use Rattle.cc_link.specs.internal.Packing.{AreBytes, external_image};

use cc_layout::object_width;
use cc_resolve::add_words;
use cc_syntax::{External, Object};
use cc_words::Width;
use std::alloc::{AllocError, Global};

// The byte at `at`, or 0 past the last byte.
#[tactic(auto, using(crate::proofs::Packing::byte_below))]
fn byte_at(bytes: &[u32], at: usize) -> u32
    requires { AreBytes bytes.now }
    ensures byte { result ≡ get_or bytes.now at 0 }
    ensures small { result < 2 ^ 8 }
{
    bytes.get(at).copied().unwrap_or(0)
}

// The four bytes from `at` on as a word, the first byte the lowest.
fn word_at(bytes: &[u32], at: usize) -> u32
    requires bytes { AreBytes bytes.now }
    requires there { at < length bytes.now }
    ensures { result ≡ word_of_bytes (get_or bytes.now at 0) (get_or bytes.now (at + 1) 0) (get_or bytes.now (at + 2) 0) (get_or bytes.now (at + 3) 0) }
{
    let low = byte_at(bytes, at) + 256 * byte_at(bytes, at + 1);
    let high = byte_at(bytes, at + 2) + 256 * byte_at(bytes, at + 3);
    low + 65536 * high
}

// Adds bytes to words, four bytes in each word.
fn add_packed(words: &mut Vec<u32>, bytes: &[u32]) -> Result<(), AllocError>
    requires { AreBytes bytes.now }
    ensures { OnOk result (words.new.items ≡ words.old.items ++ packed_bytes bytes.now) }
{
    for number in 0..Width::Byte.words_of(bytes.len()) {
        words.push(word_at(bytes, 4 * number))?;
    }
    Ok(())
}

// Adds an object's words.
fn add_object(alloc: Global, words: &mut Vec<u32>, tree: &Object) -> Result<(), AllocError>
    ensures { OnOk result (words.new.items ≡ words.old.items ++ object_image (object_tree tree.now)) }
{
    match object_width(tree) {
        Width::Word => add_words(words, tree),
        Width::Byte => {
            let mut bytes = Vec::new(alloc);
            add_words(&mut bytes, tree)?;
            add_packed(words, bytes.as_slice())
        }
    }
}

fn add_objects(alloc: Global, words: &mut Vec<u32>, trees: &[Object]) -> Result<(), AllocError>
    ensures { OnOk result (words.new.items ≡ words.old.items ++ image_words (object_trees trees.now)) }
{
    for tree in trees {
        add_object(alloc, words, tree)?;
    }
    Ok(())
}

fn add_external(alloc: Global, words: &mut Vec<u32>, tree: &External) -> Result<(), AllocError>
    ensures { OnOk result (words.new.items ≡ words.old.items ++ external_image (external_tree tree.now)) }
{
    match tree {
        External::Objects(_, trees) => add_objects(alloc, words, trees.as_slice()),
        External::Declaration(_) | External::Definition(_, _) => Ok(()),
    }
}

/// The words of all objects in an image, one object after the other.
pub fn image_words(alloc: Global, trees: &[External]) -> Result<Vec<u32>, AllocError>
    ensures { IfOk result (λ words. words.items ≡ image_words (objects (external_trees trees.now))) }
{
    let mut words = Vec::new(alloc);
    for tree in trees {
        add_external(alloc, &mut words, tree)?;
    }
    Ok(words)
}
