// What the names of file scope refer to: an object's words, and a function's number.

ghost use Rattle.std.specs.Prelude.{◌≡◌};
ghost use Rattle.cc_ast.specs.Erase.{object_tree};
ghost use Rattle.cc_types.specs.Types.{object_width};

use cc_ast::Object;
use cc_words::Width;

/// Where an object's words are in the list of all objects' words, which has one word for each element: the index of the first
/// word, the number of words, and how wide the elements are.
#[derive(Clone, Copy)]
pub struct Extent {
    pub offset: usize,
    pub length: usize,
    pub width: Width,
}

/// What a called name refers to.
#[derive(Clone, Copy)]
pub enum Callee {
    /// The builtin `write_word`.
    WriteWord,
    /// The builtin `read_word`.
    ReadWord,
    /// The function with this number, in the order of definitions. If no function has the name, the number is how many
    /// functions there are.
    Defined(usize),
}

/// How wide an object's elements are.
pub fn object_width(tree: &Object) -> Width
    ensures { result ≡ object_width (object_tree tree.now) }
{
    match tree {
        Object::Single(_, _) | Object::Array(_, _, _) => Width::Word,
        Object::Bytes(_, _, _) => Width::Byte,
    }
}
