// All that file scope declares, name by name.

use cc_syntax::{External, Identifier, Object, Signature};
use std::alloc::{AllocError, Global};

/// What declares a name.
#[derive(Clone, Copy)]
pub enum Declared<'a> {
    Declaration(&'a Signature),
    Definition(&'a Signature),
    Object(&'a Object),
}

/// A name, and what declares it.
#[derive(Clone, Copy)]
pub struct Declaration<'a> {
    pub name: &'a Identifier,
    pub declared: Declared<'a>,
}

fn add_all<'a>(list: &mut Vec<Declaration<'a>>, objects: &'a [Object]) -> Result<(), AllocError> {
    for object in objects {
        let (Object::Single(name, _) | Object::Array(name, _, _) | Object::Bytes(name, _, _)) =
            object;
        let declared = Declared::Object(object);
        list.push(Declaration { name, declared })?;
    }
    Ok(())
}

fn add<'a>(list: &mut Vec<Declaration<'a>>, tree: &'a External) -> Result<(), AllocError> {
    let (signature, declared) = match tree {
        External::Declaration(signature) => (signature, Declared::Declaration(signature)),
        External::Definition(signature, _) => (signature, Declared::Definition(signature)),
        External::Objects(_, objects) => return add_all(list, objects.as_slice()),
    };
    let name = &signature.name;
    list.push(Declaration { name, declared })?;
    Ok(())
}

/// What file scope declares, in the order of the text.
pub fn declarations<'a>(
    alloc: Global,
    trees: &'a [External],
) -> Result<Vec<Declaration<'a>>, AllocError> {
    let mut list = Vec::new(alloc);
    for tree in trees {
        add(&mut list, tree)?;
    }
    Ok(list)
}

/// The first declaration of a name.
pub fn first_of<'a>(list: &[Declaration<'a>], name: &[u8]) -> Option<Declaration<'a>> {
    list.iter()
        .copied()
        .find(|declaration| declaration.name.bytes.as_slice() == name)
}

/// The declaration whose name is at an offset.
pub fn named_at<'a>(list: &[Declaration<'a>], at: usize) -> Option<Declaration<'a>> {
    list.iter()
        .copied()
        .find(|declaration| declaration.name.at == at)
}
