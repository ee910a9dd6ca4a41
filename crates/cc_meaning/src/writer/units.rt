// Functions, external declarations, and the form of a unit.

ghost use Rattle.std.specs.Prelude.{◌≡◌, [], ◌∷◌, ◌++◌, length, OnOk, IfOk};
ghost use Rattle.cc_ast.specs.Erase.{signature_tree, statements_of, external_tree, external_trees};
ghost use Rattle.cc_scope.specs.Bindings.{file_level, file_of};
ghost use Rattle.cc_meaning.specs.internal.FormErase.{form_tree, Resolves};
ghost use Rattle.cc_meaning.specs.internal.Form.{function_code, functions_code, all_code, entries_from, unit_functions};
ghost use Rattle.cc_layout.specs.Layout.{layout_of};
ghost use Rattle.cc_types.specs.Scope.{first_file_scope, with_function, file_scope_behind};

use super::statements::{Exits, statements};
use crate::emitter::Emitter;
use crate::form::{Entry, Form, Instruction};
use cc_ast::{External, Signature, Statement};
use cc_resolve::{
    Environment, declare_function, declare_objects, enter_function, lay_out, leave_function,
};
use cc_types::local_count;
use std::alloc::{AllocError, Global};

const MAIN: &[u8] = b"main";

// Declares a function, and appends its instructions to those of the functions before it.
fn define_function<'a>(
    alloc: Global,
    names: &mut Environment<'a>,
    into: &mut Vec<Instruction>,
    signature: &'a Signature,
    body: &'a [Statement],
) -> Result<(), AllocError>
    requires inner { names.old.visible.inner ≡ [] }
    requires locals { names.old.locals ≡ [] }
    ensures names { OnOk result (names.new ≡ record names.old { visible = file_level (with_function (signature_tree signature.now) (file_of names.old.visible)).bindings }) }
    ensures code { OnOk result (into.new.items ≡ into.old.items ++ function_code names.old.layout (file_of names.old.visible) (signature_tree signature.now) (statements_of body.now)) }
{
    enter_function(names, signature)?;
    let mut code = Emitter::new(alloc);
    code.emit(Instruction::Return)?;
    code.emit(Instruction::Constant(0))?;
    let end = code.len();
    let exits = Exits {
        breaks: end,
        continues: end,
    };
    statements(names, &mut code, exits, body)?;
    leave_function(names);
    code.finish(into)
}

// Brings the names of an external declaration into file scope, and appends the instructions of the function that it defines,
// if any, to those of the functions before it.
fn resolve_external<'a>(
    alloc: Global,
    names: &mut Environment<'a>,
    code: &mut Vec<Instruction>,
    entries: &mut Vec<Entry>,
    tree: &'a External,
) -> Result<(), AllocError>
    requires inner { names.old.visible.inner ≡ [] }
    requires locals { names.old.locals ≡ [] }
    ensures names { OnOk result (names.new ≡ record names.old { visible = file_level (file_scope_behind (external_tree tree.now) (file_of names.old.visible)).bindings }) }
    ensures code { OnOk result (code.new.items ≡ code.old.items ++ all_code (functions_code names.old.layout (file_of names.old.visible) (external_tree tree.now ∷ []))) }
    ensures entries { OnOk result (entries.new.items ≡ entries.old.items
        ++ entries_from (length code.old.items) (functions_code names.old.layout (file_of names.old.visible) (external_tree tree.now ∷ []))) }
{
    match tree {
        External::Declaration(signature) => declare_function(names, signature),
        External::Definition(signature, body) => {
            entries.push(Entry {
                start: code.len(),
                parameters: signature.parameters.len(),
                variables: local_count(body.as_slice())?,
            })?;
            define_function(alloc, names, code, signature, body.as_slice())
        }
        External::Objects(scalar, trees) => declare_objects(names, *scalar, trees.as_slice()),
    }
}

// Writes the instructions and the entries of a unit's functions into empty lists, from file scope at the start of the unit.
fn resolve_externals<'a>(
    alloc: Global,
    names: &mut Environment<'a>,
    code: &mut Vec<Instruction>,
    entries: &mut Vec<Entry>,
    trees: &'a [External],
) -> Result<(), AllocError>
    requires start { names.old ≡ record { visible = file_level first_file_scope.bindings; locals = []; layout = layout_of (external_trees trees.now) } }
    requires code { code.old.items ≡ [] }
    requires entries { entries.old.items ≡ [] }
    ensures code { OnOk result (code.new.items ≡ all_code (unit_functions (external_trees trees.now))) }
    ensures entries { OnOk result (entries.new.items ≡ entries_from 0 (unit_functions (external_trees trees.now))) }
{
    for tree in trees {
        resolve_external(alloc, names, code, entries, tree)?;
    }
    Ok(())
}

/// Returns the resolved form of a unit.
pub fn resolve(alloc: Global, trees: &[External]) -> Result<Form, AllocError>
    ensures { IfOk result (λ f. Resolves (external_trees trees.now) (form_tree f)) }
{
    let mut words = Vec::new(alloc);
    let layout = lay_out(alloc, &mut words, trees)?;
    let main = layout.function(MAIN);
    let mut names = Environment::new(alloc, layout)?;
    let mut code = Vec::new(alloc);
    let mut functions = Vec::new(alloc);
    let resolved = resolve_externals(alloc, &mut names, &mut code, &mut functions, trees);
    names.release();
    resolved?;
    Ok(Form {
        code,
        functions,
        main,
        words,
    })
}
