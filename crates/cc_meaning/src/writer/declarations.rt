// Declarations of locals.
//
// Instructions are written from last to first, so the names of a declaration come into scope before its instructions are written.
// Writing them then removes the names one by one.

ghost use Rattle.std.specs.Prelude.{◌≡◌, ◌∷◌, ◌++◌, length, OnOk};
ghost use Rattle.cc_ast.specs.Erase.{optional_tree, declarator_trees, beginning_tree};
ghost use Rattle.cc_tokens.specs.declared.scalar.Scalar.{Scalar};
ghost use Rattle.cc_layout.specs.Environment as resolve;
ghost use Rattle.cc_layout.specs.Environment.{with_local, with_locals, behind_beginning};
ghost use Rattle.cc_meaning.specs.internal.Form.{initial_code, declared_code, beginning_code};
ghost use Rattle.cc_meaning.specs.declared.form.Instruction.TheVariants.{Clear};

use super::actions::optional_action;
use super::expressions::expression;
use crate::emitter::Emitter;
use crate::form::Instruction;
use cc_ast::{Beginning, Declarator, Scalar};
use cc_resolve::Environment;
use std::alloc::AllocError;

// Writes the newest local's initialiser, if it has one, and removes the local.
fn declarator(
    names: &mut Environment<'_>,
    code: &mut Emitter,
    tree: &Declarator,
) -> Result<(), AllocError>
    ensures names { OnOk result ((t : Scalar) (w : resolve.Environment) → names.old ≡ with_local t tree.now.name.bytes.items w → names.new ≡ w) }
    ensures code { OnOk result ((t : Scalar) (w : resolve.Environment) → names.old ≡ with_local t tree.now.name.bytes.items w
        → code.new ≡ Clear (length w.locals) ∷ initial_code names.old (length w.locals) (optional_tree tree.now.initial) ++ code.old) }
{
    let number = names.len().saturating_sub(1);
    if let Some(tree) = &tree.initial {
        code.emit(Instruction::SetLocal(number))?;
        expression(names, code, tree)?;
    }
    code.emit(Instruction::Clear(number))?;
    names.undeclare();
    Ok(())
}

/// Writes a declaration whose names are in scope, and removes them.
pub fn declaration(
    names: &mut Environment<'_>,
    code: &mut Emitter,
    trees: &[Declarator],
) -> Result<(), AllocError>
    ensures names { OnOk result ((t : Scalar) (w : resolve.Environment) → names.old ≡ with_locals t (declarator_trees trees.now) w → names.new ≡ w) }
    ensures code { OnOk result ((t : Scalar) (w : resolve.Environment) → names.old ≡ with_locals t (declarator_trees trees.now) w
        → code.new ≡ declared_code w t (declarator_trees trees.now) ++ code.old) }
{
    for tree in trees.iter().rev() {
        declarator(names, code, tree)?;
    }
    Ok(())
}

/// Writes the first part of a `for` header, whose names are in scope, and removes them.
pub fn beginning(
    names: &mut Environment<'_>,
    code: &mut Emitter,
    tree: &Beginning,
) -> Result<(), AllocError>
    ensures names { OnOk result ((w : resolve.Environment) → names.old ≡ behind_beginning (beginning_tree tree.now) w → names.new ≡ w) }
    ensures code { OnOk result ((w : resolve.Environment) → names.old ≡ behind_beginning (beginning_tree tree.now) w
        → code.new ≡ beginning_code w (beginning_tree tree.now) ++ code.old) }
{
    match tree {
        Beginning::Declaration(_, declared) => declaration(names, code, declared.as_slice()),
        Beginning::Action(action) => optional_action(names, code, action),
    }
}
