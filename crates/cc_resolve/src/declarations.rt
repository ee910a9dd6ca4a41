// Names that declarations of locals bring into scope.

ghost use Rattle.std.specs.Prelude.{◌≡◌, OnOk};
ghost use Rattle.cc_ast.specs.Erase.{declarator_trees, beginning_tree, statement_tree};
ghost use Rattle.cc_layout.specs.Environment.{with_locals, behind, behind_beginning};

use super::environment::Environment;
use cc_ast::{Beginning, Declarator, Scalar, Statement};
use std::alloc::AllocError;

/// Brings the names of a declaration into scope. `AllocError` if memory runs out; nothing is then known about the environment.
pub fn declare_locals<'a>(
    names: &mut Environment<'a>,
    scalar: Scalar,
    trees: &'a [Declarator],
) -> Result<(), AllocError>
    ensures { OnOk result (names.new ≡ with_locals scalar (declarator_trees trees.now) names.old) }
{
    for tree in trees {
        names.declare(scalar, tree.name.bytes.as_slice())?;
    }
    Ok(())
}

/// Brings the names of the first part of a `for` header into scope. `AllocError` if memory runs out; nothing is then known about
/// the environment.
pub fn declare_beginning<'a>(
    names: &mut Environment<'a>,
    tree: &'a Beginning,
) -> Result<(), AllocError>
    ensures { OnOk result (names.new ≡ behind_beginning (beginning_tree tree.now) names.old) }
{
    match tree {
        Beginning::Declaration(scalar, declared) => {
            declare_locals(names, *scalar, declared.as_slice())
        }
        Beginning::Action(_) => Ok(()),
    }
}

/// Brings the names that a statement declares into the scope around it. `AllocError` if memory runs out; nothing is then known
/// about the environment.
pub fn declare_statement<'a>(
    names: &mut Environment<'a>,
    tree: &'a Statement,
) -> Result<(), AllocError>
    ensures { OnOk result (names.new ≡ behind (statement_tree tree.now) names.old) }
{
    match tree {
        Statement::Local(scalar, declared) => declare_locals(names, *scalar, declared.as_slice()),
        Statement::Block(_)
        | Statement::Perform(_)
        | Statement::Return(_, _)
        | Statement::Break(_)
        | Statement::Continue(_)
        | Statement::If(_, _)
        | Statement::IfElse(_, _, _)
        | Statement::While(_, _)
        | Statement::DoWhile(_, _)
        | Statement::For(_, _, _, _) => Ok(()),
    }
}
