// Expressions: the value that code uses, in one walk over the tree.
//
// The statements that put a value into variable k set only k and variables above it. Whether arguments are plain is tested only
// at their call, so each part of an expression is tested once. The recursion is as deep as the tree, which has at most 512 tokens
// in a full expression.

ghost use Rattle.std.specs.Prelude.{◌≡◌, true, IfOk};
ghost use Rattle.cc_ast.specs.Tree as tree;
ghost use Rattle.cc_ast.specs.Erase.{expression_tree, name_tree, optional_tree};
ghost use Rattle.cc_ast.specs.internal.Arguments.{expressions_of};
ghost use Rattle.cc_types.specs.Types.{value_type};
ghost use Rattle.cc_layout.specs.Environment.{types_in};
ghost use Rattle.cc_cminor_language.specs.Cminor as cminor;
ghost use Rattle.cc_cminor_language.specs.Code as code;
ghost use Rattle.cc_cminor_language.specs.Code.{expression_of, statement_of, in_sequence};
ghost use Rattle.cc_cminor.specs.internal.Lowering.{is_plain, are_plain, all_plain, put_expr, put_all, locals_from, last_value, invoked};
ghost use Rattle.cc_cminor.specs.internal.Taken.{taken_of, taken, taken_or};

use super::access::{element, variable};
use super::taken::{
    Taken, alone, conditionally, converted, is_strict, joined, operated, put_in, right_from,
    waiting, word,
};
use cc_ast::{Expression as Tree, Identifier, Scalar};
use cc_cminor_language::{
    Expression, Statement, above, both, boxed_expression, boxed_statement, constant, sequence, set,
};
use cc_layout::Callee;
use cc_resolve::Environment;
use std::alloc::{AllocError, Global};

// ---- plain expressions

fn is_plain(tree: &Tree) -> bool
    ensures { result ≡ is_plain (expression_tree tree.now) }
{
    match tree {
        Tree::Number(_, _) | Tree::Name(_) => true,
        Tree::Call(_, _) | Tree::Conditional(_, _, _) => false,
        Tree::Element(_, operand)
        | Tree::Parenthesised(operand)
        | Tree::Unary(_, operand)
        | Tree::Cast(_, operand) => is_plain(operand),
        Tree::Binary(operator, left, right) => {
            is_strict(*operator) && is_plain(left) && is_plain(right)
        }
    }
}

fn are_plain(trees: &[Tree]) -> bool
    ensures { result ≡ are_plain (expressions_of trees.now) }
{
    for tree in trees {
        if !is_plain(tree) {
            return false;
        }
    }
    true
}

// ---- calls

// `count` variables, from `k` on.
fn locals_from(alloc: Global, k: usize, count: usize) -> Result<Vec<Expression>, AllocError>
    ensures { IfOk result (λ v. code.expressions_of v.items ≡ locals_from k count) }
{
    let mut all = Vec::new(alloc);
    for variable in k..above(k, count)? {
        all.push(Expression::Local(variable))?;
    }
    Ok(all)
}

// The last argument: the only argument of a call that has one.
fn last(alloc: Global, mut arguments: Vec<Expression>) -> Result<Box<Expression>, AllocError>
    ensures { IfOk result (λ e. expression_of e.value ≡ last_value (code.expressions_of arguments.items)) }
{
    let argument = arguments.pop();
    drop(arguments);
    match argument {
        Some(argument) => boxed_expression(alloc, argument),
        None => constant(alloc, 0),
    }
}

// The statements that write a word and put 0, the value of the call, into variable `k`.
fn write(alloc: Global, k: usize, word: Box<Expression>) -> Result<Box<Statement>, AllocError>
    ensures { IfOk result (λ s. statement_of s.value ≡ cminor.Sequence (cminor.Write (expression_of word.value)) (cminor.Set k (cminor.Constant 0))) }
{
    let write = boxed_statement(alloc, Statement::Write(word))?;
    let zero = constant(alloc, 0)?;
    let zero = set(alloc, k, zero)?;
    both(alloc, write, zero)
}

// A call with these arguments; its result goes into variable `k`.
fn invoke(
    alloc: Global,
    callee: Callee,
    k: usize,
    arguments: Vec<Expression>,
) -> Result<Box<Statement>, AllocError>
    ensures { IfOk result (λ s. statement_of s.value ≡ invoked callee k (code.expressions_of arguments.items)) }
{
    match callee {
        Callee::WriteWord => {
            let word = last(alloc, arguments)?;
            write(alloc, k, word)
        }
        Callee::ReadWord => {
            drop(arguments);
            boxed_statement(alloc, Statement::Read(Some(k)))
        }
        Callee::Defined(function) => {
            boxed_statement(alloc, Statement::Call(Some(k), function, arguments))
        }
    }
}

// The expressions for plain arguments.
#[cycle(values)]
fn all_plain(
    alloc: Global,
    names: &Environment<'_>,
    k: usize,
    trees: &[Tree],
) -> Result<Vec<Expression>, AllocError>
    requires { are_plain (expressions_of trees.now) ≡ true }
    ensures { IfOk result (λ v. code.expressions_of v.items ≡ all_plain names.now.layout names.now (expressions_of trees.now)) }
{
    let mut all = Vec::new(alloc);
    for tree in trees {
        let taken = value(alloc, names, k, tree)?;
        all.push(Box::into_inner(alone(taken)))?;
    }
    Ok(all)
}

// The statements that put the values of arguments into the variables from `k` on.
#[cycle(values)]
fn put_all(
    alloc: Global,
    names: &Environment<'_>,
    k: usize,
    trees: &[Tree],
) -> Result<Box<Statement>, AllocError>
    ensures { IfOk result (λ s. statement_of s.value ≡ in_sequence (put_all names.now.layout names.now k (expressions_of trees.now))) }
{
    let mut all = Vec::new(alloc);
    let mut variable = k;
    for tree in trees {
        let code = put(alloc, names, variable, tree)?;
        all.push(Box::into_inner(code))?;
        variable = above(variable, 1)?;
    }
    sequence(alloc, all)
}

#[cycle(values)]
fn call(
    alloc: Global,
    names: &Environment<'_>,
    k: usize,
    name: &Identifier,
    trees: &[Tree],
) -> Result<Box<Statement>, AllocError>
    ensures { IfOk result (λ s. statement_of s.value ≡ put_expr names.now.layout names.now k (tree.Call (name_tree name.now) (expressions_of trees.now))) }
{
    let callee = names.callee(name.bytes.as_slice());
    if are_plain(trees) {
        let arguments = all_plain(alloc, names, k, trees)?;
        return invoke(alloc, callee, k, arguments);
    }
    let code = put_all(alloc, names, k, trees)?;
    let arguments = locals_from(alloc, k, trees.len())?;
    let call = invoke(alloc, callee, k, arguments)?;
    both(alloc, code, call)
}

// ---- values

/// The value of an expression. It waits in variable `k` if there is code before it.
#[cycle(values)]
pub fn value(
    alloc: Global,
    names: &Environment<'_>,
    k: usize,
    tree: &Tree,
) -> Result<Taken, AllocError>
    ensures scalar { IfOk result (λ u. u.scalar ≡ value_type (types_in names.now) (expression_tree tree.now)) }
    ensures value { IfOk result (λ u. taken_of u.before u.expression ≡ taken names.now.layout names.now k (expression_tree tree.now)) }
{
    match tree {
        Tree::Number(scalar, number) => word(alloc, *scalar, *number),
        Tree::Name(name) => variable(alloc, names, name.bytes.as_slice()),
        Tree::Element(name, index) => {
            let index = value(alloc, names, k, index)?;
            element(alloc, names, k, name.bytes.as_slice(), index)
        }
        Tree::Call(name, trees) => {
            let code = call(alloc, names, k, name, trees.as_slice())?;
            waiting(alloc, k, names.call_type(name.bytes.as_slice()), code)
        }
        Tree::Parenthesised(inner) => value(alloc, names, k, inner),
        Tree::Unary(operator, operand) => {
            let operand = value(alloc, names, k, operand)?;
            operated(alloc, k, *operator, operand)
        }
        Tree::Cast(scalar, operand) => {
            let operand = value(alloc, names, k, operand)?;
            Ok(converted(*scalar, operand))
        }
        Tree::Binary(operator, left, right) => {
            let left = value(alloc, names, k, left)?;
            let right = value(alloc, names, right_from(*operator, k)?, right)?;
            joined(alloc, k, *operator, left, right)
        }
        Tree::Conditional(test, then, otherwise) => {
            let test = value(alloc, names, k, test)?;
            let then = value(alloc, names, k, then)?;
            let otherwise = value(alloc, names, k, otherwise)?;
            conditionally(alloc, k, test, then, otherwise)
        }
    }
}

/// The statement that puts the value of an expression into variable `k`.
#[cycle(values)]
pub fn put(
    alloc: Global,
    names: &Environment<'_>,
    k: usize,
    tree: &Tree,
) -> Result<Box<Statement>, AllocError>
    ensures { IfOk result (λ s. statement_of s.value ≡ put_expr names.now.layout names.now k (expression_tree tree.now)) }
{
    let taken = value(alloc, names, k, tree)?;
    put_in(alloc, k, taken)
}

/// The value of an expression, or the given word if the expression is absent.
pub fn value_or(
    alloc: Global,
    names: &Environment<'_>,
    k: usize,
    default: u32,
    tree: &Option<Box<Tree>>,
) -> Result<Taken, AllocError>
    ensures { IfOk result (λ u. taken_of u.before u.expression ≡ taken_or names.now.layout names.now k default (optional_tree tree.now)) }
{
    match tree {
        Some(tree) => value(alloc, names, k, tree),
        None => word(alloc, Scalar::Int, default),
    }
}
