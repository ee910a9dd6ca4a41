// A value that code uses: an expression of Cminor, and the code before it, if any.
//
// An expression in which C prescribes no order (one without a call, `&&`, `||` or `?:`) has no side effects. It becomes one
// expression of Cminor, with no code before it. Every other value waits in a variable k, after the code that puts it there. If
// one of two operands has code before it, the left one waits in a variable of its own. So C's order, from left to right, is the
// order of the statements.

ghost use Rattle.std.specs.Prelude.{◌≡◌, false, IfOk};
ghost use Rattle.cc_types.specs.Operators.{binary_type, common_type, unary_type, working_type};
ghost use Rattle.cc_cminor_language.specs.Cminor as cminor;
ghost use Rattle.cc_cminor_language.specs.Code.{expression_of, statement_of};
ghost use Rattle.cc_cminor.specs.internal.Lowering.{is_strict, kind, unary_of, branch};
ghost use Rattle.cc_cminor.specs.internal.Taken.{code_before, taken_of, at_once, waiting, behind_code, kept, put_in, strictly, decided, logically, right_from, joined, conditionally};

use super::conditions::branch;
use super::operators::{binary, truth, unary};
use cc_ast::{BinaryOperator, Scalar, UnaryOperator};
use cc_cminor_language::{Expression, Statement, above, both, constant, local, set};
use cc_types::{binary_type, common_type, unary_type, working_type};
use std::alloc::{AllocError, Global};

/// The type of a value; the code before it, if any; and the expression that has the value after that code.
#[derive(Drop)]
pub struct Taken {
    pub scalar: Scalar,
    pub before: Option<Box<Statement>>,
    pub expression: Box<Expression>,
}

/// An expression without code before it.
pub fn at_once(scalar: Scalar, expression: Box<Expression>) -> Taken
    ensures scalar { result.scalar ≡ scalar }
    ensures value { taken_of result.before result.expression ≡ at_once (expression_of expression.value) }
{
    Taken {
        scalar,
        before: None,
        expression,
    }
}

/// A word.
pub fn word(alloc: Global, scalar: Scalar, word: u32) -> Result<Taken, AllocError>
    ensures scalar { IfOk result (λ u. u.scalar ≡ scalar) }
    ensures value { IfOk result (λ u. taken_of u.before u.expression ≡ at_once (cminor.Constant word)) }
{
    let expression = constant(alloc, word)?;
    Ok(at_once(scalar, expression))
}

/// A value that waits in variable `k`, after the code that puts it there.
pub fn waiting(
    alloc: Global,
    k: usize,
    scalar: Scalar,
    code: Box<Statement>,
) -> Result<Taken, AllocError>
    ensures scalar { IfOk result (λ u. u.scalar ≡ scalar) }
    ensures value { IfOk result (λ u. taken_of u.before u.expression ≡ waiting k (statement_of code.value)) }
{
    let expression = local(alloc, k)?;
    Ok(Taken {
        scalar,
        before: Some(code),
        expression,
    })
}

/// The expression of a value without code before it.
pub fn alone(taken: Taken) -> Box<Expression>
    ensures { result.value ≡ taken.expression.value }
{
    let Taken {
        scalar: _,
        before,
        expression,
    } = taken;
    drop(before);
    expression
}

/// A statement, after the code that has to precede the value that it uses.
pub fn behind(
    alloc: Global,
    before: Option<Box<Statement>>,
    statement: Box<Statement>,
) -> Result<Box<Statement>, AllocError>
    ensures { IfOk result (λ s. statement_of s.value ≡ behind_code (code_before before) (statement_of statement.value)) }
{
    match before {
        None => Ok(statement),
        Some(first) => both(alloc, first, statement),
    }
}

/// An operation's value. It waits in variable `k` if there is code before its operand.
pub fn kept(
    alloc: Global,
    k: usize,
    scalar: Scalar,
    before: Option<Box<Statement>>,
    expression: Box<Expression>,
) -> Result<Taken, AllocError>
    ensures scalar { IfOk result (λ u. u.scalar ≡ scalar) }
    ensures value { IfOk result (λ u. taken_of u.before u.expression ≡ kept k (code_before before) (expression_of expression.value)) }
{
    match before {
        None => Ok(at_once(scalar, expression)),
        Some(code) => {
            let result = set(alloc, k, expression)?;
            let code = both(alloc, code, result)?;
            waiting(alloc, k, scalar, code)
        }
    }
}

/// The statement that puts a value into variable `k`. If the value waits, it is in `k` already.
pub fn put_in(alloc: Global, k: usize, taken: Taken) -> Result<Box<Statement>, AllocError>
    ensures { IfOk result (λ s. statement_of s.value ≡ put_in k (code_before taken.before) (expression_of taken.expression.value)) }
{
    let Taken {
        scalar: _,
        before,
        expression,
    } = taken;
    match before {
        None => set(alloc, k, expression),
        Some(code) => {
            drop(expression);
            Ok(code)
        }
    }
}

/// A value converted to a type.
pub fn converted(scalar: Scalar, operand: Taken) -> Taken
    ensures scalar { result.scalar ≡ scalar }
    ensures value { taken_of result.before result.expression ≡ taken_of operand.before operand.expression }
{
    let Taken {
        scalar: _,
        before,
        expression,
    } = operand;
    Taken {
        scalar,
        before,
        expression,
    }
}

/// A unary operator applied to a value.
pub fn operated(
    alloc: Global,
    k: usize,
    operator: UnaryOperator,
    operand: Taken,
) -> Result<Taken, AllocError>
    ensures scalar { IfOk result (λ u. u.scalar ≡ unary_type operator operand.scalar) }
    ensures value { IfOk result (λ u. taken_of u.before u.expression ≡ kept k (code_before operand.before) (unary_of operator (expression_of operand.expression.value))) }
{
    let Taken {
        scalar,
        before,
        expression,
    } = operand;
    let value = unary(alloc, operator, expression)?;
    kept(alloc, k, unary_type(operator, scalar), before, value)
}

// An operator that needs both operands. The right one uses no variable below `k + 1`.
fn strictly(
    alloc: Global,
    k: usize,
    operator: BinaryOperator,
    left: Taken,
    right: Taken,
) -> Result<Taken, AllocError>
    ensures scalar { IfOk result (λ u. u.scalar ≡ binary_type operator left.scalar right.scalar) }
    ensures value { IfOk result (λ u. taken_of u.before u.expression ≡ strictly operator (working_type operator left.scalar right.scalar) k
        (code_before left.before) (expression_of left.expression.value) (code_before right.before) (expression_of right.expression.value)) }
{
    let scalar = binary_type(operator, left.scalar, right.scalar);
    let working = working_type(operator, left.scalar, right.scalar);
    if left.before.is_none() && right.before.is_none() {
        let value = binary(alloc, operator, working, left.expression, right.expression)?;
        return Ok(at_once(scalar, value));
    }
    let first = put_in(alloc, k, left)?;
    let waited = local(alloc, k)?;
    let value = binary(alloc, operator, working, waited, right.expression)?;
    let second = set(alloc, k, value)?;
    let second = behind(alloc, right.before, second)?;
    let code = both(alloc, first, second)?;
    waiting(alloc, k, scalar, code)
}

// `&&` or `||`, given the left operand and the statement that puts the truth of the right one into variable `k`.
fn decide(
    alloc: Global,
    k: usize,
    operator: BinaryOperator,
    left: Box<Expression>,
    second: Box<Statement>,
) -> Result<Box<Statement>, AllocError>
    requires { is_strict (kind operator) ≡ false }
    ensures { IfOk result (λ s. statement_of s.value ≡ decided (kind operator) k (expression_of left.value) (statement_of second.value)) }
{
    if matches!(operator, BinaryOperator::LogicalAnd) {
        let zero = constant(alloc, 0)?;
        let decided = set(alloc, k, zero)?;
        branch(alloc, left, second, decided)
    } else {
        let one = constant(alloc, 1)?;
        let decided = set(alloc, k, one)?;
        branch(alloc, left, decided, second)
    }
}

// `&&` or `||`: the right operand is evaluated only if the left one does not decide.
fn logically(
    alloc: Global,
    k: usize,
    operator: BinaryOperator,
    left: Taken,
    right: Taken,
) -> Result<Taken, AllocError>
    requires { is_strict (kind operator) ≡ false }
    ensures scalar { IfOk result (λ u. u.scalar ≡ binary_type operator left.scalar right.scalar) }
    ensures value { IfOk result (λ u. taken_of u.before u.expression ≡ logically (kind operator) k
        (code_before left.before) (expression_of left.expression.value) (code_before right.before) (expression_of right.expression.value)) }
{
    let scalar = binary_type(operator, left.scalar, right.scalar);
    let truth = truth(alloc, right.expression)?;
    let second = set(alloc, k, truth)?;
    let second = behind(alloc, right.before, second)?;
    let decision = decide(alloc, k, operator, left.expression, second)?;
    let code = behind(alloc, left.before, decision)?;
    waiting(alloc, k, scalar, code)
}

/// Whether an operator needs both operands: every one but `&&` and `||`.
pub fn is_strict(operator: BinaryOperator) -> bool
    ensures { result ≡ is_strict (kind operator) }
{
    !matches!(
        operator,
        BinaryOperator::LogicalAnd | BinaryOperator::LogicalOr
    )
}

/// The first variable that the right operand may use: if the operator needs both operands, the left one waits below it.
pub fn right_from(operator: BinaryOperator, k: usize) -> Result<usize, AllocError>
    ensures { IfOk result (λ n. n ≡ right_from (kind operator) k) }
{
    if is_strict(operator) {
        above(k, 1)
    } else {
        Ok(k)
    }
}

/// A binary operator applied to two values. Its right operand uses no variable below `right_from`.
pub fn joined(
    alloc: Global,
    k: usize,
    operator: BinaryOperator,
    left: Taken,
    right: Taken,
) -> Result<Taken, AllocError>
    ensures scalar { IfOk result (λ u. u.scalar ≡ binary_type operator left.scalar right.scalar) }
    ensures value { IfOk result (λ u. taken_of u.before u.expression ≡ joined (kind operator) operator (working_type operator left.scalar right.scalar) k
        (code_before left.before) (expression_of left.expression.value) (code_before right.before) (expression_of right.expression.value)) }
{
    if is_strict(operator) {
        strictly(alloc, k, operator, left, right)
    } else {
        logically(alloc, k, operator, left, right)
    }
}

/// One of two statements, chosen by a value.
pub fn choice(
    alloc: Global,
    test: Taken,
    nonzero: Box<Statement>,
    otherwise: Box<Statement>,
) -> Result<Box<Statement>, AllocError>
    ensures { IfOk result (λ s. statement_of s.value
        ≡ behind_code (code_before test.before) (branch (expression_of test.expression.value) (statement_of nonzero.value) (statement_of otherwise.value))) }
{
    let Taken {
        scalar: _,
        before,
        expression,
    } = test;
    let statement = branch(alloc, expression, nonzero, otherwise)?;
    behind(alloc, before, statement)
}

/// `?:`: one of the two operands goes into variable `k`.
pub fn conditionally(
    alloc: Global,
    k: usize,
    test: Taken,
    then: Taken,
    otherwise: Taken,
) -> Result<Taken, AllocError>
    ensures scalar { IfOk result (λ u. u.scalar ≡ common_type then.scalar otherwise.scalar) }
    ensures value { IfOk result (λ u. taken_of u.before u.expression ≡ conditionally k (code_before test.before) (expression_of test.expression.value)
        (put_in k (code_before then.before) (expression_of then.expression.value)) (put_in k (code_before otherwise.before) (expression_of otherwise.expression.value))) }
{
    let scalar = common_type(then.scalar, otherwise.scalar);
    let then = put_in(alloc, k, then)?;
    let otherwise = put_in(alloc, k, otherwise)?;
    let code = choice(alloc, test, then, otherwise)?;
    waiting(alloc, k, scalar, code)
}
