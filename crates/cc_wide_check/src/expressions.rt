// Whether two expressions are alike: the same but for places and parentheses. The recursion is as deep as the tree.

ghost use Rattle.std.specs.Prelude.{◌≡◌, false};
ghost use Rattle.cc_ast.specs.Erase.{name_tree, expression_tree, optional_tree};
ghost use Rattle.cc_ast.specs.internal.Arguments.{expressions_of};
ghost use Rattle.cc_wide.specs.Places.{name_only, bare, all_bare, bare_optional};
ghost use Rattle.cc_wide_check.specs.internal.Equal.{is_parenthesised, equal_option, equal_name, equal_expression, equal_expressions};

use super::operators::{same_binary, same_scalar, same_unary};
use cc_ast::{Expression, Identifier};

/// Whether two names have the same bytes.
pub(crate) fn same_name(one: &Identifier, other: &Identifier) -> bool
    ensures { result ≡ equal_name (name_only (name_tree one.now)) (name_only (name_tree other.now)) }
{
    one.bytes.as_slice() == other.bytes.as_slice()
}

/// An expression without the parentheses around it.
pub(crate) fn inner(e: &Expression) -> &Expression
    ensures same { bare (expression_tree result.now) ≡ bare (expression_tree e.now) }
    ensures open { is_parenthesised (expression_tree result.now) ≡ false }
{
    match e {
        Expression::Parenthesised(e) => inner(e),
        _ => e,
    }
}

/// Whether two expressions are alike.
#[cycle(expressions)]
pub(crate) fn same_expression(one: &Expression, other: &Expression) -> bool
    ensures { result ≡ equal_expression (bare (expression_tree one.now)) (bare (expression_tree other.now)) }
{
    let other = inner(other);
    match (one, other) {
        (Expression::Parenthesised(one), _) => same_expression(one, other),
        (Expression::Number(t, n), Expression::Number(u, m)) => same_scalar(*t, *u) && n == m,
        (Expression::Name(x), Expression::Name(y)) => same_name(x, y),
        (Expression::Element(x, e), Expression::Element(y, f)) => {
            same_name(x, y) && same_expression(e, f)
        }
        (Expression::Call(x, es), Expression::Call(y, fs)) => {
            same_name(x, y) && same_expressions(es.as_slice(), fs.as_slice())
        }
        (Expression::Unary(o, e), Expression::Unary(p, f)) => {
            same_unary(*o, *p) && same_expression(e, f)
        }
        (Expression::Cast(t, e), Expression::Cast(u, f)) => {
            same_scalar(*t, *u) && same_expression(e, f)
        }
        (Expression::Binary(o, a, b), Expression::Binary(p, c, d)) => {
            same_binary(*o, *p) && same_expression(a, c) && same_expression(b, d)
        }
        (Expression::Conditional(c, a, b), Expression::Conditional(d, e, f)) => {
            same_expression(c, d) && same_expression(a, e) && same_expression(b, f)
        }
        _ => false,
    }
}

#[cycle(expressions)]
fn same_expressions(one: &[Expression], other: &[Expression]) -> bool
    ensures { result ≡ equal_expressions (all_bare (expressions_of one.now)) (all_bare (expressions_of other.now)) }
{
    if one.len() != other.len() {
        return false;
    }
    for i in 0..one.len() {
        if !same_expression(&one[i], &other[i]) {
            return false;
        }
    }
    true
}

/// Whether two expressions that may be absent are alike.
pub(crate) fn same_optional(one: &Option<Box<Expression>>, other: &Option<Box<Expression>>) -> bool
    ensures { result ≡ equal_option equal_expression (bare_optional (optional_tree one.now)) (bare_optional (optional_tree other.now)) }
{
    match (one, other) {
        (Some(one), Some(other)) => same_expression(one, other),
        (None, None) => true,
        _ => false,
    }
}
