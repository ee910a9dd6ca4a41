// Whether a unit of C is the lowered one of a marked unit, but for places and parentheses.

ghost use Rattle.std.specs.Prelude.{◌≡◌, option_map, map};
ghost use Rattle.std.specs.Cmp.Lexicographic.{pointwise};
ghost use Rattle.cc_ast.specs.Erase.{name_tree, declarator_trees, statements_of, constant_tree, optional_constant, constant_trees, parameter_tree, signature_tree, object_tree, object_trees, external_tree, external_trees};
ghost use Rattle.cc_wide.specs.Places.{name_only, bare_declarators, bare_statements, bare_constant, bare_signature, bare_object, bare_external};
ghost use Rattle.cc_wide_text.specs.Forms.{wide_external, wide_unit};
ghost use Rattle.cc_wide_check.specs.internal.Equal.{equal_option, equal_name, equal_constant, equal_parameter, equal_scalar, equal_signature, equal_object};
ghost use Rattle.cc_wide_check.specs.internal.Units.{bare_parameter, are_hidden, is_nesting, fit_with, body_fits, external_fits, unit_fits};
ghost use Rattle.cc_wide_check.specs.internal.Views.{wide_of};

use super::around::Around;
use super::expressions::{same_expression, same_name};
use super::hidden::is_hidden;
use super::lowers::{all_lower, are_shallow};
use super::operators::same_scalar;
use super::statements::same_statements;
use cc_ast::{
    ConstantExpression, Declarator, External, Identifier, Object, Parameter, Scalar, Signature,
    Statement,
};

// ---- functions' heads

fn same_optional_name(one: &Option<Identifier>, other: &Option<Identifier>) -> bool
    ensures { result ≡ equal_option equal_name (option_map name_only (option_map name_tree one.now)) (option_map name_only (option_map name_tree other.now)) }
{
    match (one, other) {
        (Some(x), Some(y)) => same_name(x, y),
        (None, None) => true,
        _ => false,
    }
}

fn same_parameters(one: &[Parameter], other: &[Parameter]) -> bool
    ensures { result ≡ pointwise equal_parameter (map bare_parameter (map parameter_tree one.now)) (map bare_parameter (map parameter_tree other.now)) }
{
    if one.len() != other.len() {
        return false;
    }
    for i in 0..one.len() {
        if !(same_scalar(one[i].scalar, other[i].scalar)
            && same_optional_name(&one[i].name, &other[i].name))
        {
            return false;
        }
    }
    true
}

fn same_result(one: Option<Scalar>, other: Option<Scalar>) -> bool
    ensures { result ≡ equal_option equal_scalar one other }
{
    match (one, other) {
        (Some(t), Some(u)) => same_scalar(t, u),
        (None, None) => true,
        _ => false,
    }
}

fn same_signature(one: &Signature, other: &Signature) -> bool
    ensures { result ≡ equal_signature (bare_signature (signature_tree one.now)) (bare_signature (signature_tree other.now)) }
{
    same_result(one.result, other.result)
        && same_name(&one.name, &other.name)
        && same_parameters(one.parameters.as_slice(), other.parameters.as_slice())
}

// ---- objects

fn same_constant(one: &ConstantExpression, other: &ConstantExpression) -> bool
    ensures { result ≡ equal_constant (bare_constant (constant_tree one.now)) (bare_constant (constant_tree other.now)) }
{
    same_expression(&one.expression, &other.expression)
}

fn same_optional_constant(
    one: &Option<ConstantExpression>,
    other: &Option<ConstantExpression>,
) -> bool
    ensures { result ≡ equal_option equal_constant (option_map bare_constant (optional_constant one.now)) (option_map bare_constant (optional_constant other.now)) }
{
    match (one, other) {
        (Some(one), Some(other)) => same_constant(one, other),
        (None, None) => true,
        _ => false,
    }
}

fn same_constants(one: &[ConstantExpression], other: &[ConstantExpression]) -> bool
    ensures { result ≡ pointwise equal_constant (map bare_constant (constant_trees one.now)) (map bare_constant (constant_trees other.now)) }
{
    if one.len() != other.len() {
        return false;
    }
    for i in 0..one.len() {
        if !same_constant(&one[i], &other[i]) {
            return false;
        }
    }
    true
}

fn same_object(one: &Object, other: &Object) -> bool
    ensures { result ≡ equal_object (bare_object (object_tree one.now)) (bare_object (object_tree other.now)) }
{
    match (one, other) {
        (Object::Single(x, e), Object::Single(y, f)) => {
            same_name(x, y) && same_optional_constant(e, f)
        }
        (Object::Array(x, n, es), Object::Array(y, m, fs)) => {
            same_name(x, y)
                && same_optional_constant(n, m)
                && same_constants(es.as_slice(), fs.as_slice())
        }
        (Object::Bytes(x, n, es), Object::Bytes(y, m, fs)) => {
            same_name(x, y)
                && same_optional_constant(n, m)
                && same_constants(es.as_slice(), fs.as_slice())
        }
        _ => false,
    }
}

fn same_objects(one: &[Object], other: &[Object]) -> bool
    ensures { result ≡ pointwise equal_object (map bare_object (object_trees one.now)) (map bare_object (object_trees other.now)) }
{
    if one.len() != other.len() {
        return false;
    }
    for i in 0..one.len() {
        if !same_object(&one[i], &other[i]) {
            return false;
        }
    }
    true
}

// ---- bodies

// Whether the declarators are those of the hidden locals.
fn are_hidden(all: &[Declarator]) -> bool
    ensures { result ≡ are_hidden (bare_declarators (declarator_trees all.now)) }
{
    for i in 0..all.len() {
        if !(is_hidden(all.len() - 1 - i, &all[i].name) && all[i].initial.is_none()) {
            return false;
        }
    }
    true
}

// Whether this many switches are inside one another, one of them at least.
fn is_nesting(count: usize, wide: &[Statement]) -> bool
    ensures { result ≡ is_nesting count (wide_of wide.now) }
{
    count > 0 && are_shallow(count, wide) && !are_shallow(count - 1, wide)
}

// Whether statements may be lowered with this many hidden locals, and become these.
fn fit_with(count: usize, wide: &[Statement], trees: &[Statement]) -> bool
    ensures { result ≡ fit_with count (wide_of wide.now) (bare_statements (statements_of trees.now)) }
{
    all_lower(count, Around::Outside, 0, wide) && same_statements(Around::Outside, 0, wide, trees)
}

// Whether a body may be lowered, and becomes this one.
fn body_fits(wide: &[Statement], trees: &[Statement]) -> bool
    ensures { result ≡ body_fits (wide_of wide.now) (bare_statements (statements_of trees.now)) }
{
    if are_shallow(0, wide) {
        return fit_with(0, wide, trees);
    }
    match trees {
        [Statement::Local(scalar, names), rest @ ..] => {
            same_scalar(*scalar, Scalar::Unsigned)
                && are_hidden(names.as_slice())
                && is_nesting(names.as_slice().len(), wide)
                && fit_with(names.as_slice().len(), wide, rest)
        }
        _ => false,
    }
}

// ---- units

fn external_fits(wide: &External, tree: &External) -> bool
    ensures { result ≡ external_fits (wide_external (external_tree wide.now)) (bare_external (external_tree tree.now)) }
{
    match (wide, tree) {
        (External::Declaration(s), External::Declaration(t)) => same_signature(t, s),
        (External::Definition(s, all), External::Definition(t, body)) => {
            same_signature(t, s) && body_fits(all.as_slice(), body.as_slice())
        }
        (External::Objects(t, os), External::Objects(u, ps)) => {
            same_scalar(*u, *t) && same_objects(ps.as_slice(), os.as_slice())
        }
        _ => false,
    }
}

/// Whether a marked unit may be lowered, and becomes this one.
pub(crate) fn unit_fits(wide: &[External], tree: &[External]) -> bool
    ensures { result ≡ unit_fits (wide_unit (external_trees wide.now)) (map bare_external (external_trees tree.now)) }
{
    if wide.len() != tree.len() {
        return false;
    }
    for i in 0..wide.len() {
        if !external_fits(&wide[i], &tree[i]) {
            return false;
        }
    }
    true
}
