// Whether two actions or declarations are alike.

ghost use Rattle.std.specs.Prelude.{◌≡◌};
ghost use Rattle.std.specs.Cmp.Lexicographic.{pointwise};
ghost use Rattle.cc_ast.specs.Erase.{target_tree, action_tree, optional_action, declarator_tree, declarator_trees, beginning_tree};
ghost use Rattle.cc_wide.specs.Places.{bare_target, bare_action, bare_declarators, bare_beginning};
ghost use Rattle.std.specs.Prelude.{option_map};
ghost use Rattle.cc_wide_check.specs.internal.Equal.{equal_option, equal_target, equal_action, equal_declarator, equal_beginning};

use super::expressions::{same_expression, same_name, same_optional};
use super::operators::{same_assignment, same_scalar, same_step};
use cc_ast::{Action, Beginning, Declarator, Target};

fn same_target(one: &Target, other: &Target) -> bool
    ensures { result ≡ equal_target (bare_target (target_tree one.now)) (bare_target (target_tree other.now)) }
{
    match (one, other) {
        (Target::Variable(x), Target::Variable(y)) => same_name(x, y),
        (Target::Element(x, e), Target::Element(y, f)) => {
            same_name(x, y) && same_expression(e, f)
        }
        _ => false,
    }
}

fn same_action(one: &Action, other: &Action) -> bool
    ensures { result ≡ equal_action (bare_action (action_tree one.now)) (bare_action (action_tree other.now)) }
{
    match (one, other) {
        (Action::Assign(o, x, e), Action::Assign(p, y, f)) => {
            same_assignment(*o, *p) && same_target(x, y) && same_expression(e, f)
        }
        (Action::Step(o, x), Action::Step(p, y)) => same_step(*o, *p) && same_target(x, y),
        (Action::Evaluate(e), Action::Evaluate(f)) => same_expression(e, f),
        _ => false,
    }
}

/// Whether two actions that may be absent are alike.
pub(crate) fn same_optional_action(one: &Option<Action>, other: &Option<Action>) -> bool
    ensures { result ≡ equal_option equal_action (option_map bare_action (optional_action one.now)) (option_map bare_action (optional_action other.now)) }
{
    match (one, other) {
        (Some(one), Some(other)) => same_action(one, other),
        (None, None) => true,
        _ => false,
    }
}

/// Whether the names in two declarations of locals are alike.
pub(crate) fn same_declarators(one: &[Declarator], other: &[Declarator]) -> bool
    ensures { result ≡ pointwise equal_declarator (bare_declarators (declarator_trees one.now)) (bare_declarators (declarator_trees other.now)) }
{
    if one.len() != other.len() {
        return false;
    }
    for i in 0..one.len() {
        if !(same_name(&one[i].name, &other[i].name)
            && same_optional(&one[i].initial, &other[i].initial))
        {
            return false;
        }
    }
    true
}

/// Whether the first parts of two `for` headers are alike.
pub(crate) fn same_beginning(one: &Beginning, other: &Beginning) -> bool
    ensures { result ≡ equal_beginning (bare_beginning (beginning_tree one.now)) (bare_beginning (beginning_tree other.now)) }
{
    match (one, other) {
        (Beginning::Declaration(t, ds), Beginning::Declaration(u, es)) => {
            same_scalar(*t, *u) && same_declarators(ds.as_slice(), es.as_slice())
        }
        (Beginning::Action(a), Beginning::Action(b)) => same_optional_action(a, b),
        _ => false,
    }
}
