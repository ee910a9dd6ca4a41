// The checker.

ghost use Rattle.std.specs.Prelude.{◌≡◌, ◌↔◌, IsTrue};
ghost use Rattle.cc_ast.specs.Erase.{external_trees};
ghost use Rattle.cc_wide.specs.Laws.{IsTranslation};
ghost use Rattle.cc_wide_text.specs.Forms.{wide_unit};
ghost use Rattle.cc_wide_text.specs.Rules.{UnitKeepsLabels};
ghost use Rattle.cc_wide_check.specs.internal.Labels.{unit_keeps_labels};

use super::labels::all_keep_labels;
use super::units::unit_fits;
use cc_ast::External;

/// Whether a tree of C is a translation of the program that a marked tree is: whether the program may be lowered, and the tree is the
/// lowered one but for places and parentheses. Takes no memory. The recursion is as deep as the marked tree.
pub fn is_translation(marked: &[External], tree: &[External]) -> bool
    ensures { IsTrue result ↔ IsTranslation (wide_unit (external_trees marked.now)) (external_trees tree.now) }
{
    unit_fits(marked, tree)
}

/// Whether each switch of the program that a marked tree is keeps the rules of labels. Takes no memory. The recursion is as deep as the
/// marked tree.
pub fn keeps_labels(marked: &[External]) -> bool
    ensures { IsTrue result ↔ UnitKeepsLabels (wide_unit (external_trees marked.now)) }
{
    unit_keeps_labels(marked)
}

fn unit_keeps_labels(marked: &[External]) -> bool
    ensures { result ≡ unit_keeps_labels (wide_unit (external_trees marked.now)) }
{
    for external in marked {
        match external {
            External::Definition(_, body) => {
                if !all_keep_labels(body.as_slice()) {
                    return false;
                }
            }
            External::Declaration(_) | External::Objects(_, _) => {}
        }
    }
    true
}
