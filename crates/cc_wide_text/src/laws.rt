// What holds for texts of wide C.

ghost use Rattle.cc_wide_text.specs.Program.{MarkedTreesAreOne, ProfileUnitsStay, WideTreesAreOne};

use cc_syntax::trees_are_determined;
use cc_tokens::tokens_are_determined;

/// Shows that a text has at most one marked tree, and is at most one program.
pub fn wide_trees_are_one()
    ensures trees { MarkedTreesAreOne }
    ensures programs { WideTreesAreOne }
{
    tokens_are_determined();
    trees_are_determined();
}

/// Shows that a unit without switches is lowered to itself.
pub fn profile_units_stay()
    ensures { ProfileUnitsStay }
{}
