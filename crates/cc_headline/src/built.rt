// What the type of a compiled unit keeps, in the form that the protocol core requires.

ghost use Rattle.cc_headline.specs.Built.{MadeUnitsAreBuilt};

use cc_c_semantics::programs_call_main;
use cc_link::linked_units_follow;
use cc_syntax::trees_are_determined;
use cc_tokens::tokens_are_determined;

/// The pieces of a compiled unit, in the order of definitions, are all the pieces of its source, and they make up the unit. So a job
/// with these pieces can begin the commit of this unit.
pub fn made_units_are_built()
    ensures { MadeUnitsAreBuilt }
{
    tokens_are_determined();
    trees_are_determined();
    programs_call_main();
    linked_units_follow();
}
