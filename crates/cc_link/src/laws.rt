// The laws of linking, which follow from its definition alone, and the laws of lower crates that they rest on.

ghost use Rattle.cc_tokens.specs.Tokens.{TokensAreOne};
ghost use Rattle.cc_ast.specs.Limits.{TreesAreOne};
ghost use Rattle.cc_c_semantics.specs.Calls.{ObjectsAreSized, TypedUnitsHaveMain};
ghost use Rattle.cc_c_semantics.specs.Numbered.{CheckedFollows, ProgramsAreNumbered, TypedUnitsHaveMeanings};
ghost use Rattle.cc_link.specs.Laws.{AgreeInAgree, AgreeInModeInWords, AgreeInWords, LinkedUnitsAgree, LinkedUnitsFollow, MadeUnitsAreCertified, UnitsAreCertifiedIn};
ghost use Rattle.cc_link.specs.Stack.{LinkedUnitsAreBacked};

use cc_c_semantics::{
    names_have_numbers, programs_are_checked, programs_call_main, units_have_meanings,
};
use cc_syntax::trees_are_determined;
use cc_tokens::tokens_are_determined;

// The laws of texts and of units, gathered for this crate's proofs.
pub(crate) fn unit_laws()
    ensures tokens { TokensAreOne }
    ensures trees { TreesAreOne }
    ensures meanings { TypedUnitsHaveMeanings }
    ensures mains { TypedUnitsHaveMain }
    ensures programs { ProgramsAreNumbered }
    ensures sized { ObjectsAreSized }
    ensures checked { CheckedFollows }
{
    tokens_are_determined();
    trees_are_determined();
    units_have_meanings();
    programs_call_main();
    programs_are_checked();
    names_have_numbers();
}

/// The unit that the pieces of a checked unit make, in whatever order, has the checked unit's text, and its image agrees with this text.
pub fn linked_units_agree()
    ensures { LinkedUnitsAgree }
{
    unit_laws();
}

/// What agrees also agrees if only the written words are seen, without the reads.
pub fn agreement_in_words()
    ensures plain { AgreeInWords }
    ensures mode { AgreeInModeInWords }
{}

/// In each mode the image follows its program also on a board with less stack, as long as it has what the pieces' frames and calls take.
pub fn linked_units_are_backed()
    ensures { LinkedUnitsAreBacked }
{
    unit_laws();
}

/// A unit that pieces link to has a certificate. It spells one LTL function for each function of the unit's source, and the run of each
/// LTL function keeps up with its function.
pub fn made_units_are_certified()
    ensures { MadeUnitsAreCertified }
{
    unit_laws();
}

/// In each mode the unit that the pieces of a checked unit make has the checked unit's text, and on every input the run of its image
/// follows what the program shows in that mode, so the image agrees with the text. The unit's certificate spells LTL whose runs keep up
/// in that mode.
pub fn linked_units_follow()
    ensures follow { LinkedUnitsFollow }
    ensures agree { AgreeInAgree }
    ensures certified { UnitsAreCertifiedIn }
{
    unit_laws();
}
