// What the answers of the public calls are worth.

ghost use Rattle.cc_range_check.specs.Laws.{CoversIfNoneIsListed, StartsAreInTable};

use cc_range::ranges_are_sound;

/// Shows that a table covers all operations of a function's code exactly if none is listed as not covered.
pub fn covers_if_none_is_listed()
    ensures { CoversIfNoneIsListed }
{}

/// Shows that the call of main is in the table, on every input, if the test of the words before the run succeeds.
pub fn starts_are_in_table()
    ensures { StartsAreInTable }
{
    ranges_are_sound();
}
