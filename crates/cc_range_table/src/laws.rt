// What holds for a unit whose table is inductive.

ghost use Rattle.cc_range_table.specs.Laws.{CallsStayInTable, OnlyDepthIsLeftByTable};

use cc_c_semantics::{calls_go_on, programs_call_main, units_have_meanings};
use cc_range::{
    comparisons_are_learned, covered_operators_have_values, operators_are_sound, ranges_are_sound,
};

/// Shows that each call of a function that is in an inductive table is answered in the table: its result, the objects after it, and
/// which objects it has changed.
pub fn calls_stay_in_table()
    ensures { CallsStayInTable }
{
    ranges_are_sound();
    operators_are_sound();
    covered_operators_have_values();
    comparisons_are_learned();
}

/// Shows that a typed unit whose table covers all operations never goes wrong in a division, a shift or an index, on any input and at
/// any bound: it goes wrong only because calls are nested too deep.
pub fn only_depth_is_left_by_table()
    ensures { OnlyDepthIsLeftByTable }
{
    ranges_are_sound();
    operators_are_sound();
    covered_operators_have_values();
    comparisons_are_learned();
    units_have_meanings();
    programs_call_main();
    calls_go_on();
}
