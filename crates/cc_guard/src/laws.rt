// What holds for all guarded code.

ghost use Rattle.cc_guard.specs.Laws.{GuardsSetFew, UnguardedStays};
ghost use Rattle.cc_guard.specs.Safe.{OnlyDepthIsLeft};

use cc_c_semantics::{calls_go_on, programs_call_main, units_have_meanings};

/// Shows that guards set at most two variables for each operation that can lack a value.
pub fn guards_set_few()
    ensures { GuardsSetFew }
{}

/// Shows that code without guards stays as it was, with no loop at its end.
pub fn unguarded_code_stays()
    ensures { UnguardedStays }
{}

/// Shows that a typed unit in which no function needs a guard never goes wrong in a division, a shift or an index, on any input
/// and at any bound: it goes wrong only because calls are nested too deep.
pub fn only_depth_is_left()
    ensures { OnlyDepthIsLeft }
{
    units_have_meanings();
    programs_call_main();
    calls_go_on();
}
