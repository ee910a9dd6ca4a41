// Laws of the definitions, each the contract of a function that does nothing.

ghost use Rattle.cc_simulation.specs.Cuts.{IsLayer};
ghost use Rattle.cc_rtl_language.specs.Rtl.{Rtl, rtl_move, rtl_output};

/// Shows that the nodes of a function are the moves of a layer: outputs only grow, and a call passes on the output so far and
/// continues from the output of its answer.
pub fn rtl_is_a_layer()
    ensures { (rtl : Rtl) → IsLayer (rtl_move rtl) rtl_output }
{}
