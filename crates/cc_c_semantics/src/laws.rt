// What holds for the meaning of every program.

ghost use Rattle.cc_c_semantics.specs.Calls.{BodiesGoOn, BodiesKeepObjects, CallsAreEffects, CallsGoOn, CallsKeepObjects, FunctionsAreNumbered, ObjectsAreNumbered, ObjectsAreSized, ProgramsCallMain, TypedUnitsHaveMain};
ghost use Rattle.cc_c_semantics.specs.Checked.{ProgramsAreChecked};
ghost use Rattle.cc_c_semantics.specs.Function.{TypedUnitsHaveMeaning, ObservedRunsGoOn, RunsGoOn};
ghost use Rattle.cc_c_semantics.specs.Numbered.{CallsAreNumbered, CheckedFollows, CheckedFollowsInWords, ProgramsAreNumbered, TypedUnitsHaveMeanings};
ghost use Rattle.cc_c_semantics.specs.Resolved.{FunctionsAreResolved};

/// Shows that each function of a typed unit has a meaning. A call with no step left is unfinished. A call made while 1,024 calls
/// are open spends a step and goes wrong. Any other call does what the function's body does with one step less.
pub fn functions_have_meaning()
    ensures { TypedUnitsHaveMeaning }
{}

/// Shows that with more steps a run continues. If the shorter run ended or went wrong, the longer run does the same; otherwise
/// the shorter run's output is the beginning of the longer run's output.
pub fn runs_go_on()
    ensures { RunsGoOn }
{}

/// Shows that with more steps a run continues also in the order of its reads and writes.
pub fn observed_runs_go_on()
    ensures { ObservedRunsGoOn }
{}

/// Shows that a call in the tree does what its name refers to. A builtin writes or reads; a function of the unit has the effect
/// of the function with its number. Neither the bound on the recursion nor the caller's locals matter.
pub fn calls_are_effects()
    ensures { CallsAreEffects }
{}

/// Shows that a call, or the body of a function, only adds to what is written already, and that with more steps it continues. A
/// call or body that answers needs no more steps than it spends, and gives the same answer with any number more.
pub fn calls_go_on()
    ensures calls { CallsGoOn }
    ensures bodies { BodiesGoOn }
{}

/// Shows that a call, or the body of a function, leaves the objects with the same names and sizes.
pub fn calls_keep_objects()
    ensures calls { CallsKeepObjects }
    ensures bodies { BodiesKeepObjects }
{}

/// Shows that functions and objects are numbered as their names are, and that in a typed unit each object has the size that the
/// layout gives it.
pub fn names_have_numbers()
    ensures functions { FunctionsAreNumbered }
    ensures objects { ObjectsAreNumbered }
    ensures sizes { ObjectsAreSized }
{}

/// Shows that a typed unit defines `main`, without parameters, and that a program's run is the call of `main`.
pub fn programs_call_main()
    ensures main { TypedUnitsHaveMain }
    ensures run { ProgramsCallMain }
{}

/// Shows what names in the functions of a typed unit refer to. A variable that is read or assigned is a local in scope or an
/// object of one word. A name that is indexed is an object. A call is a call of a builtin or of a function of the unit, with the
/// right number of arguments.
pub fn functions_are_resolved()
    ensures { FunctionsAreResolved }
{}

/// Shows that a checked program shows what its source shows until the source goes wrong. If the source goes wrong for a cause
/// other than depth, the checked program runs for ever with the output so far. The checked program goes wrong only if calls in
/// the source are nested too deep. Whatever follows the checked program follows the source, also if only the words are seen.
pub fn programs_are_checked()
    ensures checked { ProgramsAreChecked }
    ensures follows { CheckedFollows }
    ensures words { CheckedFollowsInWords }
{}

/// Shows that in each mode a typed unit has a meaning by number, and that its calls, its bodies and its run are the same by
/// number and by name.
pub fn units_have_meanings()
    ensures meaning { TypedUnitsHaveMeanings }
    ensures calls { CallsAreNumbered }
    ensures programs { ProgramsAreNumbered }
{}
