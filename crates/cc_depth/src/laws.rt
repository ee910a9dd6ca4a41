// What holds for programs whose calls have no cycle.

ghost use Rattle.cc_depth.specs.Laws.{AcyclicProgramsAreNeverDeep};

/// Shows that a program whose calls have no cycle never has more than 1,024 open calls, on any input. So a checked image of the
/// program is right for every input: the exception for too many open calls never applies.
pub fn acyclic_programs_are_never_deep()
    ensures { AcyclicProgramsAreNeverDeep }
{}
