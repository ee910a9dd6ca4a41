// What holds for runs that have not read past their input, and on inputs that never end.

ghost use Rattle.cc_endless.specs.Laws.{ProgramsIgnoreMore, ProgramsIgnoreRest, ProgramsReadAtMost, ImagesIgnoreMore, ImagesIgnoreRest, ImagesReadAtMost, ProgramsShowOneOutcome, ImagesShowOneOutcome, AgreeOnEndless, AgreeInOnEndless, BackedOnEndless};
ghost use Rattle.cc_endless.specs.Divisions.{DivisionsGoWrong, DivisionsGoOn, FivesGoOn, ImagesOfDivisionsGoOn};

/// Shows that a program's run that has not read past its input is the run on every longer input, and that a run that has read no
/// further than a first part of its input is the run on that part.
pub fn programs_stay_within()
    ensures more { ProgramsIgnoreMore }
    ensures rest { ProgramsIgnoreRest }
{}

/// Shows that within a number of steps a program reads at most so many times, whatever its input.
pub fn programs_read_at_most()
    ensures { ProgramsReadAtMost }
{}

/// Shows the same for an image, within a number of instructions.
pub fn images_stay_within()
    ensures more { ImagesIgnoreMore }
    ensures rest { ImagesIgnoreRest }
{}

/// Shows that an image reads at most once in an instruction.
pub fn images_read_at_most()
    ensures { ImagesReadAtMost }
{}

/// Shows that within each bound a program and an image show exactly one outcome on an input that never ends.
pub fn outcomes_are_one()
    ensures programs { ProgramsShowOneOutcome }
    ensures images { ImagesShowOneOutcome }
{}

/// Shows that an image that agrees with a text agrees with it also on inputs that never end: in each mode, and on each board with enough
/// stack.
pub fn agreement_is_endless()
    ensures plain { AgreeOnEndless }
    ensures mode { AgreeInOnEndless }
    ensures backed { BackedOnEndless }
{}

/// Shows that agreement on lists can promise little and agreement on endless inputs all: the program
/// `int main(void){for(;;)100/read_word();}` goes wrong on every list. On an endless input without a zero it goes on for ever, and so does
/// each image that agrees with it.
pub fn lists_are_not_enough()
    ensures lists { DivisionsGoWrong }
    ensures endless { DivisionsGoOn }
    ensures fives { FivesGoOn }
    ensures images { ImagesOfDivisionsGoOn }
{}
