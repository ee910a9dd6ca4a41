// What holds for ranges.

ghost use Rattle.cc_range.specs.Laws.{WordsAreInRange, WithinIsSound, JoinedIsSound, MetIsSound, UnaryIsSound, BinaryIsSound, KeptIsSound, CoveredHasValue, IndexIsInside, LearnedIsSound};

/// Shows that each word is in the ranges that are named after it (`words`), that a word of a range is in every range that the
/// first is within (`within`), and that a word is in the join of its range with another (`joined`), and in the meet of its two
/// ranges (`met`).
pub fn ranges_are_sound()
    ensures words { WordsAreInRange }
    ensures within { WithinIsSound }
    ensures joined { JoinedIsSound }
    ensures met { MetIsSound }
{}

/// Shows that an operator's value, and what an element keeps of a word, is in the range that is computed from the ranges of its
/// operands.
pub fn operators_are_sound()
    ensures unary { UnaryIsSound }
    ensures binary { BinaryIsSound }
    ensures kept { KeptIsSound }
{}

/// Shows that a covered operator has a value for all operands of the ranges (`values`), and that a covered index is inside its
/// object (`indexes`).
pub fn covered_operators_have_values()
    ensures values { CoveredHasValue }
    ensures indexes { IndexIsInside }
{}

/// Shows that the operands of a comparison are in the ranges that its outcome shows.
pub fn comparisons_are_learned()
    ensures { LearnedIsSound }
{}
