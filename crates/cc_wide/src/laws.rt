// What holds for programs of wide C.

ghost use Rattle.cc_wide.specs.Laws.{FollowersFollow, SwitchesAreLowered, TranslationsDoTheSame, TranslationsWriteTheSame};
ghost use Rattle.cc_wide.specs.Places.{PlacesMeanNothing};

/// Shows that a program of wide C and the program of C to which it is lowered do the same: on each input and within each number of
/// steps they write the same words, read at the same places among them, and end in the same way, with the same cause if they go wrong.
pub fn switches_are_lowered()
    ensures { SwitchesAreLowered }
{}

/// Shows that a program of C does the same whatever the places of its names and keywords, and with or without parentheses around parts
/// that are one part anyhow.
pub fn places_mean_nothing()
    ensures { PlacesMeanNothing }
{}

/// Shows that a tree of C that differs from the lowered unit in places and parentheses alone does what the unit of wide C does, and that
/// whatever follows the former follows the latter.
pub fn translations_do_the_same()
    ensures same { TranslationsDoTheSame }
    ensures words { TranslationsWriteTheSame }
    ensures follow { FollowersFollow }
{}
