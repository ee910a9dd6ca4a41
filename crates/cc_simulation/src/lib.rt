//! What it means that one run follows another: outcomes and behaviors, the run of one function of an intermediate language, when
//! a run keeps up with the source's meaning, and the order in which unknown words are taken. All of it is in `specs/`, generic
//! over the language. The functions here do nothing; the contract of each is a law of these definitions. The laws of simulations
//! are lemmas (`proofs/Simulating`, `proofs/Lockstep`), because they range over relations, which no contract can.
//!
//! A pass guarantees that its code's run keeps up with the source (`Tracks`), because rates and bounds multiply from pass to
//! pass. Other crates use only what follows from it: the run follows the source (`Follows`).
#![tactic(auto)]

ghost use Rattle.cc_simulation.specs.Laws.{FollowsItself, FollowsOn, FollowsOnForAll, FollowsInWords, CutsAreComparable, TrackedFollows, TrackedFollowsForAll};

/// Shows that each behavior follows itself.
pub fn follows_itself<B, R>()
    ensures { FollowsItself B R }
{}

/// Shows that following is transitive: if one behavior follows a second one, and the second follows a third, the first follows
/// the third; also for every list of unknown words, with one bound for all lists.
pub fn follows_on<A, B, C, R>()
    ensures each { FollowsOn A B C R }
    ensures for_all { FollowsOnForAll A B R }
{}

/// Shows that what follows a behavior also follows it if only the written words are seen.
pub fn follows_in_words<B, C, R>()
    ensures { FollowsInWords B C R }
{}

/// Shows that two cuts of one run are comparable: one is the beginning of the other, and did no more work.
pub fn cuts_are_comparable<C>()
    ensures { CutsAreComparable C }
{}

/// Shows that a run that keeps up with the source follows it; also for every list of unknown words, with one bound for all lists.
pub fn tracked_follows<C>()
    ensures each { TrackedFollows C }
    ensures for_all { TrackedFollowsForAll C }
{}
