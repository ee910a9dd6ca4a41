// What serving needs from a spool.

ghost use Rattle.std.specs.Prelude.{◌≡◌, ◌++◌, ◌∷◌, [], true, List, IfSome, IfNone};
ghost use Rattle.cc_spool.specs.Spool.{Delivered, Taken, delivered_as, taken_as};

use std::io::{Read, Write};

/// The source of one client's scripts, and the destination of their answers.
///
/// The client asks whether more is to be taken, takes a script, writes its answer, hands the answer over, and asks again. It has at most
/// one script in hand: `next` gives none until the answer of the last one was handed over. No method waits for long: `next` waits for at
/// most 64 ms if there is no script, and the others do not wait.
pub trait Spool {
    /// What a script is read from.
    type Script: Read + Drop + Send;

    /// What its answer is written to.
    type Answer: Write + Drop + Send;

    /// The scripts that were taken so far, in order: for each its bytes, and the contents of the writer of its answer at that time, if
    /// these are known.
    ghost taken: { Self → List Taken };

    /// The answers that were handed over so far, in order: for each the contents of its writer, if these are known, and the number of the
    /// fault that ended its script, 51 to 54 or 61, if one did.
    ghost ended: { Self → List Delivered };

    /// No script is in hand: the answer of the last one that was taken was handed over.
    ghost idle: { Self → Type 0 };

    /// The spool has said that no more is to be taken.
    ghost over: { Self → Type 0 };

    /// Whether no more is to be taken.
    fn is_over(&mut self) -> bool
        ensures said { result ≡ true → over self.new }
        ensures idle { idle self.new → idle self.old }
        ensures taken { taken self.new ≡ taken self.old }
        ensures ended { ended self.new ≡ ended self.old };

    /// The next script, and what its answer is to be written to; none if no script came within 64 ms, or one is in hand.
    fn next(&mut self) -> Option<(Self::Script, Self::Answer)>
        ensures taken { IfSome result (λ job. taken self.new ≡ taken self.old ++ taken_as (Self.Script.remaining job.0) (Self.Answer.contents job.1) ∷ []) }
        ensures none { IfNone result (taken self.new ≡ taken self.old) }
        // One script after the other: none is in hand before the call, and this one is in hand after it.
        ensures turn { IfSome result (λ _. idle self.old × (¬ idle self.new)) }
        ensures idle { IfNone result (idle self.new → idle self.old) }
        ensures ended { ended self.new ≡ ended self.old };

    /// Whether the script that is being run has run for as long as a script may while others wait. This is called after each line, so it
    /// does no more than look at the clock.
    fn is_long(&self) -> bool;

    /// Whether others wait for the end of the script that is being run: a script waits and all clients are busy, or no more scripts are to
    /// be taken.
    fn is_awaited(&self) -> bool;

    /// Hands over the answer of the script. `fault` is the number of the fault that ended the script, 51 to 54 or 61, if one did. With 54
    /// the answer may be cut off anywhere, and has no line for that fault.
    fn deliver(&mut self, script: Self::Script, answer: Self::Answer, fault: Option<u32>)
        ensures taken { taken self.new ≡ taken self.old }
        ensures ended { ended self.new ≡ ended self.old ++ delivered_as (Self.Answer.contents answer) fault ∷ [] };
}
