// Laws of the definitions. Each is the contract of a function that does nothing.

ghost use Rattle.std.specs.Prelude.{◌≡◌, List, ℕ};
ghost use Rattle.cc_simulation.specs.Cuts.{IsLayer};
ghost use Rattle.cc_ltl.specs.Ltl.{Ltl as Function, ltl_move, ltl_output};
ghost use Rattle.cc_ltl.specs.Bytes.{Spells};

/// No bytes spell two functions, and no function has two spellings.
pub fn spellings_are_determined()
    ensures one_function { (bytes : List ℕ) (l m : Function) → Spells bytes l → Spells bytes m → l ≡ m }
    ensures one_spelling { (a b : List ℕ) (l : Function) → Spells a l → Spells b l → a ≡ b }
{}

/// The blocks of a function are moves of a layer: output only grows; a call hands over the output so far, and the run goes on
/// with the output of the call's answer.
pub fn ltl_is_a_layer()
    ensures { (arity : ℕ → ℕ) (l : Function) → IsLayer (ltl_move arity l) ltl_output }
{}
