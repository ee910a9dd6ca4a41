// Counts the steps of a run.
//
// The interpreter says how a run ends within a bound, but not after how many steps. A run that ends within some bound ends
// within each larger one, so the least bound is found by bisection. If the run is known to be still going within some number of
// steps, no bound above twice that number plus two is tried. So a search consists of runs that are at most twice as long as the
// one that is counted, and none of them is given the whole bound.

ghost use Rattle.std.specs.Prelude.{◌≡◌, ◌≢◌, ◌↔◌, IsTrue, IfOk};
ghost use Rattle.cc_c_semantics.specs.Outcome as outcome;
ghost use Rattle.cc_ast.specs.Source.{source};
ghost use Rattle.cc_c_semantics.specs.Meaning.{source_behavior};
ghost use Rattle.cc_meaning.specs.Erase.{outcome_tree};
ghost use Rattle.cc_steps.specs.Count.{IsStepCount};

use cc_meaning::{MeaningFault, Outcome, Stop, interpret, runs_go_on};
use cc_types::TypedUnit;
use std::alloc::Global;

/// How a run ends, and after how many steps.
#[derive(Drop)]
pub struct CountedOutcome {
    pub outcome: Outcome,
    pub steps: u64,
}

// Whether a run is still going.
fn is_going(done: &Outcome) -> bool
    ensures { IsTrue result ↔ ((outcome_tree done.now).stop ≡ outcome.Going) }
{
    matches!(done.stop, Stop::Going)
}

// Whether a program is still going after this many steps.
fn goes(alloc: Global, unit: &TypedUnit, input: &[u32], steps: u64) -> Result<bool, MeaningFault>
    ensures { IfOk result (λ goes. IsTrue goes ↔ ((source_behavior (source unit.now) input.now steps).stop ≡ outcome.Going)) }
{
    match interpret(alloc, unit, input, steps) {
        Ok(outcome) => {
            let is_going = is_going(&outcome);
            drop(outcome);
            Ok(is_going)
        }
        Err(fault) => Err(fault),
    }
}

// The least number of steps within which a program has ended. It has to end within the bound.
fn least(alloc: Global, unit: &TypedUnit, input: &[u32], bound: u64) -> Result<u64, MeaningFault>
    requires { (source_behavior (source unit.now) input.now bound).stop ≢ outcome.Going }
    ensures { IfOk result (IsStepCount (source unit.now) bound input.now) }
{
    runs_go_on();
    let mut low = 0;
    let mut high = bound;
    while low < high {
        let tried = low + low.min((high - low) / 2);
        if goes(alloc, unit, input, tried)? {
            low = tried + 1;
        } else {
            high = tried;
        }
    }
    Ok(high)
}

/// What a program does on the words of an input within `steps` steps, and the least number of steps with that result; the
/// bound, if the run is still going at the bound. Fails with 40 if memory runs out.
pub fn interpret_counted(
    alloc: Global,
    unit: &TypedUnit,
    input: &[u32],
    steps: u64,
) -> Result<CountedOutcome, MeaningFault>
    ensures outcome { IfOk result (λ done. outcome_tree done.outcome ≡ source_behavior (source unit.now) input.now steps) }
    ensures count { IfOk result (λ done. IsStepCount (source unit.now) steps input.now done.steps) }
{
    let outcome = match interpret(alloc, unit, input, steps) {
        Ok(outcome) => outcome,
        Err(fault) => return Err(fault),
    };
    if is_going(&outcome) {
        runs_go_on();
        return Ok(CountedOutcome { outcome, steps });
    }
    match least(alloc, unit, input, steps) {
        Ok(steps) => Ok(CountedOutcome { outcome, steps }),
        Err(fault) => {
            drop(outcome);
            Err(fault)
        }
    }
}
