// The compiler's passes over a function, up to a step. A step includes those before it, so what it costs is the difference
// between two steps.

use cc_link::{Allocation, Mode, Seen, Watch, compile, compile_watched_in};
use cc_ltl::read_ltl;
use cc_syntax::parse;
use cc_types::TypedUnit;
use cc_typing::check;
use std::alloc::{AllocError, Global};
use std::sync::Arc;

/// How far a turn goes.
#[derive(Clone, Copy)]
pub enum Step {
    /// The function's RTL.
    Rtl,
    /// RTL without the nodes that nobody needs, and its live sets.
    Live,
    /// LTL with values in registers.
    Colour,
    /// The validator on the LTL of `Colour`.
    Check,
    /// LTL with a slot for each value.
    Spill,
    /// The validator on the LTL of `Spill`.
    Validate,
    /// The validator on LTL that was handed in.
    Judge,
}

impl Step {
    /// The step with that name.
    pub fn named(name: &str) -> Option<Step> {
        match name {
            "rtl" => Some(Step::Rtl),
            "live" => Some(Step::Live),
            "colour" => Some(Step::Colour),
            "check" => Some(Step::Check),
            "spill" => Some(Step::Spill),
            "validate" => Some(Step::Validate),
            "judge" => Some(Step::Judge),
            _ => None,
        }
    }

    // The allocation that the step uses; None if the LTL is refused.
    fn allocation(self, alloc: Global, ltl: &[u8]) -> Option<Allocation> {
        match self {
            Step::Rtl | Step::Live | Step::Colour | Step::Check => Some(Allocation::Chosen),
            Step::Spill | Step::Validate => Some(Allocation::Spilled),
            Step::Judge => Some(Allocation::Given(read_ltl(alloc, ltl).ok()?)),
        }
    }

    // Whether the step ends at what is seen.
    fn ends_at(self, seen: Seen<'_>) -> bool {
        match self {
            Step::Rtl => matches!(seen, Seen::Rtl(_)),
            Step::Live => matches!(seen, Seen::Pruned(_)),
            Step::Colour | Step::Spill => matches!(seen, Seen::Allocated(_, _)),
            Step::Check | Step::Validate | Step::Judge => {
                matches!(seen, Seen::Validated(_) | Seen::Refused(_))
            }
        }
    }
}

// Watches a function, and stops it at the end of a step.
#[derive(Drop)]
struct Until {
    step: Step,
    // How many nodes the function's RTL has.
    nodes: usize,
    // Whether the step came to its end, and nothing was refused.
    is_done: bool,
}

impl Watch for Until {
    fn see(&mut self, seen: Seen<'_>) -> Result<(), AllocError> {
        if let Seen::Rtl(rtl) = seen {
            self.nodes = rtl.len();
        }
        if self.step.ends_at(seen) {
            self.is_done = !matches!(seen, Seen::Refused(_));
            return Err(AllocError);
        }
        Ok(())
    }
}

/// Compiles a text `times` times. The result is how many words its code has.
pub fn compiled(alloc: Global, text: &[u8], times: u32) -> Option<usize> {
    let mut words = 0;
    for _ in 0..times {
        let unit = compile(alloc, text).ok()?;
        words = unit.stored().image.code.words().len();
        drop(unit);
    }
    Some(words)
}

/// Reads and checks a text once, and takes its first function up to the step `times` times. The result is how many nodes its RTL
/// has. None if the text, the function or its LTL is refused.
pub fn again(alloc: Global, text: &[u8], step: Step, ltl: &[u8], times: u32) -> Option<usize> {
    let unit = check(alloc, parse(alloc, text).ok()?).ok()?;
    let unit = Arc::new(alloc, unit).ok()?;
    let mut nodes = 0;
    for _ in 0..times {
        nodes = turn(alloc, &unit, step, ltl)?;
    }
    Some(nodes)
}

fn turn(alloc: Global, unit: &Arc<TypedUnit>, step: Step, ltl: &[u8]) -> Option<usize> {
    if unit.functions() == 0 {
        return None;
    }
    let allocation = step.allocation(alloc, ltl)?;
    let mut until = Until {
        step,
        nodes: 0,
        is_done: false,
    };
    let piece = compile_watched_in(alloc, Mode::Plain, unit, 0, allocation, &mut until);
    drop(piece);
    if until.is_done {
        Some(until.nodes)
    } else {
        None
    }
}
