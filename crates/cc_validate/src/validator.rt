// The validator.

ghost use Rattle.std.specs.Prelude.{◌≡◌, ◌↔◌, ◌≤◌, length, All, IfOk, IfErr, IfSome, IfNone, IsTrue, IsSome};
ghost use Rattle.cc_bits.specs.Rows.{most_width};
ghost use Rattle.cc_rtl_language.specs.Rtl.{node_at};
ghost use Rattle.cc_ltl.specs.Ltl.{IsLtl};
ghost use Rattle.cc_validate.specs.Solution.{HasSolution};
ghost use Rattle.cc_validate.specs.Fault.{IsRefusal};
ghost use Rattle.cc_validate.specs.Pair.{tree_of, FollowsRtl};
ghost use Rattle.cc_validate.specs.internal.Facts.{IsClean, HoldsParametersAlone};

use crate::beside::apart;
use crate::code::Code;
use crate::fault::ValidateFault;
use crate::pair::LtlPair;
use crate::set::EquationSet;
use cc_flow::solve_backward;
use cc_ltl::Ltl;
use cc_rtl_language::{Rtl, RtlPair};
use std::alloc::Global;

/// Why LTL was refused, and the pair of RTL, handed back.
#[derive(Drop)]
pub struct Refused {
    pub pair: RtlPair,
    pub fault: ValidateFault,
}

/// The LTL in place of the RTL, if equations show that it does what the RTL does.
///
/// The answer is Ok exactly if the equations have a solution, whoever made the LTL, unless memory runs out. The LTL's run then follows
/// the RTL's, even if the source goes wrong and the RTL does not. A refusal hands the pair back as it was: 24 if there is no solution,
/// with a label at which the proof failed; 40 if memory ran out.
pub fn validate(alloc: Global, pair: RtlPair, ltl: Ltl) -> Result<LtlPair, Refused>
    ensures answer { IfOk result (λ made. made ≡ record { mode = pair.mode; unit = pair.unit; function = pair.function; ltl = ltl }) }
    ensures solved { IfOk result (λ _. HasSolution pair.rtl ltl) }
    ensures follows { IfOk result (λ made. FollowsRtl made.mode (tree_of made) made.function pair.rtl made.ltl) }
    ensures refused { IfErr result (λ refused. IsRefusal pair.rtl ltl refused.fault) }
    ensures hands_back { IfErr result (λ refused. refused.pair ≡ pair) }
{
    match decide(alloc, pair.code(), &ltl) {
        Ok(()) => {
            let mode = pair.mode();
            let function = pair.function();
            Ok(LtlPair::new(mode, pair.into_unit(), function, ltl))
        }
        Err(fault) => {
            drop(ltl);
            Err(Refused { pair, fault })
        }
    }
}

/// Whether there is a solution, and if not, why.
fn decide(alloc: Global, rtl: &Rtl, ltl: &Ltl) -> Result<(), ValidateFault>
    ensures solved { IfOk result (λ _. HasSolution rtl.now ltl.now) }
    ensures long { IfOk result (λ _. length ltl.now.blocks ≡ length rtl.now.nodes) }
    ensures ltl { IfOk result (λ _. IsLtl ltl.now) }
    ensures refused { IfErr result (λ fault. IsRefusal rtl.now ltl.now fault) }
{
    let _kept = rtl.len();
    let blocks = ltl.blocks();
    if ltl.entry() != rtl.entry() {
        return Err(ValidateFault::Unvalidated { label: rtl.entry() });
    }
    if let Some(label) = apart(rtl, blocks) {
        return Err(ValidateFault::Unvalidated { label });
    }
    let graph = match rtl.graph(alloc) {
        Ok(graph) => graph,
        Err(_) => return Err(ValidateFault::OutOfMemory),
    };
    let code = Code::new(rtl, blocks, words_for(ltl.slots()));
    let least = match solve_backward(alloc, &graph, &code) {
        Ok(least) => least,
        Err(_) => return Err(ValidateFault::OutOfMemory),
    };
    if let Some(label) = contradicted(rtl, least.as_slice()) {
        return Err(ValidateFault::Unvalidated { label });
    }
    let entry = &least.as_slice()[rtl.position(rtl.entry())];
    if !parameters_alone(rtl.parameters(), entry) {
        return Err(ValidateFault::Unvalidated { label: rtl.entry() });
    }
    Ok(())
}

/// How many words the bits of the registers and of this many slots occupy.
fn words_for(slots: u16) -> usize
    ensures { result ≤ most_width }
{
    let words = (32 + slots as usize) / 64 + 1;
    if words < 16 { words } else { 16 }
}

/// A label whose facts are the contradiction, if there is one.
fn contradicted(rtl: &Rtl, facts: &[EquationSet]) -> Option<u32>
    requires { length facts.now ≡ length rtl.now.nodes }
    ensures clean { IfNone result (All IsClean facts.now) }
    ensures contradicted { IfSome result (λ _. All IsClean facts.now → ⊥) }
    ensures there { IfSome result (λ label. IsSome (node_at rtl.now.nodes label)) }
{
    let count = rtl.len();
    let mut at = 0;
    while at < count {
        if !facts[at].is_clean() {
            return Some(at as u32);
        }
        at += 1;
    }
    None
}

/// Whether the facts have only equations of parameters, each with its location.
fn parameters_alone(parameters: u32, facts: &EquationSet) -> bool
    ensures { IsTrue result ↔ HoldsParametersAlone parameters facts.now }
{
    match facts.equations() {
        None => false,
        Some(equations) => equations.are_at_entry(parameters),
    }
}
