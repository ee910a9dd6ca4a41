// From Cminor to RTL.

ghost use Rattle.std.specs.Prelude.{◌≡◌, ◌≤◌, ◌<◌, length, Some, slice_get, IfOk, IfErr};
ghost use Rattle.cc_c_semantics.specs.Resolved.{arities};
ghost use Rattle.cc_cminor_language.specs.Pair.{tree_of as cminor_tree, code_of};
ghost use Rattle.cc_cminor_language.specs.Size.{statement_size};
ghost use Rattle.cc_cminor_language.specs.declared.fault.CodeFault.TheVariants.{FunctionTooLarge};
ghost use Rattle.cc_rtl_language.specs.Rtl.{most_nodes};
ghost use Rattle.cc_rtl.specs.Size.{function_nodes};

use crate::generate::generate;
use crate::size::fits;
use cc_c_semantics::functions_are_resolved;
use cc_cminor_language::{CminorPair, CodeFault as RtlFault, variables_above};
use cc_rtl_language::{Rtl, RtlPair};
use cc_types::TypedUnit;
use std::alloc::Global;

// How many parameters the function has: at most 8.
fn parameters_of(pair: &CminorPair) -> u32
    ensures parameters { slice_get (arities (cminor_tree pair.now)) pair.now.function ≡ Some result }
    ensures few { result ≤ 8 }
{
    functions_are_resolved();
    let unit: &TypedUnit = pair.unit();
    let _kept = unit.externals();
    let definition = unit.definition(pair.function());
    let parameters = definition.signature.parameters.as_slice();
    parameters.len() as u32
}

/// Translates a function to RTL. The value of an expression is put directly into the variable that is set, and a condition's
/// comparison comes directly before its branch; labels ascend in the code's order.
///
/// Fails with `FunctionTooLarge` (22) exactly if the function would have more than 4,096 nodes, which takes more than 3,072
/// statements and expressions; and with `OutOfMemory` (40) if memory runs out. An error drops the pair.
pub fn to_rtl(alloc: Global, pair: CminorPair) -> Result<RtlPair, RtlFault>
    ensures mode { IfOk result (λ made. made.mode ≡ pair.mode) }
    ensures unit { IfOk result (λ made. made.unit ≡ pair.unit) }
    ensures function { IfOk result (λ made. made.function ≡ pair.function) }
    ensures nodes { IfOk result (λ made. length made.rtl.nodes ≡ function_nodes (code_of pair)) }
    ensures too_large { IfErr result (λ fault. fault ≡ FunctionTooLarge → most_nodes < function_nodes (code_of pair)) }
    ensures large { IfErr result (λ fault. fault ≡ FunctionTooLarge → 3072 < statement_size (code_of pair)) }
{
    let parameters = parameters_of(&pair);
    let mode = pair.mode();
    let function = pair.function();
    let code = pair.code();
    if !fits(code) {
        drop(pair);
        return Err(RtlFault::FunctionTooLarge);
    }
    let count = variables_above(parameters, code);
    match generate(alloc, count, code) {
        Ok(nodes) => {
            let rtl = Rtl::new(parameters, 0, nodes);
            Ok(RtlPair::new(mode, pair.into_unit(), function, rtl))
        }
        Err(_) => {
            drop(pair);
            Err(RtlFault::OutOfMemory)
        }
    }
}
