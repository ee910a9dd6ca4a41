// The Cminor of a function in a mode.

ghost use Rattle.std.specs.Prelude.{◌≡◌, ◌<◌, IfOk, IfErr};
ghost use Rattle.cc_c_semantics.specs.declared.mode.Mode.TheVariants.{Plain, Checked};
ghost use Rattle.cc_cminor_language.specs.Exits.{ExitsFit};
ghost use Rattle.cc_cminor_language.specs.Numbers.{most_lowered, StatementBelow};
ghost use Rattle.cc_cminor_language.specs.Pair.{tree_of, code_of, FailsAlike};
ghost use Rattle.cc_cminor_language.specs.Size.{AtMostTwelveAToken, AtMostOnePartialAToken};
ghost use Rattle.cc_rtl_language.specs.Rtl.{most_nodes};
ghost use Rattle.cc_rtl.specs.Size.{function_nodes};
ghost use Rattle.cc_cminor_language.specs.declared.fault.CodeFault.TheVariants.{FunctionTooLarge};
ghost use Rattle.cc_mode.specs.Long.{IsLongIn};

use cc_c_semantics::Mode;
use cc_cminor_language::CminorPair;
use cc_guard::{guard, guards_set_few};
use cc_rtl::RtlFault;
use std::alloc::Global;

// Cminor as it was lowered.
fn plain(pair: CminorPair) -> CminorPair
    requires { AtMostTwelveAToken (tree_of pair) pair.function (code_of pair) }
    ensures answer { result ≡ pair }
    ensures small { most_nodes < function_nodes (code_of pair) → IsLongIn Plain (tree_of pair) pair.function }
{
    pair
}

// Cminor with guards.
fn checked(alloc: Global, pair: CminorPair) -> Result<CminorPair, RtlFault>
    requires exits { ExitsFit 0 (code_of pair) }
    requires fails_alike { FailsAlike (tree_of pair) pair.function (code_of pair) }
    requires small { AtMostTwelveAToken (tree_of pair) pair.function (code_of pair) }
    requires operations { AtMostOnePartialAToken (tree_of pair) pair.function (code_of pair) }
    requires lowered { StatementBelow most_lowered (code_of pair) }
    ensures mode { IfOk result (λ made. made.mode ≡ Checked) }
    ensures unit { IfOk result (λ made. made.unit ≡ pair.unit) }
    ensures function { IfOk result (λ made. made.function ≡ pair.function) }
    ensures small { IfOk result (λ made. most_nodes < function_nodes (code_of made) → IsLongIn Checked (tree_of pair) pair.function) }
    ensures large { IfErr result (λ fault. fault ≡ FunctionTooLarge → IsLongIn Checked (tree_of pair) pair.function) }
{
    guards_set_few();
    match guard(alloc, pair) {
        Ok(made) => Ok(made),
        Err(fault) => Err(fault),
    }
}

/// The Cminor of a function in a mode, from its Cminor as it was lowered: unchanged, or with guards in the checked mode. The
/// pair's type guarantees that the code keeps up with the function in that mode. The RTL of the code would be too large only
/// for a definition of more than 256 tokens, or 177 for a checked one (`small`).
///
/// `FunctionTooLarge` (22) if guards would set more than 2,048 variables, which also takes a definition of more than 177
/// tokens; `OutOfMemory` (40) if memory runs out. An error drops the pair.
pub fn guarded_in(alloc: Global, mode: Mode, pair: CminorPair) -> Result<CminorPair, RtlFault>
    requires plain { pair.mode ≡ Plain }
    requires exits { ExitsFit 0 (code_of pair) }
    requires fails_alike { FailsAlike (tree_of pair) pair.function (code_of pair) }
    requires small { AtMostTwelveAToken (tree_of pair) pair.function (code_of pair) }
    requires operations { AtMostOnePartialAToken (tree_of pair) pair.function (code_of pair) }
    requires lowered { StatementBelow most_lowered (code_of pair) }
    ensures mode { IfOk result (λ made. made.mode ≡ mode) }
    ensures unit { IfOk result (λ made. made.unit ≡ pair.unit) }
    ensures function { IfOk result (λ made. made.function ≡ pair.function) }
    ensures small { IfOk result (λ made. most_nodes < function_nodes (code_of made) → IsLongIn mode (tree_of pair) pair.function) }
    ensures large { IfErr result (λ fault. fault ≡ FunctionTooLarge → IsLongIn mode (tree_of pair) pair.function) }
{
    match mode {
        Mode::Plain => Ok(plain(pair)),
        Mode::Checked => checked(alloc, pair),
    }
}
