// From a text to its program. Every text passes through here, whether it is checked, run, compiled, audited or shown. A text
// leads to one program or one fault.

ghost use Rattle.std.specs.Prelude.{◌≡◌, ◌≤◌, length, IfOk, IfErr};
ghost use Rattle.std.specs.Arc.{arc_value};
ghost use Rattle.cc_tokens.specs.Tokens.{most_bytes};
ghost use Rattle.cc_ast.specs.Source.{source};
ghost use Rattle.cc_types.specs.Verdict.{VerdictsAreOne, TextsHaveVerdicts};
ghost use Rattle.cc_link.specs.Text.{IsProgramText, IsTextRefusal, text_fault_number, text_fault_place};

use cc_syntax::{Place, SyntaxFault, parse, parse_is_determined};
use cc_types::{TypeFault, TypedUnit};
use cc_typing::check;
use std::alloc::Global;
use std::sync::Arc;
use thiserror::Error;

/// Why a text is not a program.
#[derive(Debug, Drop, Error)]
pub enum TextFault {
    /// 1 to 7, 40: the text has no tree.
    #[error(transparent)]
    Syntax(SyntaxFault),
    /// 11 to 21, 40: the tree breaks a rule.
    #[error(transparent)]
    Typing(TypeFault),
}

impl TextFault {
    /// The fault's number: 1 to 7, 11 to 21 or 40.
    pub fn number(&self) -> u32
        ensures { result ≡ text_fault_number self.now }
    {
        match self {
            TextFault::Syntax(fault) => fault.number(),
            TextFault::Typing(fault) => fault.number(),
        }
    }

    /// The place of the fault in the text, for 1 to 6 and 11 to 21.
    pub fn place(&self) -> Option<Place>
        ensures { result ≡ text_fault_place self.now }
    {
        match self {
            TextFault::Syntax(fault) => fault.place(),
            TextFault::Typing(fault) => fault.place(),
        }
    }
}

/// The program of a text: the text with the tree that it spells, which breaks no rule and exceeds no limit.
///
/// Refusals: those of `parse`, 1 to 7, and for a text that has a tree those of `check`, 11 to 21; 40 if memory ran out.
pub fn typed_unit(alloc: Global, text: &[u8]) -> Result<Arc<TypedUnit>, TextFault>
    ensures fits { IfOk result (λ _. length text.now ≤ most_bytes) }
    ensures text { IfOk result (λ unit. (source (arc_value unit)).text ≡ text.now) }
    ensures program { IfOk result (λ unit. IsProgramText text.now (source (arc_value unit)).externals) }
    ensures refused { IfErr result (λ fault. IsTextRefusal text.now fault) }
{
    let parsed = match parse(alloc, text) {
        Ok(parsed) => parsed,
        Err(fault) => return Err(TextFault::Syntax(fault)),
    };
    let unit = match check(alloc, parsed) {
        Ok(unit) => unit,
        Err(fault) => return Err(TextFault::Typing(fault)),
    };
    match Arc::new(alloc, unit) {
        Ok(unit) => Ok(unit),
        Err(_) => Err(TextFault::Typing(TypeFault::OutOfMemory)),
    }
}

/// What `parse` and then `check` answer is a function of the text, apart from lack of memory.
pub fn verdicts_are_determined()
    ensures one_verdict { VerdictsAreOne }
    ensures some_verdict { TextsHaveVerdicts }
{
    parse_is_determined();
}
