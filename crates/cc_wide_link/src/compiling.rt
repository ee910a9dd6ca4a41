// The one call.

ghost use Rattle.std.specs.Prelude.{◌≡◌, Some, IfOk, IfErr};
ghost use Rattle.cc_c_semantics.specs.declared.mode.Mode.TheVariants.{Plain};
ghost use Rattle.cc_link.specs.Agree.{AgreeIn};
ghost use Rattle.cc_link.specs.Made.{IsMadeIn};
ghost use Rattle.cc_translate.specs.Carried.{carried};
ghost use Rattle.cc_translate.specs.Translates.{Translates};
ghost use Rattle.cc_wide_link.specs.Agree.{WideAgreeIn};
ghost use Rattle.cc_wide_link.specs.Refused.{IsWideRefusalIn};

use crate::fault::WideBuildFault;
use cc_link::{CompiledUnit, Mode, compile_in};
use cc_translate::{translate, translated_texts_do_the_same};
use std::alloc::Global;

/// Compiles a text of wide C in a mode. The unit's source is a translation of the text, and carries it; its image agrees with that
/// source, and on every input the run of the image follows what the program of wide C shows in the mode.
///
/// Refuses as `translate` does, and then with 22, 24, 25 or 40 as `compile_in` refuses the translation.
pub fn compile_wide_in(
    alloc: Global,
    mode: Mode,
    wide: &[u8],
) -> Result<CompiledUnit, WideBuildFault>
    ensures agrees { IfOk result (λ unit. WideAgreeIn mode wide.now unit.image) }
    ensures translates { IfOk result (λ unit. Translates wide.now unit.source) }
    ensures carries { IfOk result (λ unit. carried unit.source ≡ Some wide.now) }
    ensures stored { IfOk result (λ unit. AgreeIn mode unit.source unit.image) }
    ensures made { IfOk result (IsMadeIn mode) }
    ensures refused { IfErr result (λ fault. IsWideRefusalIn mode wide.now fault) }
{
    translated_texts_do_the_same();
    let translation = match translate(alloc, wide) {
        Ok(translation) => translation,
        Err(fault) => return Err(WideBuildFault::Wide(fault)),
    };
    match compile_in(alloc, mode, translation.text()) {
        Ok(unit) => Ok(unit),
        Err(fault) => Err(WideBuildFault::Build(fault)),
    }
}

/// Compiles a text of wide C to a plain image, as `compile_wide_in` does.
pub fn compile_wide(alloc: Global, wide: &[u8]) -> Result<CompiledUnit, WideBuildFault>
    ensures agrees { IfOk result (λ unit. WideAgreeIn Plain wide.now unit.image) }
    ensures translates { IfOk result (λ unit. Translates wide.now unit.source) }
    ensures carries { IfOk result (λ unit. carried unit.source ≡ Some wide.now) }
    ensures refused { IfErr result (λ fault. IsWideRefusalIn Plain wide.now fault) }
{
    compile_wide_in(alloc, Mode::Plain, wide)
}
