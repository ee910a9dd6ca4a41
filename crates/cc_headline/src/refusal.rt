// The faults of the compiler as the core's refusals.

ghost use Rattle.std.specs.Prelude.{◌≡◌};
ghost use Rattle.cc_headline.specs.internal.Refusals.{refused_by};

use cc_core::fault::BuildRefusal;

// The refusal with this number.
pub(crate) fn refusal(number: u32) -> BuildRefusal
    ensures { result ≡ refused_by number }
{
    if number == 40 {
        BuildRefusal::OutOfMemory
    } else {
        BuildRefusal::Refused(number)
    }
}
