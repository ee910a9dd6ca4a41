// Takes those of the descriptors 0 to 2 that are free, lowest first. A file gets the lowest free descriptor, so each stand-in
// gets the one that it is meant for.

ghost use Rattle.std.specs.Prelude.{◌≡◌, Some, IfOk, IfSome, OnOk, is_some, not, if◌then◌else◌};
ghost use Rattle.cc_descriptors.specs.Uses.{AreHeld, is_used, opened, taken, use_of};

use crate::descriptors::{Access, Descriptors, Standard};
use std::io;

/// The stand-ins for the descriptors that were free. As long as they exist, no file that is opened gets one of the three.
#[derive(Drop)]
pub struct StandIns<S: Drop> {
    pub input: Option<S>,
    pub output: Option<S>,
    pub error: Option<S>,
}

// Opens a stand-in if the descriptor is free.
fn take<D: Descriptors>(
    system: &mut D,
    standard: Standard,
    access: Access,
) -> io::Result<Option<D::StandIn>>
    ensures taken { OnOk result (IfSome (D.uses system.old) (λ it.
        D.uses system.new ≡ Some (if is_used (use_of standard it) then it else opened access it))) }
    ensures held { IfOk result (λ stand_in. IfSome (D.uses system.old) (λ it. is_some stand_in ≡ not (is_used (use_of standard it)))) }
{
    if system.is_used(standard) {
        return Ok(None);
    }
    match system.open(access) {
        Ok(stand_in) => Ok(Some(stand_in)),
        Err(error) => Err(error),
    }
}

/// Takes those of the three descriptors that are free; call it before anything else is opened. A read of the stand-in for
/// standard input fails, and so does a write to the other two.
///
/// An `Err` means that the system refused a stand-in. Then a file that is opened may get one of the three, so the program must
/// not open any.
pub fn take_free<D: Descriptors>(system: &mut D) -> io::Result<StandIns<D::StandIn>>
    ensures taken { OnOk result (IfSome (D.uses system.old) (λ it. D.uses system.new ≡ Some (taken it))) }
    ensures held { IfOk result (λ all. IfSome (D.uses system.old) (AreHeld (is_some all.input) (is_some all.output) (is_some all.error))) }
{
    let input = take(system, Standard::Input, Access::Writing)?;
    let output = take(system, Standard::Output, Access::Reading)?;
    let error = take(system, Standard::Error, Access::Reading)?;
    Ok(StandIns {
        input,
        output,
        error,
    })
}
