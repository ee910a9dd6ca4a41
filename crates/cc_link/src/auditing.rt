// Whether a stored unit is what this compiler makes from its text with its certificate: the text is compiled again, with the
// allocations that are read from the certificate.
//
// Nothing is assumed about the text, the certificate and the image. The unit is made anew from the text and the LTL functions
// that are read, and is then compared with the stored one. Since an LTL function has only one spelling, no byte of the
// certificate can be left over or differ. What an audit confirms is what the type of the unit made anew keeps.

ghost use Rattle.std.specs.Prelude.{◌≡◌, ◌↔◌, ℕ, List, Some, MatchOption, IfOk, IfErr, IfSome, IsTrue};
ghost use Rattle.std.specs.Option.{option_map};
ghost use Rattle.cc_c_semantics.specs.declared.mode.Mode.{Mode};
ghost use Rattle.cc_rv32.specs.declared.image.Image.{Image};
ghost use Rattle.cc_link.specs.Audit.{AuditSays, AuditSaysIn, IsConfirmedIn, IsFailedPartIn};
ghost use Rattle.cc_link.specs.Compile.{IsBuildRefusalIn, IsFirstWithoutIn};
ghost use Rattle.cc_link.specs.Whole.{IsWholeIn};

use crate::allocations::Allocations;
use crate::audit_answer::{Audit, FailedPart};
use crate::build_fault::BuildFault;
use crate::compiled::Compilation;
use crate::compiling::compile_by;
use crate::fault::LinkFault;
use crate::laws::linked_units_follow;
use crate::piece_fault::PieceFault;
use cc_c_semantics::Mode;
use cc_rv32::image::Image;
use cc_unit::StoredUnit;
use std::alloc::{AllocError, Global};

/// Audits a plain unit: whether its certificate shows that its image agrees with its source. It answers as `audit_in` does.
pub fn audit(
    alloc: Global,
    source: &[u8],
    certificate: Option<&[u8]>,
    image: &Image,
) -> Result<Audit, AllocError>
    ensures { IfOk result (λ audit. AuditSays source.now (option_map (λ c. c.now) certificate.entry) image.now audit) }
{
    audit_in(alloc, Mode::Plain, source, certificate, image)
}

/// Audits a unit in a mode: whether its certificate shows that its image follows what the program of its source shows in the
/// mode. Nothing is assumed about the three, whoever made them.
///
/// `NoCertificate` exactly if there is no certificate. `Confirmed` only if the image follows the program in this way and the
/// certificate spells the LTL of each of the program's functions; otherwise `Unconfirmed`. It fails only if memory ran out (40).
pub fn audit_in(
    alloc: Global,
    mode: Mode,
    source: &[u8],
    certificate: Option<&[u8]>,
    image: &Image,
) -> Result<Audit, AllocError>
    ensures { IfOk result (λ audit. AuditSaysIn mode source.now (option_map (λ c. c.now) certificate.entry) image.now audit) }
{
    let Some(certificate) = certificate else {
        return Ok(Audit::NoCertificate);
    };
    match failed_part_in(alloc, mode, source, certificate, image)? {
        None => Ok(Audit::Confirmed),
        Some(_) => Ok(Audit::Unconfirmed),
    }
}

/// Why `audit_in` does not confirm a unit that has a certificate: the first part of the unit that fails, or `None` if the unit is
/// confirmed. It fails only if memory ran out (40).
pub fn failed_part_in(
    alloc: Global,
    mode: Mode,
    source: &[u8],
    certificate: &[u8],
    image: &Image,
) -> Result<Option<FailedPart>, AllocError>
    ensures { IfOk result (λ failed. MatchOption failed (IsConfirmedIn mode source.now certificate.now image.now) (IsFailedPartIn mode source.now certificate.now image.now)) }
{
    linked_units_follow();
    let made = made_along(alloc, mode, source, certificate, image)?;
    match made {
        Ok(made) => {
            drop(made);
            Ok(None)
        }
        Err(failed) => Ok(Some(failed)),
    }
}

/// What a text compiles to in a mode with the allocations of a certificate, together with its pieces, if the unit has this
/// certificate and this image; this is so exactly if `audit_in` confirms them. It fails only if memory ran out.
pub fn compile_along_in(
    alloc: Global,
    mode: Mode,
    source: &[u8],
    certificate: &[u8],
    image: &Image,
) -> Result<Option<Compilation>, AllocError>
    ensures whole { IfOk result (λ made. IfSome made (IsWholeIn mode source.now)) }
    ensures answer { IfOk result (λ made. IfSome made (λ it. it.unit ≡ record { source = source.now; image = image.now; certificate = Some certificate.now })) }
{
    match made_along(alloc, mode, source, certificate, image)? {
        Ok(made) => Ok(Some(made)),
        Err(_) => Ok(None),
    }
}

// What a text compiles to in a mode with the allocations of a certificate, if the unit has this certificate and this image; else
// the first part that fails.
fn made_along(
    alloc: Global,
    mode: Mode,
    source: &[u8],
    certificate: &[u8],
    image: &Image,
) -> Result<Result<Compilation, FailedPart>, AllocError>
    ensures whole { IfOk result (λ made. IfOk made (IsWholeIn mode source.now)) }
    ensures answer { IfOk result (λ made. IfOk made (λ it. it.unit ≡ record { source = source.now; image = image.now; certificate = Some certificate.now })) }
    ensures failed { IfOk result (λ made. IfErr made (IsFailedPartIn mode source.now certificate.now image.now)) }
{
    let made = match compile_by(alloc, mode, source, Allocations::of(certificate)) {
        Ok(made) => made,
        Err(fault) => return Ok(Err(refused_part(fault)?)),
    };
    if !has_certificate(made.unit.stored(), certificate) {
        return Ok(Err(FailedPart::Certificate));
    }
    if !has_image(made.unit.stored(), image) {
        return Ok(Err(FailedPart::Image));
    }
    Ok(Ok(made))
}

// The part that fails if a text does not compile with the allocations of a certificate.
fn refused_part(fault: BuildFault) -> Result<FailedPart, AllocError>
    ensures { IfOk result (λ failed. (mode : Mode) (text certificate : List ℕ) (image : Image) → IsBuildRefusalIn mode text fault → IsFailedPartIn mode text certificate image failed) }
{
    match fault {
        BuildFault::Text(fault) => {
            if fault.number() == 40 {
                drop(fault);
                Err(AllocError)
            } else {
                Ok(FailedPart::Text(fault))
            }
        }
        BuildFault::Piece(fault) => function_part(fault),
        BuildFault::Link(LinkFault::OutOfMemory) => Err(AllocError),
        BuildFault::Link(_) => Ok(FailedPart::Image),
    }
}

// The part that fails if a function has no piece with its allocation in a certificate.
fn function_part(fault: PieceFault) -> Result<FailedPart, AllocError>
    ensures { IfOk result (λ failed. (mode : Mode) (text certificate : List ℕ) (image : Image) → IsFirstWithoutIn mode text fault → IsFailedPartIn mode text certificate image failed) }
{
    match fault {
        PieceFault::FunctionTooLarge { at, length } => Ok(FailedPart::Function { at, length }),
        PieceFault::Unvalidated { at, length, .. } => Ok(FailedPart::Function { at, length }),
        PieceFault::OutOfMemory => Err(AllocError),
    }
}

// Whether a unit has this certificate.
fn has_certificate(unit: &StoredUnit, certificate: &[u8]) -> bool
    ensures { IsTrue result ↔ (unit.now.certificate ≡ Some certificate.now) }
{
    match &unit.certificate {
        Some(kept) => kept.bytes() == certificate,
        None => false,
    }
}

// Whether a unit has this image.
fn has_image(unit: &StoredUnit, image: &Image) -> bool
    ensures { IsTrue result ↔ (unit.now.image ≡ image.now) }
{
    unit.image.code.words() == image.code.words()
        && unit.image.globals.words() == image.globals.words()
}
