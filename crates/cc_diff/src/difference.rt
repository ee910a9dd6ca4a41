// How two units with the same name differ.

ghost use Rattle.std.specs.Prelude.{◌≡◌, ◌++◌, false, OnOk, option_map};
ghost use Rattle.std.specs.Arc.{arc_value};
ghost use Rattle.cc_diff.specs.Diff.{is_same_certificate, is_same_image, lines_of, lines_of_both, unless};
ghost use Rattle.std.specs.Str.{bytes_eq};

use cc_library::Name;
use cc_rv32::image::Image;
use cc_unit::{Certificate, StoredUnit};
use std::alloc::AllocError;
use std::sync::Arc;

/// How two libraries differ in a name.
#[derive(Clone, Copy, Debug, Drop, PartialEq, Eq)]
pub enum Difference {
    /// Only the left one has a unit with the name.
    Left,
    /// Only the right one has a unit with the name.
    Right,
    /// The sources of the units differ.
    Source,
    /// Their images differ.
    Image,
    /// Their certificates differ, or only one has a certificate.
    Certificate,
}

/// A name, and one way in which the libraries differ in it.
#[derive(Drop)]
pub struct DiffLine {
    pub name: Name,
    pub difference: Difference,
}

// Whether two images have the same code and the same globals.
fn is_same_image(left: &Image, right: &Image) -> bool
    ensures { result ≡ is_same_image left.now right.now }
{
    left.code.words() == right.code.words() && left.globals.words() == right.globals.words()
}

// Whether two units have certificates with the same bytes, or both have none.
fn is_same_certificate(left: &Option<Certificate>, right: &Option<Certificate>) -> bool
    ensures { result ≡ is_same_certificate left.now right.now }
{
    match (left, right) {
        (None, None) => true,
        (Some(left), Some(right)) => left.bytes() == right.bytes(),
        (Some(_), None) | (None, Some(_)) => false,
    }
}

// Whether two units have the same source.
fn is_same_source(left: &StoredUnit, right: &StoredUnit) -> bool
    ensures { result ≡ bytes_eq left.now.source right.now.source }
{
    left.source.bytes() == right.source.bytes()
}

// Adds a line.
fn push(lines: &mut Vec<DiffLine>, name: &Name, difference: Difference) -> Result<(), AllocError>
    ensures { OnOk result (lines.new.items ≡ lines.old.items ++ unless false name.now difference) }
{
    lines.push(DiffLine {
        name: name.clone()?,
        difference,
    })?;
    Ok(())
}

// Adds the line for a part, if the part differs.
fn push_unless(
    lines: &mut Vec<DiffLine>,
    is_same: bool,
    name: &Name,
    part: Difference,
) -> Result<(), AllocError>
    ensures { OnOk result (lines.new.items ≡ lines.old.items ++ unless is_same name.now part) }
{
    if is_same {
        return Ok(());
    }
    push(lines, name, part)
}

// Adds the lines for two units with the same name.
#[tactic(auto, using(crate::proofs::Lines::three))]
fn push_both(
    lines: &mut Vec<DiffLine>,
    name: &Name,
    left: &StoredUnit,
    right: &StoredUnit,
) -> Result<(), AllocError>
    ensures { OnOk result (lines.new.items ≡ lines.old.items ++ lines_of_both name.now left.now right.now) }
{
    push_unless(lines, is_same_source(left, right), name, Difference::Source)?;
    push_unless(
        lines,
        is_same_image(&left.image, &right.image),
        name,
        Difference::Image,
    )?;
    push_unless(
        lines,
        is_same_certificate(&left.certificate, &right.certificate),
        name,
        Difference::Certificate,
    )
}

/// Adds the lines for a name that has these units on the two sides.
pub(crate) fn push_lines(
    lines: &mut Vec<DiffLine>,
    name: &Name,
    left: Option<&Arc<StoredUnit>>,
    right: Option<&Arc<StoredUnit>>,
) -> Result<(), AllocError>
    ensures { OnOk result (lines.new.items ≡ lines.old.items
        ++ lines_of name.now (option_map (λ unit. arc_value unit.now) left.entry) (option_map (λ unit. arc_value unit.now) right.entry)) }
{
    match (left, right) {
        (None, None) => Ok(()),
        (Some(_), None) => push(lines, name, Difference::Left),
        (None, Some(_)) => push(lines, name, Difference::Right),
        (Some(left), Some(right)) => push_both(lines, name, left, right),
    }
}
