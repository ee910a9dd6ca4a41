// Compiles a unit and measures what it needs.

ghost use Rattle.std.specs.Prelude.{◌≡◌, Some, IfOk, IfErr, IfSome};
ghost use Rattle.std.specs.Arc.{arc_value};
ghost use Rattle.cc_ast.specs.Source.{source};
ghost use Rattle.cc_c_semantics.specs.Calls.{main_of};
ghost use Rattle.cc_link.specs.Compile.{IsBuildRefusalIn};
ghost use Rattle.cc_link.specs.Linked.{lent_pieces};
ghost use Rattle.cc_size.specs.Size.{IsSize};
ghost use Rattle.cc_size.specs.Sized.{IsSizedIn};

use crate::needs::needs;
use crate::recursion::recursions;
use crate::size::{Sized, UnitSize};
use crate::tables::{entry, frames, ones, sizes};
use cc_emit::Piece;
use cc_link::{
    BuildFault, Compilation, LinkFault, Mode, compile_along_in, compile_whole_in, in_order, lend,
};
use cc_resolve::lay_out;
use cc_rv32::image::Image;
use cc_types::TypedUnit;
use std::alloc::{AllocError, Global};

/// Calls may be nested this deep.
const MOST_OPEN: u32 = 1024;

const MAIN: &[u8] = b"main";

// The number of main.
fn main_of(alloc: Global, unit: &TypedUnit) -> Result<usize, AllocError>
    ensures { IfOk result (λ main. main ≡ main_of (source unit.now).externals) }
{
    let mut elements = Vec::new(alloc);
    Ok(lay_out(alloc, &mut elements, unit.externals())?.function(MAIN))
}

// What a unit with these pieces needs.
fn measured(
    alloc: Global,
    unit: &TypedUnit,
    pieces: &[&Piece],
    image: &Image,
) -> Result<UnitSize, AllocError>
    ensures { IfOk result (IsSize (source unit.now).externals (lent_pieces pieces.now) image.now) }
{
    // Each function has a piece, so this does not happen.
    let Ok(ordered) = in_order(alloc, unit.functions(), pieces) else {
        return Err(AllocError);
    };
    let frames = frames(alloc, ordered.as_slice())?;
    let ones = ones(alloc, ordered.as_slice())?;
    let stacks = needs(alloc, frames.as_slice(), ordered.as_slice(), MOST_OPEN)?;
    let calls = needs(alloc, ones.as_slice(), ordered.as_slice(), MOST_OPEN)?;
    let main = main_of(alloc, unit)?;
    let functions = sizes(
        alloc,
        ordered.as_slice(),
        stacks.as_slice(),
        calls.as_slice(),
    )?;
    let recursions = recursions(alloc, ordered.as_slice())?;
    Ok(UnitSize {
        functions,
        code: image.code.words().len(),
        globals: 4 * image.globals.words().len(),
        recursions,
        calls: entry(calls.as_slice(), main),
        stack: entry(stacks.as_slice(), main),
    })
}

// What a compiled text needs.
fn size_of(alloc: Global, made: &Compilation) -> Result<UnitSize, AllocError>
    ensures { IfOk result (IsSize (source (arc_value made.now.typed)).externals made.now.pieces.items made.now.unit.image) }
{
    let lent = lend(alloc, made.pieces.as_slice())?;
    measured(
        alloc,
        &made.typed,
        lent.as_slice(),
        &made.unit.stored().image,
    )
}

/// Compiles a text in a mode, and measures what the unit needs. If a board backs the stack that is named, or more, the image
/// follows, on every input, what the program shows in the mode.
///
/// Refusals: those of `compile_in`.
pub fn size_in(alloc: Global, mode: Mode, text: &[u8]) -> Result<Sized, BuildFault>
    ensures sized { IfOk result (IsSizedIn mode text.now) }
    ensures refused { IfErr result (λ fault. IsBuildRefusalIn mode text.now fault) }
{
    let made = match compile_whole_in(alloc, mode, text) {
        Ok(made) => made,
        Err(fault) => return Err(fault),
    };
    match size_of(alloc, &made) {
        Ok(size) => Ok(Sized { made, size }),
        Err(_) => Err(BuildFault::Link(LinkFault::OutOfMemory)),
    }
}

/// Measures what the unit of these three parts needs; the unit is made again by following its certificate. `None` if `audit_in`
/// does not confirm the unit. Fails only if memory runs out.
pub fn size_along_in(
    alloc: Global,
    mode: Mode,
    source: &[u8],
    certificate: &[u8],
    image: &Image,
) -> Result<Option<Sized>, AllocError>
    ensures sized { IfOk result (λ made. IfSome made (IsSizedIn mode source.now)) }
    ensures answer { IfOk result (λ made. IfSome made (λ it. it.made.unit ≡ record { source = source.now; image = image.now; certificate = Some certificate.now })) }
{
    let Some(made) = compile_along_in(alloc, mode, source, certificate, image)? else {
        return Ok(None);
    };
    let size = size_of(alloc, &made)?;
    Ok(Some(Sized { made, size }))
}
