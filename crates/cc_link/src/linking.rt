// From the pieces of a unit's functions to the unit that the library keeps.
//
// Pieces come in any order. First the code checks that there is one piece for each function, and that all pieces are of this text. From
// then on every place in the image depends only on the functions' items, in the order of definitions.

ghost use Rattle.std.specs.Prelude.{◌≡◌, ◌⊎◌, ◌≤◌, ◌<◌, ◌^◌, Some, Ok, Err, All, length, IfOk, IfErr};
ghost use Rattle.std.specs.Arc.{arc_value};
ghost use Rattle.cc_ast.specs.Source.{source};
ghost use Rattle.cc_c_semantics.specs.Meaning.{functions};
ghost use Rattle.cc_link.specs.declared.fault.LinkFault.TheVariants.{OutOfMemory};
ghost use Rattle.cc_link.specs.Agree.{Agree, AgreeIn};
ghost use Rattle.cc_link.specs.Made.{IsCompiled, IsMadeIn};
ghost use Rattle.cc_link.specs.Certificate.{certificate_of};
ghost use Rattle.cc_link.specs.Link.{code_words, most_code};
ghost use Rattle.cc_link.specs.Linked.{all_ltl, image_of, linked, linked_in, lent_pieces};
ghost use Rattle.cc_link.specs.Stack.{IsBackedFrom, stack_of};
ghost use Rattle.cc_link.specs.internal.Filling.{lent, AllStayIn};

use crate::certificate::certificate;
use crate::compiled::CompiledUnit;
use crate::fault::LinkFault;
use crate::globals::image_words;
use crate::laws::{linked_units_are_backed, linked_units_follow, unit_laws};
use crate::order::{all_items, doubled, in_order, stranger};
use crate::words::{code, fits};
use cc_c_semantics::Mode;
use cc_emit::{Piece, PieceItem};
use cc_resolve::lay_out;
use cc_rv32::image::{Globals, Image};
use cc_types::TypedUnit;
use cc_unit::{Source, StoredUnit};
use std::alloc::{AllocError, Global};
use std::sync::Arc;

const MAIN: &[u8] = b"main";

// The text of a unit.
fn source_of(alloc: Global, unit: &TypedUnit) -> Result<Source, AllocError>
    ensures { IfOk result (λ text. text ≡ (source unit.now).text) }
{
    let text = Vec::from_slice(alloc, unit.text())?;
    match Source::new(text) {
        Ok(source) => Ok(source),
        Err(_) => unreachable!(),
    }
}

// The image of a unit's functions.
fn image(alloc: Global, unit: &TypedUnit, bodies: &[&[PieceItem]]) -> Result<Image, AllocError>
    requires count { length bodies.now ≡ length (functions (source unit.now).externals) }
    requires few { code_words (lent bodies.now) ≤ most_code }
    requires stay { AllStayIn (length bodies.now) (lent bodies.now) }
    ensures { IfOk result (λ image. image ≡ image_of (source unit.now).externals (lent bodies.now)) }
{
    unit_laws();
    let main = {
        let mut elements = Vec::new(alloc);
        lay_out(alloc, &mut elements, unit.externals())?.function(MAIN)
    };
    let words = image_words(alloc, unit.externals())?;
    let globals = match Globals::new(words) {
        Ok(globals) => globals,
        Err(_) => unreachable!(),
    };
    let code = code(alloc, main, bodies)?;
    Ok(Image { code, globals })
}

// What the library keeps of a unit whose functions have these pieces.
fn stored(
    alloc: Global,
    unit: &TypedUnit,
    bodies: &[&[PieceItem]],
    pieces: &[&Piece],
) -> Result<Arc<StoredUnit>, AllocError>
    requires few_functions { length pieces.now < 2 ^ 32 }
    requires count { length bodies.now ≡ length (functions (source unit.now).externals) }
    requires few { code_words (lent bodies.now) ≤ most_code }
    requires stay { AllStayIn (length bodies.now) (lent bodies.now) }
    ensures { IfOk result (λ stored. arc_value stored ≡ record { source = (source unit.now).text; image = image_of (source unit.now).externals (lent bodies.now); certificate = Some (certificate_of (all_ltl (lent_pieces pieces.now))) }) }
{
    let image = image(alloc, unit, bodies)?;
    let source = source_of(alloc, unit)?;
    let certificate = certificate(alloc, pieces)?;
    let unit = StoredUnit {
        source,
        image,
        certificate: Some(certificate),
    };
    Ok(Arc::new(alloc, unit)?)
}

// The unit that these pieces of a unit's functions make in a mode. They are lent in any order.
fn made_in(
    alloc: Global,
    mode: Mode,
    unit: &Arc<TypedUnit>,
    pieces: &[&Piece],
) -> Result<Arc<StoredUnit>, LinkFault>
    ensures answer { IfOk result (λ made. linked_in mode (source (arc_value unit.now)) (lent_pieces pieces.now) ≡ Ok (arc_value made)) }
    ensures follows { IfOk result (λ made. AgreeIn mode (arc_value made).source (arc_value made).image) }
    ensures agrees { IfOk result (λ made. Agree (arc_value made).source (arc_value made).image) }
    ensures made { IfOk result (λ made. IsMadeIn mode (arc_value made)) }
    ensures compiled { IfOk result (λ _. All IsCompiled (lent_pieces pieces.now)) }
    ensures backed { IfOk result (λ made. IsBackedFrom mode (arc_value made).source (stack_of (source (arc_value unit.now)).externals (lent_pieces pieces.now)) (arc_value made).image) }
    ensures refused { IfErr result (λ fault. (fault ≡ OutOfMemory) ⊎ (linked_in mode (source (arc_value unit.now)) (lent_pieces pieces.now) ≡ Err fault)) }
{
    let unit: &TypedUnit = unit;
    if let Some(fault) = stranger(mode, unit.text(), pieces) {
        return Err(fault);
    }
    if let Some(fault) = doubled(pieces) {
        return Err(fault);
    }
    let ordered = match in_order(alloc, unit.functions(), pieces) {
        Ok(ordered) => ordered,
        Err(fault) => return Err(fault),
    };
    let bodies = match all_items(alloc, ordered.as_slice()) {
        Ok(bodies) => bodies,
        Err(_) => return Err(LinkFault::OutOfMemory),
    };
    if !fits(bodies.as_slice()) {
        return Err(LinkFault::ImageTooLarge);
    }
    unit_laws();
    linked_units_follow();
    linked_units_are_backed();
    let _kept = unit.externals();
    let made = match stored(alloc, unit, bodies.as_slice(), ordered.as_slice()) {
        Ok(made) => made,
        Err(_) => return Err(LinkFault::OutOfMemory),
    };
    Ok(made)
}

/// Links the pieces of a unit in a mode, lent in any order: its source is the unit's text, its certificate has the LTL of each function,
/// and on every input the run of its image follows what the program shows in the mode, so that the image agrees with the text. The image
/// does so on each board that backs at least as many bytes of stack as the pieces' frames and calls take.
///
/// Refusals: those of `link_lent`, with Stranger (28) also for a piece in another mode.
pub fn link_in(
    alloc: Global,
    mode: Mode,
    unit: &Arc<TypedUnit>,
    pieces: &[&Piece],
) -> Result<CompiledUnit, LinkFault>
    ensures answer { IfOk result (λ unit'. linked_in mode (source (arc_value unit.now)) (lent_pieces pieces.now) ≡ Ok unit') }
    ensures follows { IfOk result (λ unit'. AgreeIn mode unit'.source unit'.image) }
    ensures made { IfOk result (IsMadeIn mode) }
    ensures compiled { IfOk result (λ _. All IsCompiled (lent_pieces pieces.now)) }
    ensures backed { IfOk result (λ unit'. IsBackedFrom mode unit'.source (stack_of (source (arc_value unit.now)).externals (lent_pieces pieces.now)) unit'.image) }
    ensures refused { IfErr result (λ fault. (fault ≡ OutOfMemory) ⊎ (linked_in mode (source (arc_value unit.now)) (lent_pieces pieces.now) ≡ Err fault)) }
{
    match made_in(alloc, mode, unit, pieces) {
        Ok(made) => Ok(CompiledUnit::new(made)),
        Err(fault) => Err(fault),
    }
}

/// Links plain pieces of a unit, lent in any order: its source is the unit's text, its image agrees with it, and its certificate has the LTL
/// of each function.
///
/// Refusals, in this order: Stranger (28) for the first piece whose unit has another text; Doubled (27) for the first piece whose
/// function came before; Missing (26) for the lowest-numbered function without a piece; ImageTooLarge (25) if the image would have more
/// than 131,072 words of code. OutOfMemory (40) if memory ran out.
pub fn link_lent(
    alloc: Global,
    unit: &Arc<TypedUnit>,
    pieces: &[&Piece],
) -> Result<CompiledUnit, LinkFault>
    ensures answer { IfOk result (λ unit'. linked (source (arc_value unit.now)) (lent_pieces pieces.now) ≡ Ok unit') }
    ensures refused { IfErr result (λ fault. (fault ≡ OutOfMemory) ⊎ (linked (source (arc_value unit.now)) (lent_pieces pieces.now) ≡ Err fault)) }
{
    link_in(alloc, Mode::Plain, unit, pieces)
}

/// Links plain pieces of a unit, given up in any order. It answers as `link_lent` does.
pub fn link(
    alloc: Global,
    unit: &Arc<TypedUnit>,
    pieces: Vec<Piece>,
) -> Result<CompiledUnit, LinkFault>
    ensures answer { IfOk result (λ unit'. linked (source (arc_value unit.now)) pieces.items ≡ Ok unit') }
    ensures refused { IfErr result (λ fault. (fault ≡ OutOfMemory) ⊎ (linked (source (arc_value unit.now)) pieces.items ≡ Err fault)) }
{
    link_pieces_in(alloc, Mode::Plain, unit, pieces)
}

/// Links the pieces of a unit in a mode, given up in any order. It answers as `link_in` does.
pub fn link_pieces_in(
    alloc: Global,
    mode: Mode,
    unit: &Arc<TypedUnit>,
    pieces: Vec<Piece>,
) -> Result<CompiledUnit, LinkFault>
    ensures answer { IfOk result (λ unit'. linked_in mode (source (arc_value unit.now)) pieces.items ≡ Ok unit') }
    ensures follows { IfOk result (λ unit'. AgreeIn mode unit'.source unit'.image) }
    ensures made { IfOk result (IsMadeIn mode) }
    ensures refused { IfErr result (λ fault. (fault ≡ OutOfMemory) ⊎ (linked_in mode (source (arc_value unit.now)) pieces.items ≡ Err fault)) }
{
    link_all_in(alloc, mode, unit, pieces.as_slice())
}

/// Links the pieces of a unit in a mode, which lie one after the other. It answers as `link_in` does.
pub(crate) fn link_all_in(
    alloc: Global,
    mode: Mode,
    unit: &Arc<TypedUnit>,
    pieces: &[Piece],
) -> Result<CompiledUnit, LinkFault>
    ensures answer { IfOk result (λ unit'. linked_in mode (source (arc_value unit.now)) pieces.now ≡ Ok unit') }
    ensures follows { IfOk result (λ unit'. AgreeIn mode unit'.source unit'.image) }
    ensures made { IfOk result (IsMadeIn mode) }
    ensures compiled { IfOk result (λ _. All IsCompiled pieces.now) }
    ensures backed { IfOk result (λ unit'. IsBackedFrom mode unit'.source (stack_of (source (arc_value unit.now)).externals pieces.now) unit'.image) }
    ensures refused { IfErr result (λ fault. (fault ≡ OutOfMemory) ⊎ (linked_in mode (source (arc_value unit.now)) pieces.now ≡ Err fault)) }
{
    let lent = match lend(alloc, pieces) {
        Ok(lent) => lent,
        Err(_) => return Err(LinkFault::OutOfMemory),
    };
    link_in(alloc, mode, unit, lent.as_slice())
}

/// References to pieces, in order. `AllocError` if memory runs out.
pub fn lend(alloc: Global, pieces: &[Piece]) -> Result<Vec<&Piece>, AllocError>
    ensures { IfOk result (λ all. lent_pieces all.items ≡ pieces.now) }
{
    let mut lent = Vec::with_capacity(alloc, pieces.len())?;
    for piece in pieces {
        lent.push(piece)?;
    }
    Ok(lent)
}
