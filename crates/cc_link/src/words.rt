// The words of an image's code: each item is filled in at its address.
//
// A function's items become words one after the other. Only the distances of calls and jumps depend on the function's place, and
// the code is so short that every distance fits in a jump.

ghost use Rattle.std.specs.Prelude.{◌≡◌, ◌+◌, ◌-◌, ◌%◌, ◌^◌, ◌<◌, ◌≤◌, ◌++◌, ◌↔◌, length, slice_index, IsTrue, IfOk, OnOk};
ghost use Rattle.cc_emit.specs.Contract.{IsPlace, filled};
ghost use Rattle.cc_link.specs.Link.{fill, fill_all, head, linked_code, encoded, code_words, most_code};
ghost use Rattle.cc_link.specs.internal.Filling.{lent, AllStayIn, ArePlaces, Leads, CanStand, CanAllStand, places_from};

use cc_emit::PieceItem;
use cc_rv32::encode::encode;
use cc_rv32::image::{Code, MOST_CODE};
use cc_rv32::instr::{ImmediateOperation, Instr};
use cc_rv32::map::CODE_FROM;
use cc_rv32::operand::{Immediate, JumpOffset, Register};
use std::alloc::{AllocError, Global};

// How many words come before the functions, and the address at which the functions begin.
const HEAD_WORDS: usize = 3;

const FUNCTIONS_FROM: u32 = CODE_FROM + 12;

/// Whether the code of these functions has at most 131,072 words.
pub(crate) fn fits(bodies: &[&[PieceItem]]) -> bool
    ensures { IsTrue result ↔ (code_words (lent bodies.now) ≤ most_code) }
{
    let mut room = MOST_CODE - HEAD_WORDS;
    for items in bodies {
        if items.len() > room {
            return false;
        }
        room -= items.len();
    }
    true
}

/// The places of the functions, in order.
fn places(alloc: Global, bodies: &[&[PieceItem]]) -> Result<Vec<u32>, AllocError>
    requires { code_words (lent bodies.now) ≤ most_code }
    ensures { IfOk result (λ places. places.items ≡ places_from FUNCTIONS_FROM (lent bodies.now)) }
{
    let mut places = Vec::with_capacity(alloc, bodies.len())?;
    let mut place = FUNCTIONS_FROM;
    for items in bodies {
        places.push(place)?;
        place += 4 * items.len() as u32;
    }
    Ok(places)
}

// The distance that a jump goes from one address to another.
fn distance(at: u32, to: u32) -> JumpOffset
    requires at { IsPlace at }
    requires to { IsPlace to }
    ensures { result ≡ (to + (2 ^ 32 - at)) % 2 ^ 32 }
{
    JumpOffset::new(to.wrapping_sub(at))
}

// The instruction that an item becomes at an address, in a function at `place`.
fn instruction(places: &[u32], place: u32, at: u32, item: PieceItem) -> Instr
    requires at { IsPlace at }
    requires leads { Leads places.now place item }
    ensures { result ≡ filled (λ f. slice_index places.now f) place at item }
{
    match item {
        PieceItem::Plain(instr) => instr,
        PieceItem::Call(function) => Instr::Jal {
            rd: Register::new(1),
            offset: distance(at, places[function as usize]),
        },
        PieceItem::Go(to) => Instr::Jal {
            rd: Register::new(0),
            offset: distance(at, place + 4 * to as u32),
        },
    }
}

/// Adds the words of a function at `place`.
fn add_function(
    words: &mut Vec<u32>,
    places: &[u32],
    place: u32,
    items: &[PieceItem],
) -> Result<(), AllocError>
    requires places { ArePlaces places.now }
    requires stand { CanStand (length places.now) place items.now }
    ensures { OnOk result (words.new.items ≡ words.old.items ++ encoded (fill (λ f. slice_index places.now f) place place items.now)) }
{
    let mut at = place;
    for item in items {
        words.push(encode(instruction(places, place, at, *item)))?;
        at += 4;
    }
    Ok(())
}

/// Adds the words of all functions.
fn add_functions(
    words: &mut Vec<u32>,
    places: &[u32],
    bodies: &[&[PieceItem]],
) -> Result<(), AllocError>
    requires places { ArePlaces places.now }
    requires stand { CanAllStand (length places.now) FUNCTIONS_FROM (lent bodies.now) }
    ensures { OnOk result (words.new.items ≡ words.old.items ++ encoded (fill_all (λ f. slice_index places.now f) FUNCTIONS_FROM (lent bodies.now))) }
{
    let mut place = FUNCTIONS_FROM;
    for items in bodies {
        add_function(words, places, place, items)?;
        place += 4 * items.len() as u32;
    }
    Ok(())
}

/// Adds the head's words: the call of `main`, and the exit with the word that `main` returns.
fn add_head(words: &mut Vec<u32>, places: &[u32], main: usize) -> Result<(), AllocError>
    requires places { ArePlaces places.now }
    requires main { main < length places.now }
    ensures { OnOk result (words.new.items ≡ words.old.items ++ encoded (fill (λ f. slice_index places.now f) CODE_FROM CODE_FROM (head main))) }
{
    let offset = distance(CODE_FROM, places[main]);
    let rd = Register::new(1);
    words.push(encode(Instr::Jal { rd, offset }))?;
    words.push(encode(Instr::OpImm {
        operation: ImmediateOperation::Addi,
        rd: Register::new(17),
        rs1: Register::new(0),
        immediate: Immediate::new(93),
    }))?;
    words.push(encode(Instr::Ecall))?;
    Ok(())
}

// How many words the code of the functions takes, including the head. This only decides how much memory is taken at once.
fn room(bodies: &[&[PieceItem]]) -> usize {
    let mut words = HEAD_WORDS;
    for items in bodies {
        words = words.saturating_add(items.len());
    }
    words
}

/// The code of the functions. It calls the function with the number `main` first.
pub(crate) fn code(alloc: Global, main: usize, bodies: &[&[PieceItem]]) -> Result<Code, AllocError>
    requires main { main < length bodies.now }
    requires few { code_words (lent bodies.now) ≤ most_code }
    requires stay { AllStayIn (length bodies.now) (lent bodies.now) }
    ensures { IfOk result (λ code. code ≡ encoded (linked_code main (lent bodies.now))) }
{
    let places = places(alloc, bodies)?;
    let mut words = Vec::with_capacity(alloc, room(bodies))?;
    add_head(&mut words, places.as_slice(), main)?;
    add_functions(&mut words, places.as_slice(), bodies)?;
    match Code::new(words) {
        Ok(code) => Ok(code),
        Err(_) => unreachable!(),
    }
}
