// The constants that conditions compare with most often. A condition counts eight times as much for each loop around it. Nothing
// about the choice has to be proved.

ghost use Rattle.std.specs.Prelude.{◌≤◌, length, IfOk};
ghost use Rattle.cc_guard.specs.Held.{most_held};

use cc_cminor_language::{Expression, Statement};
use cc_words::Binary;
use std::alloc::{AllocError, Global};

/// At most this many words are held in variables.
const MOST_HELD: usize = 8;

// At most this many words are counted: the first ones, if a function has more.
const MOST_WEIGHED: usize = 64;

// The least weight at which a word is chosen: the weight of one comparison in a loop.
const LEAST: u32 = 8;

// A word, and how often conditions compare with it.
#[derive(Clone, Copy)]
struct Want {
    word: u32,
    weight: u32,
}

fn word_of(e: &Expression) -> Option<u32> {
    match e {
        Expression::Constant(word) => Some(*word),
        _ => None,
    }
}

// Whether a branch on the operator costs one more instruction with this word than with a variable. The machine has a register
// that holds 0, and some comparisons with 1 and -1 become comparisons with 0.
fn gains(operator: Binary, word: u32) -> bool {
    match operator {
        Binary::Eq | Binary::Ne | Binary::Xor => word != 0,
        Binary::LtS | Binary::LtU | Binary::LeS | Binary::LeU => {
            word != 0 && word != 1 && word != 4294967295
        }
        _ => false,
    }
}

// The constant that a condition compares with, if it is worth holding in a variable.
fn compared(e: &Expression) -> Option<u32> {
    match e {
        Expression::Binary(operator, a, b) => {
            let word = match word_of(b) {
                Some(word) => word,
                None => word_of(a)?,
            };
            if gains(*operator, word) {
                Some(word)
            } else {
                None
            }
        }
        _ => None,
    }
}

// The position of a word in the list, or the list's length if it is not there.
fn position(wants: &[Want], word: u32) -> usize {
    for (at, want) in wants.iter().enumerate() {
        if want.word == word {
            return at;
        }
    }
    wants.len()
}

// Adds to a word's weight. A new word joins the list if there is room.
fn add(wants: &mut Vec<Want>, word: u32, weight: u32) -> Result<(), AllocError> {
    let at = position(wants.as_slice(), word);
    if at < wants.len() {
        wants[at].weight = wants[at].weight.saturating_add(weight);
    } else if at < MOST_WEIGHED {
        wants.push(Want { word, weight })?;
    }
    Ok(())
}

#[cycle(wanting)]
fn weigh(weight: u32, wants: &mut Vec<Want>, s: &Statement) -> Result<(), AllocError> {
    match s {
        Statement::Sequence(all) => weigh_all(weight, wants, all.as_slice()),
        Statement::If(e, nonzero, otherwise) => {
            if let Some(word) = compared(e) {
                add(wants, word, weight)?;
            }
            weigh(weight, wants, nonzero)?;
            weigh(weight, wants, otherwise)
        }
        Statement::Loop(body) => weigh(weight.saturating_mul(8), wants, body),
        Statement::Block(body) => weigh(weight, wants, body),
        Statement::Skip
        | Statement::Set(_, _)
        | Statement::Store(_, _, _, _)
        | Statement::Call(_, _, _)
        | Statement::Read(_)
        | Statement::Write(_)
        | Statement::Exit(_)
        | Statement::Return(_) => Ok(()),
    }
}

#[cycle(wanting)]
fn weigh_all(weight: u32, wants: &mut Vec<Want>, all: &[Statement]) -> Result<(), AllocError> {
    for s in all {
        weigh(weight, wants, s)?;
    }
    Ok(())
}

fn has(words: &[u32], word: u32) -> bool {
    let mut found = false;
    for other in words {
        found = found || *other == word;
    }
    found
}

// The word with the greatest weight among those not chosen yet.
fn heaviest(wants: &[Want], chosen: &[u32]) -> Option<u32> {
    let mut most = LEAST - 1;
    let mut found = None;
    for want in wants {
        if want.weight > most && !has(chosen, want.word) {
            most = want.weight;
            found = Some(want.word);
        }
    }
    found
}

/// The words that conditions compare with most often in loops, at most eight.
pub fn wanted_words(alloc: Global, code: &Statement) -> Result<Vec<u32>, AllocError>
    ensures { IfOk result (λ words. length words.items ≤ most_held) }
{
    let mut wants = Vec::new(alloc);
    weigh(1, &mut wants, code)?;
    let mut chosen = Vec::new(alloc);
    while chosen.len() < MOST_HELD {
        match heaviest(wants.as_slice(), chosen.as_slice()) {
            Some(word) => chosen.push(word)?,
            None => return Ok(chosen),
        }
    }
    Ok(chosen)
}
