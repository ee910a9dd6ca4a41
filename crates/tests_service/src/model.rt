// A model of the map: three names, each with the place of its unit's text if it has one. It says how a call is answered, and
// what a history leads to.

use crate::helpers::{NAMES, TEXTS, bytes_at, name_at};
use cc_disk::Disk;
use cc_history::{Asked, Command, Receipt, Reply, SharedEntry};
use cc_library::{Library, Name};
use std::alloc::Global;
use std::test::Fail;

/// What a call changes: a name's unit, given by the places of the name and of the text.
#[derive(Clone, Copy)]
pub enum Change {
    Add(usize, usize),
    Replace(usize, usize),
    Withdraw(usize),
}

/// A call: a change, a rewrite, a look at a name, or at all names.
#[derive(Clone, Copy)]
pub enum Call {
    Make(Change),
    Compact,
    Get(usize),
    List,
}

/// Each name's text.
pub type Model = [Option<usize>; 3];

/// A map without names.
pub const EMPTY: Model = [None, None, None];

fn text_of(model: &Model, name: usize) -> Option<usize> {
    if name < 3 { model[name] } else { None }
}

fn set(model: &Model, name: usize, text: Option<usize>) -> Model {
    let mut new = *model;
    if name < 3 {
        new[name] = text;
    }
    new
}

/// The number that answers a call on a device that does not fail: 31, 32, or 0 for Ok.
pub fn number_of(model: &Model, call: Call) -> u32 {
    match call {
        Call::Make(Change::Add(name, _)) => if text_of(model, name).is_some() {
            31
        } else {
            0
        },
        Call::Make(Change::Replace(name, _)) | Call::Make(Change::Withdraw(name)) => {
            if text_of(model, name).is_some() {
                0
            } else {
                32
            }
        }
        _ => 0,
    }
}

/// The model after a call that was answered Ok.
pub fn after(model: &Model, call: Call) -> Model {
    match call {
        Call::Make(Change::Add(name, text)) | Call::Make(Change::Replace(name, text)) => {
            set(model, name, Some(text))
        }
        Call::Make(Change::Withdraw(name)) => set(model, name, None),
        _ => *model,
    }
}

/// Whether these are the model's names, in order.
pub fn are_names(names: &[Name], model: &Model) -> bool {
    let mut rest = names.iter();
    for place in 0..3usize {
        if text_of(model, place).is_some() {
            match rest.next() {
                Some(name) => if name.bytes() != bytes_at(&NAMES, place) {
                    return false;
                },
                None => return false,
            }
        }
    }
    rest.next().is_none()
}

// Whether this is the source of the unit that the model has under a name.
fn is_source(source: &[u8], model: &Model, name: usize) -> bool {
    match text_of(model, name) {
        Some(text) => source == bytes_at(&TEXTS, text),
        None => false,
    }
}

/// Whether this is the model's reply to a call that was answered with `number`.
pub fn is_reply(reply: &Reply, model: &Model, call: Call, number: u32) -> bool {
    match reply {
        Reply::Done => match call {
            Call::Make(_) => number == 0,
            _ => false,
        },
        Reply::Exists => number == 31,
        Reply::Absent => match call {
            Call::Get(name) => text_of(model, name).is_none(),
            _ => number == 32,
        },
        Reply::Unit(unit) => match call {
            Call::Get(name) => is_source(unit.stored().source.bytes(), model, name),
            _ => false,
        },
        Reply::Names(names) => match call {
            Call::List => are_names(names.as_slice(), model),
            _ => false,
        },
    }
}

/// Whether a library has exactly the model's units.
pub fn shows<D: Disk>(alloc: Global, library: &Library<D>, model: &Model) -> Result<bool, Fail> {
    if !are_names(&library.list(alloc)?, model) {
        return Ok(false);
    }
    for place in 0..3usize {
        if let Some(unit) = library.get(&name_at(place)?)
            && !is_source(unit.source.bytes(), model, place)
        {
            return Ok(false);
        }
    }
    Ok(true)
}

// The place of these bytes in a table, or 3.
fn place_of(table: &[&'static [u8]; 3], bytes: &[u8]) -> usize {
    for place in 0..3usize {
        if bytes_at(table, place) == bytes {
            return place;
        }
    }
    3
}

// The call that asks this, given by the places of its name and its text.
fn call_of(asked: &Asked) -> Call {
    match asked {
        Asked::Change(Command::Add(name, unit)) => Call::Make(Change::Add(
            place_of(&NAMES, name.bytes()),
            place_of(&TEXTS, unit.stored().source.bytes()),
        )),
        Asked::Change(Command::Replace(name, unit)) => Call::Make(Change::Replace(
            place_of(&NAMES, name.bytes()),
            place_of(&TEXTS, unit.stored().source.bytes()),
        )),
        Asked::Change(Command::Withdraw(name)) => {
            Call::Make(Change::Withdraw(place_of(&NAMES, name.bytes())))
        }
        Asked::Fetch(name) => Call::Get(place_of(&NAMES, name.bytes())),
        Asked::Names => Call::List,
    }
}

// Whether the entry at a receipt's number is this call of this client.
fn is_standing(history: &[SharedEntry], receipt: &Receipt, client: u64, call: u64) -> bool {
    let Some(before) = receipt.number.checked_sub(1) else {
        return false;
    };
    match history.get(before as usize) {
        Some(shared) => {
            let entry = shared.entry();
            entry.client == client && entry.call == call && receipt.entry.entry().call == call
        }
        None => false,
    }
}

// Whether the receipts of each client are in the history, as those of its calls from 1 on, and no entry is without one. The
// clients are numbered from 0.
fn are_standing(history: &[SharedEntry], receipts: &[Vec<Receipt>]) -> bool {
    let mut count = 0usize;
    for (client, own) in receipts.iter().enumerate() {
        for (before, receipt) in own.iter().enumerate() {
            if !is_standing(
                history,
                receipt,
                client as u64,
                (before as u64).saturating_add(1),
            ) {
                return false;
            }
        }
        count = count.saturating_add(own.len());
    }
    count == history.len()
}

/// The map after a history that began with an empty map; `None` if an entry's answer is not the model's, or a client's
/// receipts are not those of its entries.
pub fn replayed(history: &[SharedEntry], receipts: &[Vec<Receipt>]) -> Option<Model> {
    let mut model = EMPTY;
    for shared in history {
        let entry = shared.entry();
        let call = call_of(&entry.asked);
        let number = number_of(&model, call);
        if !is_reply(&entry.reply, &model, call, number) {
            return None;
        }
        if number == 0 {
            model = after(&model, call);
        }
    }
    if are_standing(history, receipts) {
        Some(model)
    } else {
        None
    }
}
