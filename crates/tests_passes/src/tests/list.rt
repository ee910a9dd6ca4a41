// Tests of the instruction list, from outside: labels across edits, worked out by hand; a list that is emptied and filled again;
// items that are dropped exactly once; and the greatest number of labels.

use cc_instr_list::InstrList;
use std::rc::Rc;
use std::string::String;
use std::test::*;
use tests_texts::verdict::{passes, row_passes};

/// An edit and the number that it gives (the label of a new item, or the item that was there), or what a list has.
enum Step {
    /// An item that is added at the end, and its label.
    Push(u32, u32),
    /// A label, an item that is added before it, and the new item's label.
    Insert(u32, u32, u32),
    /// A label, its new item and its old one.
    Replace(u32, u32, u32),
    /// A label, and its item, which is taken out.
    Unlink(u32, u32),
    /// A label that is not in the list.
    Without(u32),
    /// How many labels have been given, and the labels and items from the first one on.
    Has(u32, &'static [(u32, u32)]),
}

fn push(list: &mut InstrList<u32>, item: u32) -> Option<u32> {
    if list.given() >= 65536 {
        return None;
    }
    list.push_back(item).ok()
}

fn insert(list: &mut InstrList<u32>, label: u32, item: u32) -> Option<u32> {
    if list.given() >= 65536 {
        return None;
    }
    match list.at(label) {
        Some(_) => list.insert_before(label, item).ok(),
        None => None,
    }
}

fn replace(list: &mut InstrList<u32>, label: u32, item: u32) -> Option<u32> {
    match list.at(label) {
        Some(_) => Some(list.replace(label, item)),
        None => None,
    }
}

fn unlink(list: &mut InstrList<u32>, label: u32) -> Option<u32> {
    match list.at(label) {
        Some(_) => Some(list.unlink(label)),
        None => None,
    }
}

// The item under a label, and the labels before and after it.
fn neighbours(list: &InstrList<u32>, label: u32) -> Option<(u32, Option<u32>, Option<u32>)> {
    match list.at(label) {
        Some(item) => Some((*item, list.prev(label), list.next(label))),
        None => None,
    }
}

// Whether a list has these labels and items, from its first one on, and from each back to the one before.
fn has(list: &InstrList<u32>, wanted: &[(u32, u32)]) -> bool {
    let mut right = list.len() == wanted.len() && list.is_empty() == wanted.is_empty();
    let mut before = None;
    let mut next = list.first();
    for (label, item) in wanted {
        right = right && next == Some(*label);
        next = match neighbours(list, *label) {
            Some((found, previous, after)) => {
                right = right && found == *item && previous == before;
                after
            }
            None => return false,
        };
        before = Some(*label);
    }
    right && next.is_none()
}

fn is_done(list: &mut InstrList<u32>, step: &Step) -> bool {
    match step {
        Step::Push(item, label) => push(list, *item) == Some(*label),
        Step::Insert(before, item, label) => insert(list, *before, *item) == Some(*label),
        Step::Replace(label, item, old) => replace(list, *label, *item) == Some(*old),
        Step::Unlink(label, item) => unlink(list, *label) == Some(*item),
        Step::Without(label) => list.at(*label).is_none(),
        Step::Has(given, items) => list.given() == *given && has(list, items),
    }
}

fn plays(list: &mut InstrList<u32>, steps: &[Step]) -> Result<(), Fail> {
    for (number, step) in steps.iter().enumerate() {
        row_passes(number, Ok(is_done(list, step)))?;
    }
    Ok(())
}

static LABELS_STAY: [Step; 10] = [
    Step::Push(10, 0),
    Step::Push(20, 1),
    Step::Push(30, 2),
    Step::Unlink(1, 20),
    Step::Insert(2, 25, 3),
    Step::Has(4, &[(0, 10), (3, 25), (2, 30)]),
    Step::Replace(0, 11, 10),
    Step::Has(4, &[(0, 11), (3, 25), (2, 30)]),
    Step::Without(1),
    Step::Without(4),
];

#[test]
fn labels_stay_through_edits(rt: HostRuntime) -> Result<(), Fail> {
    plays(&mut InstrList::new(rt.alloc()), LABELS_STAY.as_slice())
}

static EMPTIES: [Step; 8] = [
    Step::Has(0, &[]),
    Step::Push(1, 0),
    Step::Insert(0, 2, 1),
    Step::Unlink(0, 1),
    Step::Unlink(1, 2),
    Step::Has(2, &[]),
    Step::Push(3, 2),
    Step::Has(3, &[(2, 3)]),
];

#[test]
fn a_list_empties_and_fills_again(rt: HostRuntime) -> Result<(), Fail> {
    plays(&mut InstrList::new(rt.alloc()), EMPTIES.as_slice())
}

// Adds one more reference to the text.
fn share(list: &mut InstrList<Rc<String>>, text: &Rc<String>) -> bool {
    if list.given() >= 65536 {
        return false;
    }
    let Ok(copy) = text.clone() else {
        return false;
    };
    match list.push_back(copy) {
        Ok(_) => true,
        Err(refused) => {
            drop(refused.value);
            false
        }
    }
}

// Takes the item under a label out.
fn forget(list: &mut InstrList<Rc<String>>, label: u32) -> bool {
    match list.at(label) {
        Some(_) => {
            drop(list.unlink(label));
            true
        }
        None => false,
    }
}

// Puts another reference to the text under a label.
fn renew(list: &mut InstrList<Rc<String>>, label: u32, text: &Rc<String>) -> bool {
    let Ok(copy) = text.clone() else {
        return false;
    };
    match list.at(label) {
        Some(_) => {
            drop(list.replace(label, copy));
            true
        }
        None => {
            drop(copy);
            false
        }
    }
}

// How many references there are after three are added, after one is taken out, and after one is replaced.
fn references(list: &mut InstrList<Rc<String>>, text: &Rc<String>) -> Option<[usize; 3]> {
    if !(share(list, text) && share(list, text) && share(list, text)) {
        return None;
    }
    let full = Rc::strong_count(text);
    let is_unlinked = forget(list, 1);
    let unlinked = Rc::strong_count(text);
    let is_replaced = renew(list, 2, text);
    let replaced = Rc::strong_count(text);
    if is_unlinked && is_replaced {
        Some([full, unlinked, replaced])
    } else {
        None
    }
}

#[test]
fn each_item_is_dropped_once(rt: HostRuntime) -> Result<(), Fail> {
    let shared = Rc::new(rt.alloc(), String::from_str(rt.alloc(), "text")?)?;
    let mut list = InstrList::new(rt.alloc());
    let counts = references(&mut list, &shared);
    drop(list);
    let dropped = Rc::strong_count(&shared);
    drop(shared);
    passes(Ok(counts == Some([4, 3, 3]) && dropped == 1))
}

// Whether items are added up to the most labels that a list gives, each with the next one.
fn fills(list: &mut InstrList<u32>) -> bool {
    let mut right = true;
    for item in 0..65536u32 {
        right = push(list, item) == Some(item) && right;
    }
    right && list.given() == 65536 && list.at(65535) == Some(&65535)
}

#[test]
fn a_list_of_the_most_labels_takes_no_stack(rt: HostRuntime) -> Result<(), Fail> {
    passes(Ok(fills(&mut InstrList::new(rt.alloc()))))
}

// Adds an item at the end, and checks that it has the next label. If memory ran out, checks that the item came back, that the
// list did not change, and that the item can then be added.
fn pushes(list: &mut InstrList<u32>, item: u32) -> bool {
    let (given, before) = (list.given(), list.len());
    if given >= 65536 {
        return false;
    }
    match list.push_back(item) {
        Ok(label) => label == given,
        Err(refused) => {
            let stayed = refused.value == item && list.given() == given && list.len() == before;
            stayed && list.push_back(refused.value).is_ok()
        }
    }
}

// Adds an item before the first one, with the same checks: the item is then the first.
fn inserts(list: &mut InstrList<u32>, item: u32) -> bool {
    let (given, before) = (list.given(), list.len());
    let Some(first) = list.first() else {
        return false;
    };
    if given >= 65536 {
        return false;
    }
    match list.insert_before(first, item) {
        Ok(label) => list.first() == Some(label),
        Err(refused) => {
            let stayed = refused.value == item && list.given() == given && list.len() == before;
            stayed && list.insert_before(first, refused.value).is_ok()
        }
    }
}

// Whether 40 items are added; each may be refused once, for lack of memory.
fn grows(list: &mut InstrList<u32>) -> bool {
    let mut right = true;
    for item in 0..20u32 {
        right = right && pushes(list, item);
    }
    for item in 20..40u32 {
        right = right && inserts(list, item);
    }
    right && list.len() == 40
}

// Any of these requests for memory may be refused (`tests/outside/memory.sh list` refuses each in turn).
#[test]
fn a_refused_growth_hands_the_item_back(rt: HostRuntime) -> Result<(), Fail> {
    passes(Ok(grows(&mut InstrList::new(rt.alloc()))))
}
