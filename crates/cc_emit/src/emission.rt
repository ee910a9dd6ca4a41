// The items of a function's code: those of one step, and those of all steps after the prologue.

ghost use Rattle.std.specs.Prelude.{◌≡◌, ◌≤◌, ◌<◌, ◌+◌, ◌^◌, ◌++◌, ◌∷◌, [], ℕ, List, true, length, get_or, OnOk, IfOk};
ghost use Rattle.std.specs.List.{AllByRecursion};
ghost use Rattle.cc_ltl.specs.Registers.{most_slots};
ghost use Rattle.cc_select.specs.declared.step.Step.TheVariants.{One};
ghost use Rattle.cc_select.specs.Selected.{labels, IsStep};
ghost use Rattle.cc_rv32.specs.Fields.{IsImmediate};
ghost use Rattle.cc_rv32.specs.declared.instr.Instr.TheVariants.{Load, Store};
ghost use Rattle.cc_emit.specs.Contract.{load_of, store_of};
ghost use Rattle.cc_emit.specs.Emission.{low, items_of_one, items_of_step, move_item, upper_items, base_register, part_of, based, indexed, known_place, load_at, store_at, service, prologue, framed_items};
ghost use Rattle.cc_emit.specs.Function.{behind as behind_items, shifted, whole_items, function_items};
ghost use Rattle.cc_emit.specs.declared.item.PieceItem.TheVariants.{Plain};
ghost use Rattle.cc_emit.specs.internal.Bases.{base_in};
ghost use Rattle.cc_emit.specs.internal.Behind.{reaches, near_behind, place_from, behind, ArePlaces, StepLeadsBelow, LeadsBelow};

use crate::addressed::{Addressed, Remembered};
use crate::bases::Bases;
use crate::branches::{put_branch_to, put_word_branch_to};
use crate::condition::Condition;
use crate::constants::put_constant;
use crate::early::before_frame;
use crate::frame::Frame;
use crate::instructions::{
    OTHER_SCRATCH, POINTER, SCRATCH, SERVICE, STACK, ZERO, add_immediate, four_times, from_pointer,
    high, known_place, load, load_element, load_upper, low, operate, put, put_item, serve, store,
    store_element,
};
use crate::item::PieceItem;
use crate::operators::{put_binary, put_immediate, unary};
use crate::recipe::WordRecipe;
use crate::scratch::addressed;
use crate::tables::{Places, label_count, long_size};
use cc_linear_language::LinearItem;
use cc_ltl::Move;
use cc_rv32::instr::{BranchOperation, Instr, RegisterOperation};
use cc_select::Step;
use cc_words::Width;
use std::alloc::{AllocError, Global};

/// The machine's service that writes a word.
const WRITE: u32 = 1;
/// The machine's service that reads a word.
const READ: u32 = 2;

// Moves a word from one location to another.
fn move_word(between: Move) -> Instr
    ensures { Plain result ≡ move_item between }
{
    match between {
        Move::Between { to, from } => add_immediate(to.number(), from.number(), 0),
        Move::Reload { to, slot } => load(to.number(), STACK, 4 * u32::from(slot.number())),
        Move::Spill { slot, from } => store(STACK, from.number(), 4 * u32::from(slot.number())),
    }
}

// Emits the instruction that sets x6 to the upper part of an address, if the part is needed and x6 does not hold it yet.
fn put_upper(items: &mut Vec<PieceItem>, known: Remembered, address: u32) -> Result<(), AllocError>
    ensures { OnOk result (items.new.items ≡ items.old.items ++ upper_items known address) }
{
    match known {
        Remembered::Nothing => put(items, load_upper(OTHER_SCRATCH, high(address))),
        Remembered::Upper
        | Remembered::Element
        | Remembered::ByPointer
        | Remembered::ElementByPointer => Ok(()),
    }
}

// The register from which an address is reached. If x5 holds the element's address, the answer is not used.
fn base_register(known: Remembered) -> u8
    ensures value { result ≡ base_register known }
    ensures below { result < 32 }
{
    match known {
        Remembered::ByPointer => POINTER,
        Remembered::Nothing
        | Remembered::Upper
        | Remembered::Element
        | Remembered::ElementByPointer => OTHER_SCRATCH,
    }
}

// The offset of an access from the base register, or from what x5 holds of an element's address: the object's part of the address.
fn part_of(known: Remembered, address: u32) -> u32
    ensures value { result ≡ part_of known address }
    ensures fits { IsImmediate result }
{
    match known {
        Remembered::ByPointer | Remembered::ElementByPointer => from_pointer(address),
        Remembered::Nothing | Remembered::Upper | Remembered::Element => low(address),
    }
}

// Emits an access to an element whose distance in bytes from the first element is in the register `distance`: x5 becomes the element's
// address, minus the object's part of the address.
fn put_based(
    items: &mut Vec<PieceItem>,
    known: Remembered,
    base: u32,
    distance: u8,
    access: Instr,
) -> Result<(), AllocError>
    requires { distance < 32 }
    ensures { OnOk result (items.new.items ≡ items.old.items ++ based known base distance (Plain access ∷ [])) }
{
    put_upper(items, known, base)?;
    put(
        items,
        operate(
            RegisterOperation::Add,
            SCRATCH,
            distance,
            base_register(known),
        ),
    )?;
    put(items, access)
}

// Emits an access to the element whose number is in the register `index`.
fn put_indexed(
    items: &mut Vec<PieceItem>,
    known: Remembered,
    width: Width,
    base: u32,
    index: u8,
    access: Instr,
) -> Result<(), AllocError>
    requires { index < 32 }
    ensures { OnOk result (items.new.items ≡ items.old.items ++ indexed known width base index (Plain access ∷ [])) }
{
    match (known, width) {
        (Remembered::Element | Remembered::ElementByPointer, _) => put(items, access),
        (_, Width::Byte) => put_based(items, known, base, index, access),
        (_, Width::Word) => {
            put(items, four_times(SCRATCH, index))?;
            put_based(items, known, base, SCRATCH, access)
        }
    }
}

// Emits a load of an element of an object whose address is `base`.
fn put_load(
    items: &mut Vec<PieceItem>,
    known: Remembered,
    width: Width,
    base: u32,
    to: u8,
    index: u8,
) -> Result<(), AllocError>
    requires to { to < 32 }
    requires index { index < 32 }
    ensures { OnOk result (items.new.items ≡ items.old.items ++ indexed known width base index (Plain (Load (load_of width) to 5 (part_of known base)) ∷ [])) }
{
    let access = load_element(width, to, SCRATCH, part_of(known, base));
    put_indexed(items, known, width, base, index, access)
}

// Emits a store into an element of an object whose address is `base`.
fn put_store(
    items: &mut Vec<PieceItem>,
    known: Remembered,
    width: Width,
    base: u32,
    index: u8,
    from: u8,
) -> Result<(), AllocError>
    requires index { index < 32 }
    requires from { from < 32 }
    ensures { OnOk result (items.new.items ≡ items.old.items ++ indexed known width base index (Plain (Store (store_of width) 5 from (part_of known base)) ∷ [])) }
{
    let access = store_element(width, SCRATCH, from, part_of(known, base));
    put_indexed(items, known, width, base, index, access)
}

// Emits a load of element `number` of an object whose address is `base`.
fn put_load_at(
    items: &mut Vec<PieceItem>,
    known: Remembered,
    width: Width,
    base: u32,
    to: u8,
    number: u32,
) -> Result<(), AllocError>
    requires { to < 32 }
    ensures { OnOk result (items.new.items ≡ items.old.items ++ load_at known width to (known_place width base number)) }
{
    let address = known_place(width, base, number);
    put_upper(items, known, address)?;
    let access = load_element(width, to, base_register(known), part_of(known, address));
    put(items, access)
}

// Emits a store into element `number` of an object whose address is `base`.
fn put_store_at(
    items: &mut Vec<PieceItem>,
    known: Remembered,
    width: Width,
    base: u32,
    number: u32,
    from: u8,
) -> Result<(), AllocError>
    requires { from < 32 }
    ensures { OnOk result (items.new.items ≡ items.old.items ++ store_at known width from (known_place width base number)) }
{
    let address = known_place(width, base, number);
    put_upper(items, known, address)?;
    let access = store_element(width, base_register(known), from, part_of(known, address));
    put(items, access)
}

// Emits a call of one of the machine's services.
fn put_service(items: &mut Vec<PieceItem>, number: u32) -> Result<(), AllocError>
    requires { number < 2048 }
    ensures { OnOk result (items.new.items ≡ items.old.items ++ service number) }
{
    put(items, add_immediate(SERVICE, ZERO, number))?;
    put(items, serve())
}

// Emits the items of one item of Linear. `known` is how much the registers hold of the address that the item accesses, `here` the number of
// items from this one to the end, with each branch in its long form; `bases` has the objects' addresses.
fn put_items_of_one(
    items: &mut Vec<PieceItem>,
    frame: &Frame,
    places: &Places,
    bases: &Bases,
    here: usize,
    known: Remembered,
    item: LinearItem,
) -> Result<(), AllocError>
    requires leads { StepLeadsBelow (length places.now.second.items) (One item) }
    requires within { (label : ℕ) → label < length places.now.second.items → get_or places.now.second.items label 0 ≤ places.now.end }
    requires reach { (label : ℕ) → label < length places.now.second.items → near_behind places.now.first.items here label ≡ true → reaches (length items.old.items) (place_from places.now.second.items places.now.end label) ≡ true }
    ensures { OnOk result (items.new.items ≡ items.old.items ++ items_of_one (base_in bases.now) frame.now (near_behind places.now.first.items here) (place_from places.now.second.items places.now.end) (length items.old.items) known item) }
{
    match item {
        LinearItem::Label { .. } => Ok(()),
        LinearItem::Jump { to } => put_item(items, PieceItem::Go(places.place(to))),
        LinearItem::IfNonzero { from, to } => {
            let condition = Condition::new(BranchOperation::Bne, from.number(), ZERO);
            put_branch_to(items, places, here, condition, to)
        }
        LinearItem::IfZero { from, to } => {
            let condition = Condition::new(BranchOperation::Beq, from.number(), ZERO);
            put_branch_to(items, places, here, condition, to)
        }
        LinearItem::Copy { between } => put(items, move_word(between)),
        LinearItem::Const { to, word } => put_constant(items, to.number(), word),
        LinearItem::Unary { operator, to, from } => {
            put(items, unary(operator, to.number(), from.number()))
        }
        LinearItem::Binary {
            operator,
            to,
            left,
            right,
        } => put_binary(items, operator, to.number(), left.number(), right.number()),
        LinearItem::Load {
            width,
            object,
            to,
            index,
        } => put_load(
            items,
            known,
            width,
            bases.of(object),
            to.number(),
            index.number(),
        ),
        LinearItem::Store {
            width,
            object,
            index,
            from,
        } => put_store(
            items,
            known,
            width,
            bases.of(object),
            index.number(),
            from.number(),
        ),
        LinearItem::Call { function } => put_item(items, PieceItem::Call(function)),
        LinearItem::Read => put_service(items, READ),
        LinearItem::Write => put_service(items, WRITE),
        LinearItem::Return => frame.put_epilogue(items),
    }
}

// Emits the items of a step. `known` is how much the registers hold of the address that the step accesses, `here` the number of items from
// the step to the end, with each branch in its long form; `bases` has the objects' addresses.
fn put_items_of(
    items: &mut Vec<PieceItem>,
    frame: &Frame,
    places: &Places,
    bases: &Bases,
    here: usize,
    known: Remembered,
    step: Step,
) -> Result<(), AllocError>
    requires leads { StepLeadsBelow (length places.now.second.items) step }
    requires within { (label : ℕ) → label < length places.now.second.items → get_or places.now.second.items label 0 ≤ places.now.end }
    requires reach { (label : ℕ) → label < length places.now.second.items → near_behind places.now.first.items here label ≡ true → reaches (length items.old.items) (place_from places.now.second.items places.now.end label) ≡ true }
    requires next { (label : ℕ) → label < length places.now.second.items → near_behind places.now.first.items here label ≡ true → reaches (length items.old.items + 1) (place_from places.now.second.items places.now.end label) ≡ true }
    ensures { OnOk result (items.new.items ≡ items.old.items ++ items_of_step (base_in bases.now) frame.now (near_behind places.now.first.items here) (place_from places.now.second.items places.now.end) (length items.old.items) known step) }
{
    match step {
        Step::One(item) => put_items_of_one(items, frame, places, bases, here, known, item),
        Step::Immediate {
            operator,
            to,
            from,
            word,
        } => put_immediate(items, operator, to.number(), from.number(), word),
        Step::LoadAt {
            width,
            object,
            to,
            number,
        } => put_load_at(items, known, width, bases.of(object), to.number(), number),
        Step::StoreAt {
            width,
            object,
            number,
            from,
        } => put_store_at(items, known, width, bases.of(object), number, from.number()),
        Step::LoadNear {
            width,
            object,
            to,
            index,
            word,
        } => {
            let base = known_place(width, bases.of(object), word);
            put_load(items, known, width, base, to.number(), index.number())
        }
        Step::StoreNear {
            width,
            object,
            index,
            word,
            from,
        } => {
            let base = known_place(width, bases.of(object), word);
            put_store(items, known, width, base, index.number(), from.number())
        }
        Step::Branch {
            operator,
            nonzero,
            left,
            right,
            to,
        } => {
            let condition = Condition::of_comparison(operator, left.number(), right.number());
            put_branch_to(items, places, here, condition.turned(nonzero), to)
        }
        Step::BranchImmediate {
            operator,
            nonzero,
            from,
            word,
            to,
        } => {
            let recipe = WordRecipe::of(operator, word);
            put_word_branch_to(items, places, here, recipe, nonzero, from.number(), to)
        }
    }
}

// Emits the items that follow a function's prologue.
fn put_code(
    items: &mut Vec<PieceItem>,
    frame: &Frame,
    places: &Places,
    bases: &Bases,
    steps: &[Addressed],
) -> Result<(), AllocError>
    requires opened { items.old.items ≡ prologue frame.now }
    requires places { ArePlaces frame.now steps.now places.now.first.items places.now.second.items places.now.end }
    requires long { places.now.long ≡ behind frame.now [] steps.now }
    requires leads { AllByRecursion (LeadsBelow (length places.now.first.items)) steps.now }
    ensures { OnOk result (items.new.items ≡ framed_items (base_in bases.now) frame.now steps.now) }
{
    let mut here = places.long();
    for step in steps {
        put_items_of(items, frame, places, bases, here, step.known, step.step)?;
        here -= long_size(frame, step);
    }
    Ok(())
}

// The items of the code of a function with `slots` slots, with all of the code in the frame. `bases` has the objects' addresses, and each
// label is below `count`. Err: memory ran out.
fn whole_items(
    alloc: Global,
    slots: u16,
    code: &[Step],
    bases: &Bases,
    count: usize,
) -> Result<Vec<PieceItem>, AllocError>
    requires slots { slots ≤ most_slots }
    requires labels { AllByRecursion (λ label. label < count) (labels code.now) }
    requires fit { (functions : ℕ) × (all : List ℕ) × AllByRecursion (λ label. label < count) all × AllByRecursion (IsStep slots functions all) code.now }
    requires few { length code.now ≤ 2 ^ 56 }
    ensures { IfOk result (λ items. items.items ≡ whole_items (base_in bases.now) slots code.now) }
{
    let (steps, sets_pointer) = addressed(alloc, bases, code, count)?;
    let frame = Frame::new(alloc, sets_pointer, slots, code)?;
    let places = Places::new(alloc, &frame, steps.as_slice(), count)?;
    let mut items = Vec::with_capacity(alloc, places.end())?;
    frame.put_prologue(&mut items)?;
    put_code(&mut items, &frame, &places, bases, steps.as_slice())?;
    Ok(items)
}

// An item of code, adjusted for the `before` items that are put in front of it. No memory holds enough items for the sum to overflow.
fn shifted(before: usize, item: PieceItem) -> Result<PieceItem, AllocError>
    ensures { IfOk result (λ moved. moved ≡ shifted before item) }
{
    match item {
        PieceItem::Go(to) => match to.checked_add(before) {
            Some(to) => Ok(PieceItem::Go(to)),
            None => Err(AllocError),
        },
        PieceItem::Plain(_) | PieceItem::Call(_) => Ok(item),
    }
}

// Emits the items of `rest`, adjusted for the items before them.
fn put_behind(items: &mut Vec<PieceItem>, rest: &[PieceItem]) -> Result<(), AllocError>
    ensures { OnOk result (items.new.items ≡ behind_items items.old.items rest.now) }
{
    let before = items.len();
    for item in rest {
        let moved = shifted(before, *item)?;
        put_item(items, moved)?;
    }
    Ok(())
}

/// The items of the code of a function with `slots` slots; `bases` has the objects' addresses. Err: memory ran out.
pub(crate) fn function_items(
    alloc: Global,
    slots: u16,
    code: &[Step],
    bases: &Bases,
) -> Result<Vec<PieceItem>, AllocError>
    requires slots { slots ≤ most_slots }
    requires fit { (functions : ℕ) × AllByRecursion (IsStep slots functions (labels code.now)) code.now }
    requires few { length code.now ≤ 2 ^ 55 }
    ensures { IfOk result (λ items. items.items ≡ function_items (base_in bases.now) slots code.now) }
{
    let count = label_count(code);
    let Some(ahead) = before_frame(alloc, slots, code)? else {
        return whole_items(alloc, slots, code, bases, count);
    };
    let mut items = whole_items(alloc, 0, ahead.head.as_slice(), bases, count)?;
    let rest = whole_items(alloc, slots, &code[ahead.taken..], bases, count)?;
    put_behind(&mut items, rest.as_slice())?;
    Ok(items)
}
