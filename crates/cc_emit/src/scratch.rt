// What the scratch registers hold within straight-line code. An access leaves in `x6` the upper part of an address, and in `x5` the address
// of an element, minus the lower part of its object's address or minus the object's distance from `x3`. Later accesses use what they need
// of these. What the registers hold is forgotten at a label and at a call; the element's address is also forgotten if its index register is
// written or `x5` is used. An access from `x3`, the global pointer, needs no upper part. A function sets `x3` if its accesses then need
// fewer instructions, including those that set it; accesses in loops count eight times.

ghost use Rattle.std.specs.Prelude.{◌≡◌, ◌≤◌, ◌<◌, ◌^◌, Bool, [], length, if◌then◌else◌, IfOk};
ghost use Rattle.std.specs.List.{AllByRecursion};
ghost use Rattle.cc_words.specs.Widths.{same_width};
ghost use Rattle.cc_select.specs.declared.step.Step.TheVariants.{One};
ghost use Rattle.cc_select.specs.Selected.{labels};
ghost use Rattle.cc_emit.specs.Emission.{recipe};
ghost use Rattle.cc_emit.specs.Branches.{against_zero};
ghost use Rattle.cc_emit.specs.Scratch.{nothing, is_upper, is_address, is_in_reach, known_of, known_at, remembered, without, without_address, upper_behind, sum_base, step_access_size, loop_weight, accesses_size, gains, behind_move, behind_recipe, behind_word_recipe, behind_word_branch, behind_element, behind_at, behind_one, behind_step, addressed};
ghost use Rattle.cc_emit.specs.internal.Bases.{base_in};
ghost use Rattle.cc_emit.specs.internal.Loops.{AreLast};

use crate::addressed::{Addressed, Remembered};
use crate::bases::Bases;
use crate::condition::Condition;
use crate::frame::pointer_size;
use crate::instructions::{GLOBAL_POINTER, SERVICE, high, known_place};
use crate::loops::{last_leads, reach_past};
use crate::recipe::{Recipe, WordRecipe};
use crate::tables::{access_size, known_access_size};
use cc_linear_language::LinearItem;
use cc_ltl::Move;
use cc_rv32::map::GLOBALS_FROM;
use cc_select::Step;
use cc_words::Width;
use std::alloc::{AllocError, Global};

/// The register in which a read leaves its word.
const RESULT: u8 = 10;

/// The address of an element of an object, minus the lower part of the object's address or minus the object's distance from `x3`.
#[derive(Clone, Copy)]
pub(crate) struct ElementAddress {
    width: Width,
    /// The register that holds the element's number.
    index: u8,
    /// The part of the address that does not depend on the index: the upper part of the object's address, times 4,096, or the global
    /// pointer.
    sum_base: u32,
}

/// The upper part in `x6`, and the element's address in `x5`, as far as they are known.
#[derive(Clone, Copy)]
pub(crate) struct Scratch {
    upper: Option<u32>,
    address: Option<ElementAddress>,
}

impl Scratch {
    // Nothing is known about either register.
    fn nothing() -> Scratch
        ensures { result ≡ nothing }
    {
        Scratch {
            upper: None,
            address: None,
        }
    }

    // Whether x6 holds this upper part.
    fn is_upper(&self, upper: u32) -> bool
        ensures { result ≡ is_upper self.now.upper upper }
    {
        match self.upper {
            Some(held) => held == upper,
            None => false,
        }
    }

    // Whether x5 holds the sum of `sum_base` and the distance in bytes of this element from the first one.
    fn is_address(&self, width: Width, index: u8, sum_base: u32) -> bool
        ensures { result ≡ is_address self.now.address width index sum_base }
    {
        match self.address {
            Some(held) => is_same(held.width, width)
                && held.index == index
                && held.sum_base == sum_base,
            None => false,
        }
    }

    // How much of the address of an element the registers hold, if the element's number is in a register; `sets_pointer` says whether x3 is
    // the global pointer.
    fn known_of(&self, sets_pointer: bool, width: Width, base: u32, index: u8) -> Remembered
        ensures { result ≡ known_of sets_pointer self.now width base index }
    {
        if self.is_address(width, index, high(base) * 4096) {
            Remembered::Element
        } else if sets_pointer && is_in_reach(base) {
            if self.is_address(width, index, GLOBAL_POINTER) {
                Remembered::ElementByPointer
            } else {
                Remembered::ByPointer
            }
        } else if self.is_upper(high(base)) {
            Remembered::Upper
        } else {
            Remembered::Nothing
        }
    }

    // How much of an address the registers hold.
    fn known_at(&self, sets_pointer: bool, address: u32) -> Remembered
        ensures { result ≡ known_at sets_pointer self.now address }
    {
        if sets_pointer && is_in_reach(address) {
            Remembered::ByPointer
        } else if self.is_upper(high(address)) {
            Remembered::Upper
        } else {
            Remembered::Nothing
        }
    }

    // How much the registers hold of the address that an item of Linear reads or writes.
    fn remembered_of_one(&self, bases: &Bases, sets_pointer: bool, item: LinearItem) -> Remembered
        ensures { result ≡ remembered (base_in bases.now) sets_pointer self.now (One item) }
    {
        match item {
            LinearItem::Load {
                width,
                object,
                to: _,
                index,
            } => self.known_of(sets_pointer, width, bases.of(object), index.number()),
            LinearItem::Store {
                width,
                object,
                index,
                from: _,
            } => self.known_of(sets_pointer, width, bases.of(object), index.number()),
            _ => Remembered::Nothing,
        }
    }

    // How much the registers hold of the address that a step reads or writes.
    fn remembered(&self, bases: &Bases, sets_pointer: bool, step: Step) -> Remembered
        ensures { result ≡ remembered (base_in bases.now) sets_pointer self.now step }
    {
        match step {
            Step::One(item) => self.remembered_of_one(bases, sets_pointer, item),
            Step::LoadAt {
                width,
                object,
                to: _,
                number,
            } => self.known_at(sets_pointer, known_place(width, bases.of(object), number)),
            Step::StoreAt {
                width,
                object,
                number,
                from: _,
            } => self.known_at(sets_pointer, known_place(width, bases.of(object), number)),
            Step::LoadNear {
                width,
                object,
                to: _,
                index,
                word,
            } => {
                let base = known_place(width, bases.of(object), word);
                self.known_of(sets_pointer, width, base, index.number())
            }
            Step::StoreNear {
                width,
                object,
                index,
                word,
                from: _,
            } => {
                let base = known_place(width, bases.of(object), word);
                self.known_of(sets_pointer, width, base, index.number())
            }
            _ => Remembered::Nothing,
        }
    }

    // Notes that a register is written.
    fn write(&mut self, register: u8)
        ensures { self.new ≡ without register self.old }
    {
        match self.address {
            Some(held) if held.index != register => {}
            _ => self.address = None,
        }
    }

    // Notes that `x5` is used.
    fn use_scratch(&mut self)
        ensures { self.new ≡ without_address self.old }
    {
        self.address = None;
    }

    // Advances past a move.
    fn go_behind_move(&mut self, between: Move)
        ensures { self.new ≡ behind_move between self.old }
    {
        match between {
            Move::Between { to, .. } | Move::Reload { to, .. } => self.write(to.number()),
            Move::Spill { .. } => {}
        }
    }

    // Advances past an operator on two words.
    fn go_behind_recipe(&mut self, recipe: Recipe, to: u8)
        ensures { self.new ≡ behind_recipe recipe to self.old }
    {
        match recipe {
            Recipe::Direct(_) => {}
            Recipe::ZeroOf(_) | Recipe::ZeroOfExchanged(_) | Recipe::NonzeroOf(_) => {
                self.use_scratch();
            }
        }
        self.write(to);
    }

    // Advances past an operator on a register and a word.
    fn go_behind_word_recipe(&mut self, recipe: WordRecipe, to: u8)
        ensures { self.new ≡ behind_word_recipe recipe to self.old }
    {
        match recipe {
            WordRecipe::WithImmediate(_, _) | WordRecipe::ShiftBy(_, _) | WordRecipe::OnZero(_) =>
                {}
            WordRecipe::ZeroOfImmediate(_, _) | WordRecipe::NonzeroOfImmediate(_, _) => {
                self.use_scratch();
            }
        }
        self.write(to);
    }

    // Advances past a branch on a register and a word that is not taken.
    fn go_behind_word_branch(&mut self, recipe: WordRecipe, from: u8)
        requires { from < 32 }
        ensures { self.new ≡ behind_word_branch (against_zero recipe from) self.old }
    {
        if Condition::against_zero(recipe, from).is_none() {
            self.use_scratch();
        }
    }

    // The upper part in x6 after an access.
    fn upper_behind(&self, known: Remembered, address: u32) -> Option<u32>
        ensures { result ≡ upper_behind known self.now.upper address }
    {
        match known {
            Remembered::Nothing | Remembered::Upper => Some(high(address)),
            Remembered::Element | Remembered::ByPointer | Remembered::ElementByPointer =>
                self.upper,
        }
    }

    // Advances past an access to an element whose number is in a register; `known` is how much of its address the registers held.
    fn go_behind_element(&mut self, known: Remembered, width: Width, base: u32, index: u8)
        ensures { self.new ≡ behind_element known self.old width base index }
    {
        self.upper = self.upper_behind(known, base);
        self.address = Some(ElementAddress {
            width,
            index,
            sum_base: sum_base(known, base),
        });
    }

    // Advances past an access to an address; `known` is how much of it the registers held.
    fn go_behind_at(&mut self, known: Remembered, address: u32)
        ensures { self.new ≡ behind_at known self.old address }
    {
        self.upper = self.upper_behind(known, address);
    }

    // Advances past an item of Linear; `known` is how much of its element's address the registers held.
    fn go_behind_one(&mut self, bases: &Bases, known: Remembered, item: LinearItem)
        ensures { (sets_pointer : Bool) → known ≡ remembered (base_in bases.now) sets_pointer self.old (One item) → self.new ≡ behind_one (base_in bases.now) sets_pointer item self.old }
    {
        match item {
            LinearItem::Label { .. }
            | LinearItem::Jump { .. }
            | LinearItem::Call { .. }
            | LinearItem::Return => *self = Scratch::nothing(),
            LinearItem::IfNonzero { .. } | LinearItem::IfZero { .. } => {}
            LinearItem::Copy { between } => self.go_behind_move(between),
            LinearItem::Const { to, .. } | LinearItem::Unary { to, .. } => {
                self.write(to.number());
            }
            LinearItem::Binary { operator, to, .. } => {
                self.go_behind_recipe(Recipe::of(operator), to.number());
            }
            LinearItem::Load {
                width,
                object,
                to,
                index,
            } => {
                self.go_behind_element(known, width, bases.of(object), index.number());
                self.write(to.number());
            }
            LinearItem::Store {
                width,
                object,
                index,
                ..
            } => self.go_behind_element(known, width, bases.of(object), index.number()),
            LinearItem::Read => {
                self.write(SERVICE);
                self.write(RESULT);
            }
            LinearItem::Write => self.write(SERVICE),
        }
    }

    // Advances past a step; `known` is how much of its element's address the registers held.
    fn go_behind(&mut self, bases: &Bases, known: Remembered, step: Step)
        ensures { (sets_pointer : Bool) → known ≡ remembered (base_in bases.now) sets_pointer self.old step → self.new ≡ behind_step (base_in bases.now) sets_pointer step self.old }
    {
        match step {
            Step::One(item) => self.go_behind_one(bases, known, item),
            Step::Immediate {
                operator,
                to,
                word,
                ..
            } => self.go_behind_word_recipe(WordRecipe::of(operator, word), to.number()),
            Step::LoadAt {
                width,
                object,
                to,
                number,
            } => {
                self.go_behind_at(known, known_place(width, bases.of(object), number));
                self.write(to.number());
            }
            Step::StoreAt {
                width,
                object,
                number,
                ..
            } => self.go_behind_at(known, known_place(width, bases.of(object), number)),
            Step::LoadNear {
                width,
                object,
                to,
                index,
                word,
            } => {
                let base = known_place(width, bases.of(object), word);
                self.go_behind_element(known, width, base, index.number());
                self.write(to.number());
            }
            Step::StoreNear {
                width,
                object,
                index,
                word,
                ..
            } => {
                let base = known_place(width, bases.of(object), word);
                self.go_behind_element(known, width, base, index.number());
            }
            Step::Branch { .. } => {}
            Step::BranchImmediate {
                operator,
                from,
                word,
                ..
            } => self.go_behind_word_branch(WordRecipe::of(operator, word), from.number()),
        }
    }
}

// Whether two widths are the same.
fn is_same(left: Width, right: Width) -> bool
    ensures { result ≡ same_width left right }
{
    matches!(
        (left, right),
        (Width::Byte, Width::Byte) | (Width::Word, Width::Word)
    )
}

// Whether an address lies within the first 4 KiB of the globals, which x3 reaches.
fn is_in_reach(address: u32) -> bool
    ensures { result ≡ is_in_reach address }
{
    GLOBALS_FROM <= address && address < GLOBALS_FROM + 4096
}

// What x5 holds after an access, minus the element's distance in bytes from the first element.
fn sum_base(known: Remembered, base: u32) -> u32
    ensures { result ≡ sum_base known base }
{
    match known {
        Remembered::ByPointer | Remembered::ElementByPointer => GLOBAL_POINTER,
        Remembered::Nothing | Remembered::Upper | Remembered::Element => high(base) * 4096,
    }
}

// The number of instructions that the access of a step needs: at most 4, and 0 if the step has no access.
fn step_access_size(known: Remembered, step: Step) -> usize
    ensures answer { result ≡ step_access_size known step }
    ensures few { result ≤ 4 }
{
    match step {
        Step::One(LinearItem::Load { width, .. } | LinearItem::Store { width, .. })
        | Step::LoadNear { width, .. }
        | Step::StoreNear { width, .. } => access_size(known, width),
        Step::LoadAt { .. } | Step::StoreAt { .. } => known_access_size(known),
        _ => 0,
    }
}

/// An access in a loop counts this many times.
const LOOP_WEIGHT: usize = 8;

// How many times an access counts.
fn weight(in_loop: bool) -> usize
    ensures answer { result ≡ (if in_loop then loop_weight else 1) }
    ensures few { result ≤ 8 }
{
    if in_loop { LOOP_WEIGHT } else { 1 }
}

// The steps of a function, each with how much the registers hold of the address that it accesses, and the number of instructions that their
// accesses need together, each multiplied by its weight.
#[derive(Drop)]
struct Walked {
    steps: Vec<Addressed>,
    accesses: usize,
}

// The steps of a function, each with how much the registers hold of the address that it accesses; `bases` has the objects' addresses,
// `sets_pointer` says whether `x3` is the global pointer, `last` says which steps are in loops. Their accesses need at most 2^61
// instructions.
fn walk(
    alloc: Global,
    bases: &Bases,
    sets_pointer: bool,
    code: &[Step],
    last: &[usize],
) -> Result<Walked, AllocError>
    requires few { length code.now ≤ 2 ^ 56 }
    requires labels { AllByRecursion (λ label. label < length last.now) (labels code.now) }
    requires last { AreLast code.now (length last.now) last.now }
    ensures steps { IfOk result (λ w. w.steps.items ≡ addressed (base_in bases.now) sets_pointer nothing code.now) }
    ensures accesses { IfOk result (λ w. w.accesses ≡ accesses_size (base_in bases.now) sets_pointer nothing [] code.now) }
    ensures few { IfOk result (λ w. w.accesses ≤ 2 ^ 61) }
{
    let mut steps = Vec::with_capacity(alloc, code.len())?;
    let mut accesses = 0;
    let mut scratch = Scratch::nothing();
    let mut at = 0;
    let mut reach = 0;
    for step in code {
        let known = scratch.remembered(bases, sets_pointer, *step);
        steps.push_reserved(Addressed { step: *step, known });
        accesses += weight(at < reach) * step_access_size(known, *step);
        scratch.go_behind(bases, known, *step);
        reach = reach_past(last, reach, step);
        at += 1;
    }
    Ok(Walked { steps, accesses })
}

/// The steps of a function, each with how much the registers hold of the address that it accesses, and whether the function sets `x3` to
/// the global pointer. The function sets `x3` if its accesses then need fewer instructions, including the two that set `x3`; accesses in
/// loops count eight times. `bases` has the objects' addresses; the labels are below `count`.
pub(crate) fn addressed(
    alloc: Global,
    bases: &Bases,
    code: &[Step],
    count: usize,
) -> Result<(Vec<Addressed>, bool), AllocError>
    requires few { length code.now ≤ 2 ^ 56 }
    requires labels { AllByRecursion (λ label. label < count) (labels code.now) }
    ensures gains { IfOk result (λ r. r.1 ≡ gains (base_in bases.now) code.now) }
    ensures steps { IfOk result (λ r. r.0.items ≡ addressed (base_in bases.now) r.1 nothing code.now) }
{
    let last = last_leads(alloc, code, count)?;
    let without = walk(alloc, bases, false, code, last.as_slice())?;
    if without.accesses <= pointer_size(true) {
        return Ok((without.steps, false));
    }
    let with = walk(alloc, bases, true, code, last.as_slice())?;
    if pointer_size(true) + with.accesses < without.accesses {
        Ok((with.steps, true))
    } else {
        Ok((without.steps, false))
    }
}
