// Known words: what the items since the last label say about the registers. An operation with a known operand gets the operand's word, if
// its instructions can encode the word; an access to an element whose number is known gets the number; and a branch that is certain to be
// taken becomes a jump.

ghost use Rattle.std.specs.Prelude.{◌≡◌, ◌<◌, None, Some};
ghost use Rattle.cc_select.specs.Known.{unknown, learn, forget, known_behind, choose, is_taken, with_left, with_number, with_right, with_word};
ghost use Rattle.cc_linear_language.specs.declared.item.LinearItem.TheVariants.{Copy};
ghost use Rattle.cc_select.specs.declared.step.Step.TheVariants.{LoadAt, StoreAt};
ghost use Rattle.cc_select.specs.internal.Sets.{known_in, kept_by_call};

use crate::immediate::{has_word, immediate_of, immediate_of_left};
use crate::registers::{DESTROYED, RESULT, Registers};
use crate::step::{Step, WordOperator};
use cc_linear_language::LinearItem;
use cc_ltl::{Move, Register};
use cc_words::{Binary, Width};

/// The registers whose word is known, and the words.
#[derive(Drop)]
pub(crate) struct Known {
    some: Registers,
    words: [u32; 32],
}

impl Known {
    /// Nothing is known.
    pub(crate) fn nothing() -> Known
        ensures { known_in result ≡ unknown }
    {
        Known {
            some: Registers::none(),
            words: [0; 32],
        }
    }

    /// The word of a register, if it is known.
    pub(crate) fn word(&self, register: Register) -> Option<u32>
        ensures { result ≡ known_in self.now register }
    {
        let register = register.number();
        if self.some.has(register) {
            Some(self.words[register as usize])
        } else {
            None
        }
    }

    // Notes that a register gets a word.
    fn learn(&mut self, register: Register, word: u32)
        ensures { known_in self.new ≡ learn register word (known_in self.old) }
    {
        let register = register.number();
        self.some = self.some.with(register);
        self.words[register as usize] = word;
    }

    // Notes that a register gets an unknown word.
    fn forget(&mut self, register: u8)
        requires { register < 32 }
        ensures { known_in self.new ≡ forget register (known_in self.old) }
    {
        self.some = self.some.without(register);
    }

    // Nothing is known any more.
    fn forget_all(&mut self)
        ensures { known_in self.new ≡ unknown }
    {
        self.some = Registers::none();
    }

    // Notes that a call destroys registers.
    fn forget_destroyed(&mut self)
        ensures { known_in self.new ≡ kept_by_call (known_in self.old) }
    {
        self.some = self.some.surviving();
    }

    // Notes that a word moves from one location to another.
    fn go_behind_move(&mut self, between: Move)
        ensures { known_in self.new ≡ known_behind (Copy between) (known_in self.old) }
    {
        match between {
            Move::Between { to, .. } | Move::Reload { to, .. } => self.forget(to.number()),
            Move::Spill { .. } => {}
        }
    }

    /// Advances past an item.
    pub(crate) fn go_behind(&mut self, item: &LinearItem)
        ensures { known_in self.new ≡ known_behind item.now (known_in self.old) }
    {
        match *item {
            LinearItem::Label { .. } | LinearItem::Jump { .. } | LinearItem::Return =>
                self.forget_all(),
            LinearItem::IfNonzero { .. } | LinearItem::IfZero { .. } | LinearItem::Store { .. } =>
                {}
            LinearItem::Copy { between } => self.go_behind_move(between),
            LinearItem::Const { to, word } => self.learn(to, word),
            LinearItem::Unary { to, .. }
            | LinearItem::Binary { to, .. }
            | LinearItem::Load { to, .. } => {
                self.forget(to.number());
            }
            LinearItem::Call { .. } => self.forget_destroyed(),
            LinearItem::Read => {
                self.forget(DESTROYED);
                self.forget(RESULT);
            }
            LinearItem::Write => self.forget(DESTROYED),
        }
    }
}

// The step for an operator with a word, if its instructions can encode the word; else `other`.
fn with_word(form: Option<(WordOperator, u32)>, to: Register, from: Register, other: Step) -> Step
    ensures { result ≡ with_word form to from other }
{
    match form {
        Some((operator, word)) if has_word(operator, word) => Step::Immediate {
            operator,
            to,
            from,
            word,
        },
        _ => other,
    }
}

// The step for an operator whose left operand may be known.
fn with_left(
    word: Option<u32>,
    operator: Binary,
    to: Register,
    right: Register,
    other: Step,
) -> Step
    ensures { result ≡ with_left word operator to right other }
{
    match word {
        Some(word) => with_word(immediate_of_left(operator, word), to, right, other),
        None => other,
    }
}

// The step for an operator whose right operand may be known.
fn with_right(
    word: Option<u32>,
    operator: Binary,
    to: Register,
    left: Register,
    other: Step,
) -> Step
    ensures { result ≡ with_right word operator to left other }
{
    match word {
        Some(word) => with_word(immediate_of(operator, word), to, left, other),
        None => other,
    }
}

// A load of an element whose number is known; else `other`.
fn load_at(number: Option<u32>, width: Width, object: u32, to: Register, other: Step) -> Step
    ensures { result ≡ with_number number other (λ w. LoadAt width object to w) }
{
    match number {
        Some(number) => Step::LoadAt {
            width,
            object,
            to,
            number,
        },
        None => other,
    }
}

// A store into an element whose number is known; else `other`.
fn store_at(number: Option<u32>, width: Width, object: u32, from: Register, other: Step) -> Step
    ensures { result ≡ with_number number other (λ w. StoreAt width object w from) }
{
    match number {
        Some(number) => Step::StoreAt {
            width,
            object,
            number,
            from,
        },
        None => other,
    }
}

/// Whether a branch on a word that may be known is certain to be taken.
pub(crate) fn is_taken(nonzero: bool, word: Option<u32>) -> bool
    ensures { result ≡ is_taken nonzero word }
{
    match word {
        Some(word) => nonzero == (word != 0),
        None => false,
    }
}

/// The step that is chosen for an item.
pub(crate) fn choose(known: &Known, item: LinearItem) -> Step
    ensures { result ≡ choose (known_in known.now) item }
{
    match item {
        LinearItem::IfNonzero { from, to } if is_taken(true, known.word(from)) => {
            Step::One(LinearItem::Jump { to })
        }
        LinearItem::IfZero { from, to } if is_taken(false, known.word(from)) => {
            Step::One(LinearItem::Jump { to })
        }
        LinearItem::Binary {
            operator,
            to,
            left,
            right,
        } => {
            let other = with_left(known.word(left), operator, to, right, Step::One(item));
            with_right(known.word(right), operator, to, left, other)
        }
        LinearItem::Load {
            width,
            object,
            to,
            index,
        } => load_at(known.word(index), width, object, to, Step::One(item)),
        LinearItem::Store {
            width,
            object,
            index,
            from,
        } => store_at(known.word(index), width, object, from, Step::One(item)),
        _ => Step::One(item),
    }
}
