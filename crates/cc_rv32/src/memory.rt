// Globals and stack as two lists of words, which a byte address reaches with one comparison each: the stack first, because most
// loads and stores go there.

ghost use Rattle.std.specs.Prelude.{◌≡◌, ◌+◌, ◌*◌, ◌<◌, ◌⊎◌, length, min, max};
ghost use Rattle.cc_rv32.specs.Machine.{with_part};
ghost use Rattle.cc_rv32.specs.internal.Lowered.{word_in, part_in, whole_in, with_word_in, with_part_in, with_whole_in, stored_flat};
ghost use Rattle.cc_rv32.specs.internal.Marks.{IsClear};

use crate::execute::Next;
use crate::map::GLOBALS_FROM;

/// How many words of globals the machine has.
pub(crate) const GLOBALS_WORDS: usize = 65_536;

/// The lowest address of the stack, and how many words it has.
pub(crate) const STACK_FROM: u32 = 0x0060_0000;

pub(crate) const STACK_WORDS: usize = 524_288;

/// Which words may differ from 0: those of the stack from `stack` on, and those of the globals before `globals`. Each store keeps
/// this so, and a restart clears only these.
#[derive(Clone, Copy)]
pub(crate) struct Marks {
    pub(crate) stack: usize,
    pub(crate) globals: usize,
}

impl Marks {
    /// A word of the stack was stored to.
    #[inline(always)]
    fn reach_stack(&mut self, index: usize)
        ensures { self.new ≡ record self.old { stack = min self.old.stack index } }
    {
        if index < self.stack {
            self.stack = index;
        }
    }

    /// A word of the globals was stored to.
    #[inline(always)]
    fn reach_globals(&mut self, index: usize)
        requires { index < 65536 }
        ensures { self.new ≡ record self.old { globals = max self.old.globals (index + 1) } }
    {
        if index >= self.globals {
            self.globals = index + 1;
        }
    }
}

/// The word that has the byte at this address.
#[inline(always)]
fn word(globals: &[u32], stack: &[u32], address: u32) -> Option<u32>
    requires globals { length globals.now ≡ 65536 }
    requires stack { length stack.now ≡ 524288 }
    ensures { result ≡ word_in globals.now stack.now address }
{
    let index = (address.wrapping_sub(STACK_FROM) >> 2) as usize;
    if index < STACK_WORDS {
        return Some(stack[index]);
    }
    let index = (address.wrapping_sub(GLOBALS_FROM) >> 2) as usize;
    if index < GLOBALS_WORDS {
        return Some(globals[index]);
    }
    None
}

/// The word at an address that is a multiple of 4.
#[inline(always)]
pub(crate) fn load_word(globals: &[u32], stack: &[u32], address: u32) -> Option<u32>
    requires globals { length globals.now ≡ 65536 }
    requires stack { length stack.now ≡ 524288 }
    ensures { result ≡ whole_in globals.now stack.now address }
{
    if address % 4 != 0 {
        return None;
    }
    word(globals, stack, address)
}

/// The half word at an even address, zero-extended.
#[inline(always)]
pub(crate) fn load_half(globals: &[u32], stack: &[u32], address: u32) -> Option<u32>
    requires globals { length globals.now ≡ 65536 }
    requires stack { length stack.now ≡ 524288 }
    ensures { result ≡ part_in 2 globals.now stack.now address }
{
    if address % 2 != 0 {
        return None;
    }
    let word = word(globals, stack, address)?;
    Some((word >> (8 * (address % 4))) & 0xffff)
}

/// The byte at an address, zero-extended.
#[inline(always)]
pub(crate) fn load_byte(globals: &[u32], stack: &[u32], address: u32) -> Option<u32>
    requires globals { length globals.now ≡ 65536 }
    requires stack { length stack.now ≡ 524288 }
    ensures { result ≡ part_in 1 globals.now stack.now address }
{
    let word = word(globals, stack, address)?;
    Some((word >> (8 * (address % 4))) & 0xff)
}

/// Writes the word that has the byte at this address; traps if no memory is there.
#[inline(always)]
fn set_word(
    globals: &mut [u32],
    stack: &mut [u32],
    marks: &mut Marks,
    address: u32,
    word: u32,
) -> Next
    requires globals { length globals.old ≡ 65536 }
    requires stack { length stack.old ≡ 524288 }
    requires clear { IsClear marks.old globals.old stack.old }
    ensures effect { (result, globals.new, stack.new) ≡ stored_flat (with_word_in globals.old stack.old address word) globals.old stack.old }
    ensures clear { IsClear marks.new globals.new stack.new }
{
    let index = (address.wrapping_sub(STACK_FROM) >> 2) as usize;
    if index < STACK_WORDS {
        stack[index] = word;
        marks.reach_stack(index);
        return Next::Follows;
    }
    let index = (address.wrapping_sub(GLOBALS_FROM) >> 2) as usize;
    if index < GLOBALS_WORDS {
        globals[index] = word;
        marks.reach_globals(index);
        return Next::Follows;
    }
    Next::Trap
}

/// Writes the word at an address that is a multiple of 4; traps at any other address.
#[inline(always)]
pub(crate) fn store_word(
    globals: &mut [u32],
    stack: &mut [u32],
    marks: &mut Marks,
    address: u32,
    word: u32,
) -> Next
    requires globals { length globals.old ≡ 65536 }
    requires stack { length stack.old ≡ 524288 }
    requires clear { IsClear marks.old globals.old stack.old }
    ensures effect { (result, globals.new, stack.new) ≡ stored_flat (with_whole_in globals.old stack.old address word) globals.old stack.old }
    ensures clear { IsClear marks.new globals.new stack.new }
{
    if address % 4 != 0 {
        return Next::Trap;
    }
    set_word(globals, stack, marks, address, word)
}

/// Writes the low half of the word at an even address; traps at any other address.
#[inline(always)]
pub(crate) fn store_half(
    globals: &mut [u32],
    stack: &mut [u32],
    marks: &mut Marks,
    address: u32,
    half: u32,
) -> Next
    requires globals { length globals.old ≡ 65536 }
    requires stack { length stack.old ≡ 524288 }
    requires clear { IsClear marks.old globals.old stack.old }
    ensures effect { (result, globals.new, stack.new) ≡ stored_flat (with_part_in 2 globals.old stack.old address half) globals.old stack.old }
    ensures clear { IsClear marks.new globals.new stack.new }
{
    if address % 2 != 0 {
        return Next::Trap;
    }
    let Some(old) = word(globals, stack, address) else {
        return Next::Trap;
    };
    let new = with_half(old, address % 4, half);
    set_word(globals, stack, marks, address, new)
}

/// Writes the low byte of the word at an address.
#[inline(always)]
pub(crate) fn store_byte(
    globals: &mut [u32],
    stack: &mut [u32],
    marks: &mut Marks,
    address: u32,
    byte: u32,
) -> Next
    requires globals { length globals.old ≡ 65536 }
    requires stack { length stack.old ≡ 524288 }
    requires clear { IsClear marks.old globals.old stack.old }
    ensures effect { (result, globals.new, stack.new) ≡ stored_flat (with_part_in 1 globals.old stack.old address byte) globals.old stack.old }
    ensures clear { IsClear marks.new globals.new stack.new }
{
    let Some(old) = word(globals, stack, address) else {
        return Next::Trap;
    };
    let new = with_byte(old, address % 4, byte);
    set_word(globals, stack, marks, address, new)
}

#[inline(always)]
fn with_byte(word: u32, index: u32, byte: u32) -> u32
    requires { index < 4 }
    ensures { result ≡ with_part word (8 * index) 8 byte }
{
    let shift = 8 * index;
    let old = ((word >> shift) & 0xff) << shift;
    (word - old) + ((byte & 0xff) << shift)
}

#[inline(always)]
fn with_half(word: u32, index: u32, half: u32) -> u32
    requires { (index ≡ 0) ⊎ (index ≡ 2) }
    ensures { result ≡ with_part word (8 * index) 16 half }
{
    let shift = 8 * index;
    let old = ((word >> shift) & 0xffff) << shift;
    (word - old) + ((half & 0xffff) << shift)
}
