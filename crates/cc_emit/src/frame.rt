// The frame of a function: its slots, and after them the registers that it saves.

ghost use Rattle.std.specs.Prelude.{◌≡◌, ◌≤◌, ◌<◌, ◌+◌, ◌*◌, ◌++◌, ◌==◌, ℕ, false, length, get_or, IfOk, OnOk, MatchOption};
ghost use Rattle.std.specs.List.{AllByRecursion};
ghost use Rattle.cc_ltl.specs.Registers.{most_slots};
ghost use Rattle.cc_emit.specs.Frames.{frame_size, frame_of, item_writes, writes, is_written, calls, is_call};
ghost use Rattle.cc_emit.specs.Emission.{saving, restoring, prologue, epilogue, pointer_size, prologue_size, stack_moved_size};

use crate::instructions::{
    GLOBAL_POINTER, POINTER, RETURN_ADDRESS, STACK, add_immediate, go_back, high, load, load_upper,
    low, put, store,
};
use crate::item::PieceItem;
use cc_linear_language::LinearItem;
use cc_ltl::Move;
use cc_select::Step;
use std::alloc::{AllocError, Global};
use std::marker::Model;

/// The registers that a function leaves as it found them.
const KEPT: [u8; 12] = [8, 9, 18, 19, 20, 21, 22, 23, 24, 25, 26, 27];

/// A function saves at most this many registers: those of `KEPT`, and `x1`.
const MOST_SAVED: usize = 13;

/// The frame of a function: whether the function sets `x3`, at most 495 slots, and at most 13 saved registers.
/// Contracts see all three.
#[derive(Drop)]
pub(crate) struct Frame {
    sets_pointer: bool,
    slots: u16,
    saved: Vec<u8>,
}

impl Model for Frame {
    ghost use Rattle.std.specs.Prelude.{◌≤◌, ◌<◌, length};
    ghost use Rattle.std.specs.List.{AllByRecursion};
    ghost use Rattle.cc_ltl.specs.Registers.{most_slots};
    ghost use Rattle.cc_emit.specs.Frames.{Frame as Shown};

    ghost Value = { Shown };

    ghost view = { λ f. record { sets_pointer = f.sets_pointer; slots = f.slots; saved = f.saved.items } };

    ghost invariant = { λ f. (f.slots ≤ most_slots) × (length f.saved.items ≤ 13) × AllByRecursion (λ r. r < 32) f.saved.items };
}

impl Frame {
    /// The frame of these steps; `sets_pointer` says whether the function sets `x3`.
    pub(crate) fn new(
        alloc: Global,
        sets_pointer: bool,
        slots: u16,
        code: &[Step],
    ) -> Result<Frame, AllocError>
        requires { slots ≤ most_slots }
        ensures { IfOk result (λ frame. frame ≡ frame_of sets_pointer slots code.now) }
    {
        let mut saved = Vec::with_capacity(alloc, MOST_SAVED)?;
        if calls(code) {
            saved.push(RETURN_ADDRESS)?;
        }
        let written = written(code);
        for register in &KEPT {
            if written[*register as usize] {
                saved.push(*register)?;
            }
        }
        Ok(Frame {
            sets_pointer,
            slots,
            saved,
        })
    }

    /// The registers that the function saves, in the order of their places in the frame.
    pub(crate) fn saved(&self) -> &[u8]
        ensures answer { result.now ≡ self.now.saved }
        ensures few { length self.now.saved ≤ 13 }
        ensures registers { AllByRecursion (λ r. r < 32) self.now.saved }
    {
        self.saved.as_slice()
    }

    /// The number of bytes of the frame.
    pub(crate) fn size(&self) -> u32
        ensures answer { result ≡ frame_size self.now }
        ensures small { result ≤ 2032 }
    {
        4 * (u32::from(self.slots) + self.saved.len() as u32)
    }

    /// The number of items that move the stack pointer by the frame's size: one, or none if the frame is empty.
    pub(crate) fn moves(&self) -> usize
        ensures answer { result ≡ stack_moved_size self.now }
        ensures few { result ≤ 1 }
    {
        usize::from(self.size() != 0)
    }

    /// The number of items before those of the function's steps: at most 16.
    pub(crate) fn prologue_size(&self) -> usize
        ensures answer { result ≡ prologue_size self.now }
        ensures few { result ≤ 16 }
    {
        pointer_size(self.sets_pointer) + (self.moves() + self.saved.len())
    }

    /// Emits the prologue: `x3` is set, the stack pointer goes down by the frame's size, and the registers are saved.
    pub(crate) fn put_prologue(&self, items: &mut Vec<PieceItem>) -> Result<(), AllocError>
        ensures { OnOk result (items.new.items ≡ items.old.items ++ prologue self.now) }
    {
        if self.sets_pointer {
            put(items, load_upper(POINTER, high(GLOBAL_POINTER)))?;
            put(items, add_immediate(POINTER, POINTER, low(GLOBAL_POINTER)))?;
        }
        let size = self.size();
        if size != 0 {
            put(items, add_immediate(STACK, STACK, 0u32.wrapping_sub(size)))?;
        }
        put_saving(items, 4 * u32::from(self.slots), self.saved.as_slice())
    }

    /// Emits the epilogue: the registers are restored, the stack pointer goes up, and the function returns.
    pub(crate) fn put_epilogue(&self, items: &mut Vec<PieceItem>) -> Result<(), AllocError>
        ensures { OnOk result (items.new.items ≡ items.old.items ++ epilogue self.now) }
    {
        put_restoring(items, 4 * u32::from(self.slots), self.saved.as_slice())?;
        let size = self.size();
        if size != 0 {
            put(items, add_immediate(STACK, STACK, size))?;
        }
        put(items, go_back())
    }
}

/// The size in bytes of the frame of a function with these slots and steps. Err: memory ran out.
pub(crate) fn frame_bytes(alloc: Global, slots: u16, code: &[Step]) -> Result<u32, AllocError>
    requires { slots ≤ most_slots }
    ensures { IfOk result (λ bytes. bytes ≡ frame_size (frame_of false slots code.now)) }
{
    let frame = Frame::new(alloc, false, slots, code)?;
    Ok(frame.size())
}

/// The number of items that set `x3`: two if the function sets it, else none.
pub(crate) fn pointer_size(sets_pointer: bool) -> usize
    ensures answer { result ≡ pointer_size sets_pointer }
    ensures few { result ≤ 2 }
{
    if sets_pointer { 2 } else { 0 }
}

fn put_saving(items: &mut Vec<PieceItem>, offset: u32, saved: &[u8]) -> Result<(), AllocError>
    requires few { offset + 4 * length saved.now ≤ 2032 }
    requires registers { AllByRecursion (λ r. r < 32) saved.now }
    ensures { OnOk result (items.new.items ≡ items.old.items ++ saving offset saved.now) }
{
    let mut at = offset;
    for register in saved {
        put(items, store(STACK, *register, at))?;
        at += 4;
    }
    Ok(())
}

fn put_restoring(items: &mut Vec<PieceItem>, offset: u32, saved: &[u8]) -> Result<(), AllocError>
    requires few { offset + 4 * length saved.now ≤ 2032 }
    requires registers { AllByRecursion (λ r. r < 32) saved.now }
    ensures { OnOk result (items.new.items ≡ items.old.items ++ restoring offset saved.now) }
{
    let mut at = offset;
    for register in saved {
        put(items, load(*register, STACK, at))?;
        at += 4;
    }
    Ok(())
}

fn calls(code: &[Step]) -> bool
    ensures { result ≡ calls code.now }
{
    for step in code {
        if is_call(step) {
            return true;
        }
    }
    false
}

fn is_call(step: &Step) -> bool
    ensures { result ≡ is_call step.now }
{
    matches!(step, Step::One(LinearItem::Call { .. }))
}

// For each register, whether the steps write it. A call that destroys the register does not count.
fn written(code: &[Step]) -> [bool; 32]
    ensures { (r : ℕ) → r < 32 → get_or result r false ≡ is_written code.now r }
{
    let mut written = [false; 32];
    for step in code {
        if let Some(register) = target(step) {
            written[register as usize] = true;
        }
    }
    written
}

// The register that a step writes, if any. Registers that a call destroys do not count.
fn target(step: &Step) -> Option<u8>
    ensures { MatchOption result ((r : ℕ) → writes r step.now ≡ false) (λ to. (to < 32) × ((r : ℕ) → writes r step.now ≡ (to == r))) }
{
    match step {
        Step::One(item) => item_target(item),
        Step::Immediate { to, .. } | Step::LoadAt { to, .. } | Step::LoadNear { to, .. } => {
            Some(to.number())
        }
        _ => None,
    }
}

// The register that an item of Linear writes, if any. Registers that a call destroys do not count.
fn item_target(item: &LinearItem) -> Option<u8>
    ensures { MatchOption result ((r : ℕ) → item_writes r item.now ≡ false) (λ to. (to < 32) × ((r : ℕ) → item_writes r item.now ≡ (to == r))) }
{
    match item {
        LinearItem::Copy {
            between: Move::Between { to, .. } | Move::Reload { to, .. },
        }
        | LinearItem::Const { to, .. }
        | LinearItem::Unary { to, .. }
        | LinearItem::Binary { to, .. }
        | LinearItem::Load { to, .. } => Some(to.number()),
        _ => None,
    }
}
