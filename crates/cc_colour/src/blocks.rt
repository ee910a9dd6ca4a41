// The blocks of LTL, once each web has its place.
//
// An operand in a register is taken from there, and a result is put where it belongs. An operand or result in a slot goes through a
// register that holds nothing else at that point. The words that a call, a read, a write or a return takes and gives are moved all at once,
// and so are the parameters.

use crate::interference::Code;
use crate::nodes::{beside_constant, operands, result};
use crate::operation::{Used, nothing_used, operation_of};
use crate::parallel::{Transfer, in_parallel, push_move};
use crate::places::Places;
use crate::registers::{
    ARGUMENT_REGISTERS, DESTROYED, DUMMY, Place, RESULT, Registers, argument_register, first_free,
    numbered, only,
};
use crate::webs::{Crossing, Crossings};
use cc_ltl::{Block, Move, Moves, Operation, Register};
use cc_rtl_language::Node;
use std::alloc::{AllocError, Global};
use std::mem;

/// What blocks are made from. `sole`, the only node that leads to each node, needs to be known only if there are slots.
#[derive(Clone, Copy)]
pub struct Placed<'a> {
    pub code: Code<'a>,
    pub places: &'a Places<'a>,
    pub sole: &'a [Option<usize>],
}

/// A word that is fetched from its slot into a register one node before the node that needs it.
#[derive(Clone, Copy)]
struct Early {
    slot: u16,
    register: u8,
}

impl Placed<'_> {
    // The word that a node takes from a slot in addition to a constant set by the node before it. It is fetched before both nodes, so that
    // the two stay neighbours.
    fn early(self, at: usize) -> Option<Early> {
        let before = self.sole.get(at).copied().flatten()?;
        let shape = self.code.shape;
        let constant = match shape.rtl.at(before)? {
            Node::Const { to, .. } => *to,
            _ => return None,
        };
        let beside = beside_constant(shape.rtl.at(at)?, constant)?;
        self.places.register(self.code.at(at, constant)?)?;
        match self.places.place(self.code.at(at, beside)?)? {
            Place::Slot(slot) => {
                let taken = self.places.registers(self.code.webs.in_front(at));
                let register = first_free(taken)?;
                Some(Early { slot, register })
            }
            Place::Register(_) => None,
        }
    }
}

impl Placed<'_> {
    // The move that brings a web to its slot before a call that cuts it. None if the word is in the slot already, or stays in a
    // register that the call keeps.
    fn leaving(self, crossing: Crossing) -> Option<Transfer> {
        let places = self.places;
        let kept = places.kept_register(crossing.before).is_some()
            && places.register(crossing.behind).is_some();
        if !crossing.is_cut() || kept || !places.is_dirty(crossing.before) {
            return None;
        }
        let from = Place::Register(places.register(crossing.before)?);
        let to = Place::Slot(places.slot(crossing.before)?);
        Some(Transfer { to, from })
    }

    // The move that brings a web back to its register after a call that cuts it, if it has a register.
    fn coming_back(self, crossing: Crossing) -> Option<Transfer> {
        let places = self.places;
        if !crossing.is_cut() {
            return None;
        }
        let to = Place::Register(places.register(crossing.behind)?);
        let from = match places.kept_register(crossing.before) {
            Some(kept) => Place::Register(kept),
            None => Place::Slot(places.slot(crossing.before)?),
        };
        Some(Transfer { to, from })
    }
}

/// A block that is being made: its node, its moves, the registers that hold something before the operation, whether a register was needed
/// when none was free (`short`), and whether memory was refused (`failed`). It also has room for moves that are done all at once, and for
/// what crosses a call; the blocks of a function share this room.
#[derive(Drop)]
struct Draft<'a> {
    placed: Placed<'a>,
    at: usize,
    before: Vec<Move>,
    after: Vec<Move>,
    taken: Registers,
    short: bool,
    failed: bool,
    pending: Vec<Transfer>,
    crossings: Crossings,
}

/// All blocks; None if a register was needed and none was free. `Err` if memory runs out.
pub fn blocks(alloc: Global, placed: Placed<'_>) -> Result<Option<Vec<Block>>, AllocError> {
    let rtl = placed.code.shape.rtl;
    let mut blocks = Vec::with_capacity(alloc, rtl.len())?;
    let mut draft = no_draft(alloc, placed);
    for at in 0..rtl.len() {
        match draft.block(alloc, at as u32, rtl.node(at))? {
            Some(block) => blocks.push(block)?,
            None => {
                drop(blocks);
                return Ok(None);
            }
        }
    }
    Ok(Some(blocks))
}

fn no_draft(alloc: Global, placed: Placed<'_>) -> Draft<'_> {
    Draft {
        placed,
        at: 0,
        before: Vec::new(alloc),
        after: Vec::new(alloc),
        taken: 0,
        short: false,
        failed: false,
        pending: Vec::new(alloc),
        crossings: Crossings::new(alloc),
    }
}

// The moves in the form in which a block holds them; no moves if there are more than a block can have.
fn moves(alloc: Global, moves: Vec<Move>) -> Moves {
    match Moves::new(moves) {
        Ok(moves) => moves,
        Err(moves) => {
            drop(moves);
            no_moves(alloc)
        }
    }
}

fn no_moves(alloc: Global) -> Moves {
    match Moves::new(Vec::new(alloc)) {
        Ok(moves) => moves,
        Err(_) => unreachable!(),
    }
}

impl Draft<'_> {
    // The block of the next node. After an error or None, no other block may be made.
    fn block(
        &mut self,
        alloc: Global,
        label: u32,
        node: &Node,
    ) -> Result<Option<Block>, AllocError> {
        let placed = self.placed;
        self.at = label as usize;
        self.taken = placed.places.registers(placed.code.webs.in_front(self.at));
        self.pending.clear();
        let operation = self.draw(node);
        let before = mem::replace(&mut self.before, Vec::new(alloc));
        let after = mem::replace(&mut self.after, Vec::new(alloc));
        if self.failed {
            drop(before);
            drop(after);
            return Err(AllocError);
        }
        if self.short {
            drop(before);
            drop(after);
            return Ok(None);
        }
        Ok(Some(Block {
            label,
            before: moves(alloc, before),
            operation,
            after: moves(alloc, after),
        }))
    }

    // The place of a register that is live before the node.
    fn operand(&self, register: u32) -> Option<Place> {
        let web = self.placed.code.at(self.at, register)?;
        self.placed.places.place(web)
    }

    // The place for the node's result, if the result is live after the node.
    fn result(&self) -> Option<Place> {
        let web = self.placed.code.webs.result(self.at)?;
        if self.placed.code.behind(self.at).contains(&web) {
            self.placed.places.place(web)
        } else {
            None
        }
    }

    // The registers that hold what is live after the node.
    fn taken_behind(&self) -> Registers {
        self.placed
            .places
            .registers(self.placed.code.behind(self.at))
    }

    // A register that is not in a set. If there is none, the draft is marked as short.
    fn free(&mut self, taken: Registers) -> u8 {
        match first_free(taken) {
            Some(register) => register,
            None => {
                self.short = true;
                DUMMY
            }
        }
    }

    fn move_before(&mut self, to: Place, from: Place) {
        self.failed |= push_move(&mut self.before, Transfer { to, from }).is_err();
    }

    fn move_after(&mut self, to: Place, from: Place) {
        self.failed |= push_move(&mut self.after, Transfer { to, from }).is_err();
    }

    // Adds a move that is done at once with others.
    fn pend(&mut self, to: Place, from: Place) {
        self.failed |= self.pending.push(Transfer { to, from }).is_err();
    }

    // Does the pending moves before the operation. Apart from their targets, no register of `kept` is changed.
    fn do_before(&mut self, kept: Registers) {
        match in_parallel(&mut self.pending, kept, &mut self.before) {
            Ok(true) => {}
            Ok(false) => self.short = true,
            Err(_) => self.failed = true,
        }
    }

    fn do_after(&mut self, kept: Registers) {
        match in_parallel(&mut self.pending, kept, &mut self.after) {
            Ok(true) => {}
            Ok(false) => self.short = true,
            Err(_) => self.failed = true,
        }
    }

    // Fetches what the node after a constant needs in addition to the constant.
    fn fetch_early(&mut self) {
        let shape = self.placed.code.shape;
        if let Some(behind) = shape.behind(self.at)
            && let Some(early) = self.placed.early(behind)
        {
            let to = Place::Register(early.register);
            self.move_before(to, Place::Slot(early.slot));
        }
    }

    // The register from which the operation takes its left operand, which may have been fetched already.
    fn take_left(&mut self, register: u32) -> Register {
        match self.placed.early(self.at) {
            Some(early) => {
                self.taken |= only(early.register);
                numbered(early.register)
            }
            None => self.take(register),
        }
    }

    // The register from which the operation takes an operand.
    fn take(&mut self, register: u32) -> Register {
        match self.operand(register) {
            Some(Place::Register(register)) => numbered(register),
            Some(Place::Slot(slot)) => {
                let to = self.free(self.taken);
                self.taken |= only(to);
                self.move_before(Place::Register(to), Place::Slot(slot));
                numbered(to)
            }
            None => numbered(DUMMY),
        }
    }

    // The register in which the operation puts its result.
    fn give(&mut self) -> Register {
        match self.result() {
            Some(Place::Register(register)) => numbered(register),
            Some(Place::Slot(slot)) => {
                let from = self.free(self.taken_behind());
                self.move_after(Place::Slot(slot), Place::Register(from));
                numbered(from)
            }
            None => numbered(self.free(self.taken_behind())),
        }
    }

    fn take_parameters(&mut self, parameters: u32) {
        for parameter in 0..parameters.min(ARGUMENT_REGISTERS) {
            if let Some(to) = self.operand(parameter)
                && let Some(register) = argument_register(parameter as usize)
            {
                self.pend(to, Place::Register(register));
            }
        }
        self.do_before(self.taken)
    }

    fn take_arguments(&mut self, arguments: &[u32]) {
        let mut kept = self.taken_behind() | (self.taken & !DESTROYED);
        for (number, argument) in arguments.iter().enumerate() {
            if let Some(register) = argument_register(number) {
                kept |= only(register);
                if let Some(from) = self.operand(*argument) {
                    self.pend(Place::Register(register), from);
                }
            }
        }
        self.do_before(kept)
    }

    // Fills the list of what crosses a call.
    fn find_crossings(&mut self) {
        let code = self.placed.code;
        let found = code
            .webs
            .crossings(code.shape, self.at, &mut self.crossings);
        self.failed |= found.is_err();
    }

    // Before a call, moves each web that the call cuts to its slot, unless the word is there already or stays in a register that the call
    // keeps.
    fn leave(&mut self) {
        for crossing in &self.crossings.all {
            if let Some(transfer) = self.placed.leaving(*crossing) {
                self.failed |= push_move(&mut self.before, transfer).is_err();
            }
        }
    }

    // After a call, moves its result, and what the call cuts, to where they belong.
    fn come_back(&mut self) {
        if let Some(to) = self.result() {
            self.pend(to, Place::Register(RESULT));
        }
        for crossing in &self.crossings.all {
            if let Some(transfer) = self.placed.coming_back(*crossing) {
                self.failed |= self.pending.push(transfer).is_err();
            }
        }
        self.do_after(self.taken_behind())
    }

    // Moves an operand to the register for results.
    fn take_word(&mut self, register: u32) {
        let to = Place::Register(RESULT);
        match self.operand(register) {
            Some(from) if !from.is(to) => self.move_before(to, from),
            _ => {}
        }
    }

    // Moves the result from the register for results to where it belongs.
    fn give_word(&mut self) {
        let from = Place::Register(RESULT);
        match self.result() {
            Some(to) if !from.is(to) => self.move_after(to, from),
            _ => {}
        }
    }

    // For a move of RTL, only moves are needed: two if it goes from slot to slot.
    fn copy(&mut self, register: u32) {
        match (self.result(), self.operand(register)) {
            (Some(to), Some(from)) => self.copy_place(to, from),
            _ => {}
        }
    }

    fn copy_place(&mut self, to: Place, from: Place) {
        if to.is(from) {
            return;
        }
        if let (Place::Slot(_), Place::Slot(_)) = (to, from) {
            let between = Place::Register(self.free(self.taken | self.taken_behind()));
            self.move_before(between, from);
            self.move_before(to, between);
        } else {
            self.move_before(to, from);
        }
    }

    // Makes the moves of a block, and its operation.
    fn draw(&mut self, node: &Node) -> Operation {
        let rtl = self.placed.code.shape.rtl;
        if self.at == rtl.entry() as usize {
            self.take_parameters(rtl.parameters());
        }
        let used = match node {
            Node::Call { arguments, .. } => {
                self.find_crossings();
                self.leave();
                self.take_arguments(arguments.as_slice());
                self.come_back();
                nothing_used()
            }
            Node::Move { from, .. } => {
                self.copy(*from);
                nothing_used()
            }
            Node::Read { .. } => {
                self.give_word();
                nothing_used()
            }
            Node::Write { from, .. } | Node::Return { from } => {
                self.take_word(*from);
                nothing_used()
            }
            node => self.used(node),
        };
        operation_of(node, used)
    }

    // The registers for an operation that can use any registers.
    fn used(&mut self, node: &Node) -> Used {
        let mut used = nothing_used();
        let [first, second] = operands(node);
        if let Some(first) = first {
            used.first = self.take_left(first);
        }
        if let Some(second) = second {
            used.second = self.take(second);
        }
        if let Node::Const { .. } = node {
            self.fetch_early();
        }
        if result(node).is_some() {
            used.to = self.give();
        }
        used
    }
}
