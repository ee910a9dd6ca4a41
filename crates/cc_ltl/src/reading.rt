// Reads the function that bytes spell, from left to right. No memory is reserved on the strength of a number in the bytes. A
// list grows only by what was read, so bytes that state a false length cost no more than the bytes that are there.

ghost use Rattle.std.specs.Prelude.{◌≡◌, length, IfOk};
ghost use Rattle.cc_ltl.specs.Bytes.{ReadAnswers};
ghost use Rattle.cc_ltl.specs.internal.Reading.{Gives, Reads, between_in, binary_operation_in, block_in, blocks_in, branch_in, call_in, const_in, load_in, move_in, moves_in, nop_in, operation_in, parts_in, read_in, reload_in, slots_in, spill_in, store_in, times, unary_operation_in, write_in};

use crate::block::{Block, Moves};
use crate::cursor::Cursor;
use crate::fault::LtlFault;
use crate::location::MOST_SLOTS;
use crate::ltl::Ltl;
use crate::operation::{Move, Operation};
use std::alloc::Global;

/// Returns the function that all these bytes together spell.
///
/// Fails with 37 `Damaged` exactly if they spell no function. The reasons: a register that is not allocatable, a slot that is
/// not below the number of slots, more than 495 slots, an unknown number of a move, of an operation or of an operator, a width
/// other than 1 and 4, moves after a branch or a return, labels that do not ascend, missing bytes, or bytes left over. Fails
/// with 40 `OutOfMemory` if memory ran out.
pub fn read_ltl(alloc: Global, bytes: &[u8]) -> Result<Ltl, LtlFault>
    ensures answers { ReadAnswers bytes.now result }
{
    let parts = parts_of(alloc, bytes)?;
    match Ltl::new(parts.slots, parts.entry, parts.blocks) {
        Ok(ltl) => Ok(ltl),
        Err(_) => Err(LtlFault::Damaged),
    }
}

// The parts of a function. Whether the parts go together is not checked here.
#[derive(Drop)]
struct Parts {
    slots: u16,
    entry: u32,
    blocks: Vec<Block>,
}

#[tactic(auto, unfolding(crate::specs::internal::Reading::parts_in))]
fn parts_of(alloc: Global, bytes: &[u8]) -> Result<Parts, LtlFault>
    ensures { Gives (λ parts. record { slots = parts.slots; entry = parts.entry; blocks = parts.blocks.items }) result (parts_in bytes.now) }
{
    let mut cursor = Cursor::new(bytes);
    let slots = cursor.slots().ok_or(LtlFault::Damaged)?;
    let entry = cursor.word().ok_or(LtlFault::Damaged)?;
    let blocks = cursor.blocks(alloc)?;
    if !cursor.is_at_end() {
        return Err(LtlFault::Damaged);
    }
    Ok(Parts {
        slots,
        entry,
        blocks,
    })
}

// Reading blocks and functions.
impl<'a> Cursor<'a> {
    // Reads the number of slots of a function.
    #[tactic(auto, unfolding(crate::specs::internal::Reading::slots_in))]
    fn slots(&mut self) -> Option<u16>
        ensures { Reads (slots_in self.old) result self.new }
    {
        let slots = self.word()?;
        if slots > u32::from(MOST_SLOTS) {
            return None;
        }
        Some(slots as u16)
    }

    // Reads the number of blocks, and the blocks.
    #[tactic(auto, unfolding(crate::specs::internal::Reading::blocks_in))]
    fn blocks(&mut self, alloc: Global) -> Result<Vec<Block>, LtlFault>
        ensures { Gives (λ blocks. (blocks.items, self.new)) result (blocks_in self.old) }
    {
        let count = self.word().ok_or(LtlFault::Damaged)?;
        self.block_list(alloc, count)
    }

    fn block_list(&mut self, alloc: Global, count: u32) -> Result<Vec<Block>, LtlFault>
        ensures { Gives (λ blocks. (blocks.items, self.new)) result (times block_in count self.old) }
    {
        let mut found = Vec::new(alloc);
        for _ in 0..count {
            let block = self.block(alloc)?;
            found.push(block)?;
        }
        Ok(found)
    }

    #[tactic(auto, unfolding(crate::specs::internal::Reading::block_in))]
    fn block(&mut self, alloc: Global) -> Result<Block, LtlFault>
        ensures { Gives (λ block. (block, self.new)) result (block_in self.old) }
    {
        let label = self.word().ok_or(LtlFault::Damaged)?;
        let before = self.moves(alloc)?;
        let Some(operation) = self.operation() else {
            return Err(LtlFault::Damaged);
        };
        let after = self.moves(alloc)?;
        Ok(Block {
            label,
            before,
            operation,
            after,
        })
    }
}

// Reading moves.
impl<'a> Cursor<'a> {
    // Reads the number of moves, and the moves.
    #[tactic(auto, unfolding(crate::specs::internal::Reading::moves_in))]
    fn moves(&mut self, alloc: Global) -> Result<Moves, LtlFault>
        ensures { Gives (λ moves. (moves, self.new)) result (moves_in self.old) }
    {
        let count = self.half().ok_or(LtlFault::Damaged)?;
        let moves = self.move_list(alloc, count)?;
        match Moves::new(moves) {
            Ok(moves) => Ok(moves),
            Err(_) => Err(LtlFault::Damaged),
        }
    }

    fn move_list(&mut self, alloc: Global, count: u16) -> Result<Vec<Move>, LtlFault>
        ensures given { Gives (λ moves. (moves.items, self.new)) result (times move_in count self.old) }
        ensures counted { IfOk result (λ moves. length moves.items ≡ count) }
    {
        let mut moves = Vec::new(alloc);
        for _ in 0..count {
            let Some(each) = self.next_move() else {
                return Err(LtlFault::Damaged);
            };
            moves.push(each)?;
        }
        Ok(moves)
    }

    #[tactic(auto, unfolding(crate::specs::internal::Reading::move_in))]
    fn next_move(&mut self) -> Option<Move>
        ensures { Reads (move_in self.old) result self.new }
    {
        // ORDER Operation
        match self.byte()? {
            0 => self.between(),
            1 => self.reload(),
            2 => self.spill(),
            _ => None,
        }
    }

    #[tactic(auto, unfolding(crate::specs::internal::Reading::between_in))]
    fn between(&mut self) -> Option<Move>
        ensures { Reads (between_in self.old) result self.new }
    {
        Some(Move::Between {
            to: self.register()?,
            from: self.register()?,
        })
    }

    #[tactic(auto, unfolding(crate::specs::internal::Reading::reload_in))]
    fn reload(&mut self) -> Option<Move>
        ensures { Reads (reload_in self.old) result self.new }
    {
        Some(Move::Reload {
            to: self.register()?,
            slot: self.slot()?,
        })
    }

    #[tactic(auto, unfolding(crate::specs::internal::Reading::spill_in))]
    fn spill(&mut self) -> Option<Move>
        ensures { Reads (spill_in self.old) result self.new }
    {
        Some(Move::Spill {
            slot: self.slot()?,
            from: self.register()?,
        })
    }
}

// Reading operations.
impl<'a> Cursor<'a> {
    #[tactic(auto, unfolding(crate::specs::internal::Reading::operation_in, crate::specs::internal::Reading::return_in))]
    fn operation(&mut self) -> Option<Operation>
        ensures { Reads (operation_in self.old) result self.new }
    {
        // ORDER Operation
        match self.byte()? {
            0 => self.nop(),
            1 => self.constant(),
            2 => self.unary_operation(),
            3 => self.binary_operation(),
            4 => self.load(),
            5 => self.store(),
            6 => self.call(),
            7 => self.read(),
            8 => self.write(),
            9 => self.branch(),
            10 => Some(Operation::Return),
            _ => None,
        }
    }

    #[tactic(auto, unfolding(crate::specs::internal::Reading::nop_in))]
    fn nop(&mut self) -> Option<Operation>
        ensures { Reads (nop_in self.old) result self.new }
    {
        Some(Operation::Nop { next: self.word()? })
    }

    #[tactic(auto, unfolding(crate::specs::internal::Reading::const_in))]
    fn constant(&mut self) -> Option<Operation>
        ensures { Reads (const_in self.old) result self.new }
    {
        Some(Operation::Const {
            to: self.register()?,
            word: self.word()?,
            next: self.word()?,
        })
    }

    #[tactic(auto, unfolding(crate::specs::internal::Reading::unary_operation_in))]
    fn unary_operation(&mut self) -> Option<Operation>
        ensures { Reads (unary_operation_in self.old) result self.new }
    {
        Some(Operation::Unary {
            operator: self.unary()?,
            to: self.register()?,
            from: self.register()?,
            next: self.word()?,
        })
    }

    #[tactic(auto, unfolding(crate::specs::internal::Reading::binary_operation_in))]
    fn binary_operation(&mut self) -> Option<Operation>
        ensures { Reads (binary_operation_in self.old) result self.new }
    {
        Some(Operation::Binary {
            operator: self.binary()?,
            to: self.register()?,
            left: self.register()?,
            right: self.register()?,
            next: self.word()?,
        })
    }

    #[tactic(auto, unfolding(crate::specs::internal::Reading::load_in, crate::specs::internal::Reading::access_in))]
    fn load(&mut self) -> Option<Operation>
        ensures { Reads (load_in self.old) result self.new }
    {
        Some(Operation::Load {
            width: self.width()?,
            object: self.word()?,
            to: self.register()?,
            index: self.register()?,
            next: self.word()?,
        })
    }

    #[tactic(auto, unfolding(crate::specs::internal::Reading::store_in, crate::specs::internal::Reading::access_in))]
    fn store(&mut self) -> Option<Operation>
        ensures { Reads (store_in self.old) result self.new }
    {
        Some(Operation::Store {
            width: self.width()?,
            object: self.word()?,
            index: self.register()?,
            from: self.register()?,
            next: self.word()?,
        })
    }

    #[tactic(auto, unfolding(crate::specs::internal::Reading::call_in))]
    fn call(&mut self) -> Option<Operation>
        ensures { Reads (call_in self.old) result self.new }
    {
        Some(Operation::Call {
            function: self.word()?,
            next: self.word()?,
        })
    }

    #[tactic(auto, unfolding(crate::specs::internal::Reading::read_in))]
    fn read(&mut self) -> Option<Operation>
        ensures { Reads (read_in self.old) result self.new }
    {
        Some(Operation::Read { next: self.word()? })
    }

    #[tactic(auto, unfolding(crate::specs::internal::Reading::write_in))]
    fn write(&mut self) -> Option<Operation>
        ensures { Reads (write_in self.old) result self.new }
    {
        Some(Operation::Write { next: self.word()? })
    }

    #[tactic(auto, unfolding(crate::specs::internal::Reading::branch_in))]
    fn branch(&mut self) -> Option<Operation>
        ensures { Reads (branch_in self.old) result self.new }
    {
        Some(Operation::Branch {
            from: self.register()?,
            if_nonzero: self.word()?,
            if_zero: self.word()?,
        })
    }
}
