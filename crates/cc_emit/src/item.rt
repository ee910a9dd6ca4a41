// The items of a function's code, before it is known where the code will be.

use cc_rv32::instr::Instr;

/// One item, which becomes one word of an image.
#[derive(Clone, Copy)]
pub enum PieceItem {
    /// An instruction.
    Plain(Instr),
    /// A call of the function with this number, in the order of definitions.
    Call(u32),
    /// A jump to the item with this number in the same piece, counted from 0.
    Go(usize),
}
