// Constants: one instruction if the word fits in twelve bits, sign-extended, or ends in twelve zero bits,
// else two.

ghost use Rattle.std.specs.Prelude.{◌≡◌, ◌≤◌, ◌<◌, ◌++◌, OnOk};
ghost use Rattle.cc_emit.specs.Emission.{const_items, const_size};

use crate::instructions::{ZERO, add_immediate, high, load_upper, low, put};
use crate::item::PieceItem;
use std::alloc::AllocError;

/// The number of items that a constant needs: 1 or 2.
pub(crate) fn constant_size(word: u32) -> usize
    ensures answer { result ≡ const_size word }
    ensures few { result ≤ 2 }
{
    if high(word) == 0 || low(word) == 0 {
        1
    } else {
        2
    }
}

/// Emits the items of a constant.
pub(crate) fn put_constant(items: &mut Vec<PieceItem>, to: u8, word: u32) -> Result<(), AllocError>
    requires { to < 32 }
    ensures { OnOk result (items.new.items ≡ items.old.items ++ const_items to word) }
{
    let (high, low) = (high(word), low(word));
    if high == 0 {
        put(items, add_immediate(to, ZERO, low))
    } else if low == 0 {
        put(items, load_upper(to, high))
    } else {
        put(items, load_upper(to, high))?;
        put(items, add_immediate(to, to, low))
    }
}
