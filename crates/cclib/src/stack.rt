// Reserves room for the stack before a text is read.
//
// The system lets the stack of a process grow as it is used, and ends the process with a signal if a limit on its memory forbids
// that. What the deepest text needs is bounded, since statements nest at most 64 levels deep and a full expression has at most
// 512 tokens: the most that was seen is 606 KiB, for `run` of 62 nested loops around an expression with 508 `~`. So 1 MiB is
// allocated once like any other memory, and freed, which shows that it is available. Then that much of the stack is used, which
// the process keeps from then on. If the memory is not available, the call reports that memory ran out, and no signal comes.
//
// Work that reads no text does not need this: the command line and a client of a server use 64 KiB of stack (measured), and a
// process begins with 128 KiB.

use std::alloc::{AllocError, Global};

/// How many blocks of the stack are reserved, each of 4,096 bytes: more than the deepest text needs.
const BLOCKS: usize = 256;

// Whether this many blocks are free: allocates and frees them. A refusal comes when they are allocated, so the blocks need not
// be used: that would take longer than everything else at a start.
#[inline(never)]
fn is_free(alloc: Global, blocks: usize) -> bool {
    let room: Result<Vec<[u8; 4096]>, AllocError> = Vec::with_capacity(alloc, blocks);
    room.is_ok()
}

// Uses this many blocks of the stack below this call. The result is the byte that is written there.
#[inline(never)]
fn touch(blocks: usize, byte: u8) -> u8 {
    let room = [byte; 4096];
    if blocks == 0 {
        return newest(&room);
    }
    let below = touch(blocks - 1, newest(&room));
    // The block is used after the call, so that it stays until then.
    if below == 0 { 0 } else { newest(&room) }
}

#[inline(never)]
fn newest(room: &[u8]) -> u8 {
    room.last().copied().unwrap_or(0)
}

/// Reserves as much of the stack as the deepest text needs. `AllocError` if that is not available.
pub fn reserve_stack(alloc: Global) -> Result<(), AllocError> {
    if !is_free(alloc, BLOCKS) || touch(BLOCKS, 1) != 1 {
        return Err(AllocError);
    }
    Ok(())
}
