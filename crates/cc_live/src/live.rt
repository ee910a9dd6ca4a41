// The least live sets.

ghost use Rattle.std.specs.Prelude.{◌≡◌, length, IfOk};
ghost use Rattle.cc_rtl_language.specs.Live.{Sets, AreLive};
ghost use Rattle.cc_live.specs.Rows.{rows_at};
ghost use Rattle.cc_live.specs.Liveness.{LieWithin};

use crate::set::Liveness;
use crate::transfer::solve;
use cc_rtl_language::Rtl;
use std::alloc::{AllocError, Global};

/// The least live sets: for each node, the registers that are live before it. A node's set holds what the node reads, and what
/// its successors' sets hold except the node's result. It holds only what the node's set holds in every family of sets for which
/// this is true. Err: memory ran out.
pub fn liveness(alloc: Global, rtl: &Rtl) -> Result<Liveness, AllocError>
    ensures long { IfOk result (λ sets. length sets ≡ length rtl.now.nodes) }
    ensures live { IfOk result (λ sets. AreLive rtl.now.nodes (rows_at rtl.now.nodes sets)) }
    ensures least { IfOk result (λ sets. (other : Sets) → AreLive rtl.now.nodes other → LieWithin (rows_at rtl.now.nodes sets) other) }
{
    Ok(Liveness::new(solve(alloc, rtl, false)?))
}
