// Carries equations backward over a node and its block: through the moves after the operation, the operation, and the moves before it. The
// operands' equations join them in front of the operation.

ghost use Rattle.std.specs.Prelude.{◌≤◌, Some, IfOk};
ghost use Rattle.cc_flow.specs.Lattice.{Equivalent};
ghost use Rattle.cc_bits.specs.Rows.{most_width};
ghost use Rattle.cc_rtl_language.specs.Code.{node_of};
ghost use Rattle.cc_validate.specs.Equations.{Agrees};
ghost use Rattle.cc_validate.specs.internal.Facts.{Below, through};

use crate::equations::Equations;
use crate::operands::put_operands;
use crate::operation::operate;
use crate::set::EquationSet;
use cc_ltl::Block;
use cc_rtl_language::Node;
use std::alloc::{AllocError, Global};

/// What has to hold before a block, given what has to hold after it. Rows are made with room for `width` words of locations. `Err` if
/// memory runs out.
pub fn carry(
    alloc: Global,
    node: &Node,
    block: &Block,
    behind: &EquationSet,
    width: usize,
) -> Result<EquationSet, AllocError>
    requires agrees { Agrees (node_of node.now) block.now.operation }
    requires width { width ≤ most_width }
    ensures { IfOk result (λ before. Equivalent Below before (through (node_of node.now) block.now behind.now)) }
{
    match behind.equations() {
        None => Ok(EquationSet::contradiction()),
        Some(equations) => carry_all(alloc, node, block, equations, width),
    }
}

/// What has to hold before a block, given a set without a contradiction that has to hold after it.
fn carry_all(
    alloc: Global,
    node: &Node,
    block: &Block,
    behind: &Equations,
    width: usize,
) -> Result<EquationSet, AllocError>
    requires agrees { Agrees (node_of node.now) block.now.operation }
    requires width { width ≤ most_width }
    ensures { IfOk result (λ before. Equivalent Below before (through (node_of node.now) block.now (Some behind.now))) }
{
    let behind = behind.copy(width)?.carry(alloc, block.after.moves())?;
    match operate(behind, node, &block.operation)? {
        None => Ok(EquationSet::contradiction()),
        Some(mut before) => {
            put_operands(&mut before, node, &block.operation)?;
            Ok(EquationSet::of(before.carry(alloc, block.before.moves())?))
        }
    }
}
