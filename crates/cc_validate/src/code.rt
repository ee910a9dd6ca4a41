// The nodes and blocks of a function as the solver reads them: side by side, by position.

ghost use Rattle.std.specs.Prelude.{◌≡◌, ◌≤◌};
ghost use Rattle.cc_bits.specs.Rows.{most_width};
ghost use Rattle.cc_validate.specs.internal.Positions.{carries, AreBeside};
ghost use Rattle.cc_validate.specs.internal.Upward.{carries_up};

use crate::carry::carry;
use crate::set::EquationSet;
use cc_flow::{Facts, Transfer};
use cc_ltl::Block;
use cc_rtl_language::Rtl;
use std::alloc::{AllocError, Global};
use std::marker::Model;

/// The nodes of a function and their blocks, side by side. Contracts see the two lists.
#[derive(Drop)]
pub struct Code<'a> {
    rtl: &'a Rtl,
    blocks: &'a [Block],
    width: usize,
}

impl<'a> Model for Code<'a> {
    ghost use Rattle.cc_rtl_language.specs.Rtl as rtl;
    ghost use Rattle.cc_validate.specs.internal.Positions.{IsCode, Sides};

    ghost Value = { Sides };

    ghost view = { λ c. record { nodes = c.rtl.now.nodes; blocks = c.blocks.now } };

    ghost invariant = { λ c. IsCode c.rtl.now.nodes c.blocks.now c.width };
}

impl<'a> Code<'a> {
    /// Nodes and their blocks, and the number of words that a row of locations occupies.
    pub fn new(rtl: &'a Rtl, blocks: &'a [Block], width: usize) -> Code<'a>
        requires beside { AreBeside rtl.now.nodes blocks.now }
        requires width { width ≤ most_width }
        ensures { result ≡ record { nodes = rtl.now.nodes; blocks = blocks.now } }
    {
        Code { rtl, blocks, width }
    }
}

impl<'a> Transfer<EquationSet> for Code<'a> {
    ghost carries = { λ c. carries c.nodes c.blocks };

    fn apply(
        &self,
        alloc: Global,
        node: usize,
        facts: &EquationSet,
    ) -> Result<EquationSet, AllocError> {
        let _kept = self.rtl.len();
        match self.rtl.at(node) {
            Some(rtl) => carry(alloc, rtl, &self.blocks[node], facts, self.width),
            None => EquationSet::least(alloc),
        }
    }

    ghost monotone = { λ c. carries_up c.nodes c.blocks };
}
