// The code of one function of a unit, together with the fact that it makes the machine do what the function does.

ghost use Rattle.std.specs.Prelude.{◌≡◌, ◌<◌, ◌≤◌, length};
ghost use Rattle.std.specs.Arc.{arc_value};
ghost use Rattle.cc_c_semantics.specs.Meaning.{functions};
ghost use Rattle.cc_ltl.specs.Ltl.{IsLtl};
ghost use Rattle.cc_linear_language.specs.Pair.{most_blocks, LtlKeepsUp};
ghost use Rattle.cc_emit.specs.Contract.{largest_frame};
ghost use Rattle.cc_emit.specs.Piece.{Piece as Shown, tree_of, IsPieceOfUnit};

use crate::item::PieceItem;
use cc_c_semantics::Mode;
use cc_ltl::Ltl;
use cc_types::TypedUnit;
use std::marker::Model;
use std::sync::Arc;

/// The code of one function of a typed unit, and the LTL from which it was made. Contracts see the unit, the function's number, the LTL and
/// the items. The type carries the fact that the items make the machine do what the function does, wherever they are placed. No piece
/// exists for which this is false.
pub struct Piece {
    mode: Mode,
    unit: Arc<TypedUnit>,
    function: usize,
    ltl: Ltl,
    frame: u32,
    items: Vec<PieceItem>,
}

// Written by hand, so that crates above call this `drop` instead of proving again how each part is dropped.
impl Drop for Piece {
    fn drop(self) {
        let Piece {
            mode,
            unit,
            function,
            ltl,
            frame: _,
            items,
        } = self;
    }
}

impl Model for Piece {
    ghost use Rattle.std.specs.Arc.{arc_value};
    ghost use Rattle.std.specs.Coded.{codes};
    ghost use Rattle.cc_ast.specs.contracts.unit.Unit as parsed;
    ghost use Rattle.cc_c_semantics.specs.contracts.mode.Mode as modes;
    ghost use Rattle.cc_emit.specs.Piece.{Piece as Shown, IsPieceOfUnit};

    ghost Value = { Shown };

    ghost coded = { Prim.hlevel (codes, modes.the_row.coded, parsed.the_row.coded) };

    ghost view = { λ p. record { mode = p.mode; unit = arc_value p.unit; function = p.function; ltl = p.ltl; frame = p.frame; items = p.items.items } };

    ghost invariant = { λ p. IsPieceOfUnit (record { mode = p.mode; unit = arc_value p.unit; function = p.function; ltl = p.ltl; frame = p.frame; items = p.items.items }) };
}

impl Piece {
    // The only place where a piece is made.
    pub(crate) fn new(
        mode: Mode,
        unit: Arc<TypedUnit>,
        function: usize,
        ltl: Ltl,
        frame: u32,
        items: Vec<PieceItem>,
    ) -> Piece
        requires { IsPieceOfUnit (record { mode = mode; unit = arc_value unit; function = function; ltl = ltl; frame = frame; items = items.items }) }
        ensures { result ≡ record { mode = mode; unit = arc_value unit; function = function; ltl = ltl; frame = frame; items = items.items } }
    {
        Piece {
            mode,
            unit,
            function,
            ltl,
            frame,
            items,
        }
    }

    /// The mode: what the code owes if the function goes wrong.
    pub fn mode(&self) -> Mode
        ensures answer { result ≡ self.now.mode }
    {
        self.mode
    }

    /// The unit.
    pub fn unit(&self) -> &Arc<TypedUnit>
        ensures answer { arc_value result.now ≡ self.now.unit }
    {
        &self.unit
    }

    /// The function's number, in the order of definitions.
    pub fn function(&self) -> usize
        ensures answer { result ≡ self.now.function }
        ensures of_unit { self.now.function < length (functions (tree_of self.now)) }
    {
        self.function
    }

    /// The LTL from which the code was made. It has at most 4,096 blocks, and its run keeps up with the function.
    pub fn ltl(&self) -> &Ltl
        ensures ltl { result.now ≡ self.now.ltl }
        ensures is_ltl { IsLtl self.now.ltl }
        ensures few { length self.now.ltl.blocks ≤ most_blocks }
        ensures keeps_up { LtlKeepsUp self.now.mode (tree_of self.now) self.now.function self.now.ltl }
    {
        &self.ltl
    }

    /// The number of bytes of the frame: at most 2,032.
    pub fn frame(&self) -> u32
        ensures answer { result ≡ self.now.frame }
        ensures small { self.now.frame ≤ largest_frame }
    {
        self.frame
    }

    /// The items of the code, one for each word. Each call is of a function of the unit, and each jump goes to an item of the piece or to
    /// its end. Wherever the items are placed, they make the machine do what the function does.
    pub fn items(&self) -> &[PieceItem]
        ensures items { result.now ≡ self.now.items }
        ensures piece { IsPieceOfUnit self.now }
    {
        self.items.as_slice()
    }

    /// Drops the piece and returns its unit.
    pub fn into_unit(self) -> Arc<TypedUnit>
        ensures answer { arc_value result ≡ self.unit }
    {
        let Piece {
            mode: _,
            unit,
            function: _,
            ltl,
            frame: _,
            items,
        } = self;
        drop(ltl);
        drop(items);
        unit
    }
}
