// The Linear of one function of a unit, together with the fact that its run keeps up with the function.

ghost use Rattle.std.specs.Prelude.{◌≡◌, ◌<◌, ◌≤◌, length};
ghost use Rattle.std.specs.Arc.{arc_value};
ghost use Rattle.cc_c_semantics.specs.Meaning.{functions};
ghost use Rattle.cc_types.specs.Typed.{IsTyped};
ghost use Rattle.cc_linear_language.specs.Linear.{IsLinear};
ghost use Rattle.cc_ltl.specs.Ltl.{IsLtl};
ghost use Rattle.cc_linear_language.specs.Pair.{Pair, tree_of, most_blocks, LtlKeepsUp, KeepsUp, FollowsFunction, IsPair};

use crate::item::LinearItem;
use cc_c_semantics::Mode;
use cc_ltl::Ltl;
use cc_types::TypedUnit;
use std::marker::Model;
use std::sync::Arc;

/// The Linear of one function of a typed unit. Contracts see the unit, the function's number, the LTL that was laid out and the items. The
/// type carries the fact that the run of the items follows the function's meaning, whatever the unknown words are. No pair exists for which
/// this is false.
#[derive(Drop)]
pub struct LinearPair {
    mode: Mode,
    unit: Arc<TypedUnit>,
    function: usize,
    ltl: Ltl,
    code: Vec<LinearItem>,
}

impl Model for LinearPair {
    ghost use Rattle.std.specs.Arc.{arc_value};
    ghost use Rattle.std.specs.Coded.{codes};
    ghost use Rattle.cc_ast.specs.contracts.unit.Unit as parsed;
    ghost use Rattle.cc_c_semantics.specs.contracts.mode.Mode as modes;
    ghost use Rattle.cc_linear_language.specs.Pair.{Pair, IsPair};

    ghost Value = { Pair };

    ghost coded = { Prim.hlevel (codes, modes.the_row.coded, parsed.the_row.coded) };

    ghost view = { λ p. record { mode = p.mode; unit = arc_value p.unit; function = p.function; ltl = p.ltl; code = p.code.items } };

    ghost invariant = { λ p. IsPair (record { mode = p.mode; unit = arc_value p.unit; function = p.function; ltl = p.ltl; code = p.code.items }) };
}

impl LinearPair {
    /// The pair of a function whose LTL and Linear are proved to keep up with it: its `requires` asks for what the type keeps. It takes no
    /// memory.
    pub fn new(
        mode: Mode,
        unit: Arc<TypedUnit>,
        function: usize,
        ltl: Ltl,
        code: Vec<LinearItem>,
    ) -> LinearPair
        requires { IsPair (record { mode = mode; unit = arc_value unit; function = function; ltl = ltl; code = code.items }) }
        ensures { result ≡ record { mode = mode; unit = arc_value unit; function = function; ltl = ltl; code = code.items } }
    {
        LinearPair {
            mode,
            unit,
            function,
            ltl,
            code,
        }
    }

    /// The mode: what the code must do if the function goes wrong.
    pub fn mode(&self) -> Mode
        ensures answer { result ≡ self.now.mode }
    {
        self.mode
    }

    /// The unit.
    pub fn unit(&self) -> &Arc<TypedUnit>
        ensures answer { arc_value result.now ≡ self.now.unit }
    {
        &self.unit
    }

    /// The function's number, in the order of definitions.
    pub fn function(&self) -> usize
        ensures answer { result ≡ self.now.function }
        ensures of_unit { self.now.function < length (functions (tree_of self.now)) }
    {
        self.function
    }

    /// The number of slots in the function's frame: as many as the LTL has, and at most 495.
    pub fn slots(&self) -> u16
        ensures answer { result ≡ self.now.ltl.slots }
    {
        self.ltl.slots()
    }

    /// The LTL that was laid out: at most 4,096 blocks, whose run keeps up with the function.
    pub fn ltl(&self) -> &Ltl
        ensures ltl { result.now ≡ self.now.ltl }
        ensures is_ltl { IsLtl self.now.ltl }
        ensures few { length self.now.ltl.blocks ≤ most_blocks }
        ensures keeps_up { LtlKeepsUp self.now.mode (tree_of self.now) self.now.function self.now.ltl }
    {
        &self.ltl
    }

    /// The items. No label occurs twice, each label to which a jump or a branch leads is in the list, and each call is of a function of the
    /// unit. The run keeps up with the function and so follows it, for every list of unknown words that locations may hold.
    pub fn code(&self) -> &[LinearItem]
        ensures code { result.now ≡ self.now.code }
        ensures typed { IsTyped (tree_of self.now) }
        ensures linear { IsLinear self.now.ltl.slots (length (functions (tree_of self.now))) self.now.code }
        ensures keeps_up { KeepsUp self.now.mode (tree_of self.now) self.now.function self.now.ltl.slots self.now.code }
        ensures follows { FollowsFunction self.now.mode (tree_of self.now) self.now.function self.now.ltl.slots self.now.code }
    {
        self.code.as_slice()
    }

    /// The unit and the LTL, from which the piece is made.
    pub fn into_parts(self) -> (Arc<TypedUnit>, Ltl)
        ensures unit { arc_value result.0 ≡ self.unit }
        ensures ltl { result.1 ≡ self.ltl }
    {
        let LinearPair {
            mode: _,
            unit,
            function: _,
            ltl,
            code,
        } = self;
        drop(code);
        (unit, ltl)
    }
}
