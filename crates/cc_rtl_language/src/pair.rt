// The RTL of one function of a unit, with the guarantee that its run keeps up with the function.

ghost use Rattle.std.specs.Prelude.{◌≡◌, ◌<◌, [], ◌∷◌, length, All, IsSome};
ghost use Rattle.std.specs.Arc.{arc_value};
ghost use Rattle.cc_c_semantics.specs.Meaning.{functions};
ghost use Rattle.cc_types.specs.Typed.{IsTyped};
ghost use Rattle.cc_rtl_language.specs.Rtl.{IsRtl, node_at};
ghost use Rattle.cc_rtl_language.specs.Live.{without, MayGo};
ghost use Rattle.cc_rtl_language.specs.Pair.{Pair, tree_of, AreCalls, HasParameters, KeepsUp, FollowsFunction, IsPair};

use crate::rtl::Rtl;
use cc_c_semantics::Mode;
use cc_types::TypedUnit;
use std::marker::Model;
use std::sync::Arc;

/// The RTL of one function of a typed unit. Contracts see the unit, the function's number and the RTL. The type guarantees that
/// its run follows the function's meaning, so no pair exists for which this is false.
pub struct RtlPair {
    mode: Mode,
    unit: Arc<TypedUnit>,
    function: usize,
    code: Rtl,
}

// Written by hand, so that the crates above use this proof and need not show again how each part is dropped.
impl Drop for RtlPair {
    fn drop(self) {
        let RtlPair {
            mode,
            unit,
            function,
            code,
        } = self;
    }
}

impl Model for RtlPair {
    ghost use Rattle.std.specs.Arc.{arc_value};
    ghost use Rattle.std.specs.Coded.{codes};
    ghost use Rattle.cc_ast.specs.contracts.unit.Unit as parsed;
    ghost use Rattle.cc_c_semantics.specs.contracts.mode.Mode as modes;
    ghost use Rattle.cc_rtl_language.specs.Pair.{Pair, IsPair};

    ghost Value = { Pair };

    ghost coded = { Prim.hlevel (codes, modes.the_row.coded, parsed.the_row.coded) };

    ghost view = { λ p. record { mode = p.mode; unit = arc_value p.unit; function = p.function; rtl = p.code } };

    ghost invariant = { λ p. IsPair (record { mode = p.mode; unit = arc_value p.unit; function = p.function; rtl = p.code }) };
}

impl RtlPair {
    /// Makes a pair of a function whose RTL keeps up with it; the caller shows what the type guarantees. Takes no memory.
    pub fn new(mode: Mode, unit: Arc<TypedUnit>, function: usize, code: Rtl) -> RtlPair
        requires { IsPair (record { mode = mode; unit = arc_value unit; function = function; rtl = code }) }
        ensures { result ≡ record { mode = mode; unit = arc_value unit; function = function; rtl = code } }
    {
        RtlPair {
            mode,
            unit,
            function,
            code,
        }
    }

    /// The mode, which says what the code owes if the function goes wrong.
    pub fn mode(&self) -> Mode
        ensures answer { result ≡ self.now.mode }
    {
        self.mode
    }

    /// The unit.
    pub fn unit(&self) -> &Arc<TypedUnit>
        ensures answer { arc_value result.now ≡ self.now.unit }
    {
        &self.unit
    }

    /// The function's number, in the order of definitions.
    pub fn function(&self) -> usize
        ensures answer { result ≡ self.now.function }
        ensures of_unit { self.now.function < length (functions (tree_of self.now)) }
    {
        self.function
    }

    /// The code. Its parameters are the function's, and parameter i is pseudo-register i. Each call in it has its function's
    /// number of arguments. Its labels ascend, each node leads to nodes, and the entry is a nop that no node leads to. Its run
    /// keeps up with the function, and so follows it.
    pub fn code(&self) -> &Rtl
        ensures code { result.now ≡ self.now.rtl }
        ensures rtl { IsRtl self.now.rtl }
        ensures typed { IsTyped (tree_of self.now) }
        ensures parameters { HasParameters (tree_of self.now) self.now.function self.now.rtl }
        ensures calls { AreCalls (tree_of self.now) self.now.rtl }
        ensures keeps_up { KeepsUp self.now.mode (tree_of self.now) self.now.function self.now.rtl }
        ensures follows { FollowsFunction self.now.mode (tree_of self.now) self.now.function self.now.rtl }
    {
        &self.code
    }

    /// Turns the nodes with these labels into nops. The caller shows that they are pure, and that their results are in no live
    /// set after them, for some live sets of the code with the nops. Nothing else changes. Takes no memory.
    pub fn make_nops(&mut self, labels: &[u32])
        requires there { All (λ l. IsSome (node_at self.old.rtl.nodes l)) labels.now }
        requires dead { MayGo labels.now self.old.rtl }
        ensures { self.new ≡ record self.old { rtl = without labels.now self.old.rtl } }
    {
        self.code.make_nops(labels);
    }

    /// Turns the node with one label into a nop, under the condition of `make_nops`.
    pub fn make_nop(&mut self, label: u32)
        requires there { IsSome (node_at self.old.rtl.nodes label) }
        requires dead { MayGo (label ∷ []) self.old.rtl }
        ensures { self.new ≡ record self.old { rtl = without (label ∷ []) self.old.rtl } }
    {
        self.make_nops(&[label]);
    }

    /// Gives up the pair and returns the unit's owner, for the pair of the next language.
    pub fn into_unit(self) -> Arc<TypedUnit>
        ensures answer { arc_value result ≡ self.unit }
    {
        let RtlPair {
            mode: _,
            unit,
            function: _,
            code,
        } = self;
        drop(code);
        unit
    }
}
