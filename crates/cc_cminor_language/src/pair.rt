// The Cminor of one function of a unit, with the guarantee that its run keeps up with the function.

ghost use Rattle.std.specs.Prelude.{◌≡◌, ◌<◌, length};
ghost use Rattle.std.specs.Arc.{arc_value};
ghost use Rattle.cc_c_semantics.specs.Meaning.{functions};
ghost use Rattle.cc_types.specs.Typed.{IsTyped};
ghost use Rattle.cc_cminor_language.specs.Numbers.{StatementFits};
ghost use Rattle.cc_cminor_language.specs.Pair.{Pair, tree_of, code_of, AreCalls, KeepsUp, FollowsFunction, IsPair};

use super::code::Statement;
use cc_c_semantics::Mode;
use cc_types::TypedUnit;
use std::marker::Model;
use std::sync::Arc;

/// The Cminor of one function of a typed unit. Contracts see the unit, the function's number and the code. The type guarantees
/// that the code's run follows the function's meaning, so no pair exists for which this is false.
pub struct CminorPair {
    mode: Mode,
    unit: Arc<TypedUnit>,
    function: usize,
    code: Box<Statement>,
}

// Written by hand, so that the crates above use this proof and need not show again how each part is dropped.
impl Drop for CminorPair {
    fn drop(self) {
        let CminorPair {
            mode,
            unit,
            function,
            code,
        } = self;
    }
}

impl Model for CminorPair {
    ghost use Rattle.std.specs.Arc.{arc_value};
    ghost use Rattle.std.specs.Coded.{codes};
    ghost use Rattle.cc_ast.specs.contracts.unit.Unit as parsed;
    ghost use Rattle.cc_c_semantics.specs.contracts.mode.Mode as modes;
    ghost use Rattle.cc_cminor_language.specs.contracts.code.Statement as written;
    ghost use Rattle.cc_cminor_language.specs.Pair.{Pair, IsPair};

    ghost Value = { Pair };

    ghost coded = { Prim.hlevel (codes, modes.the_row.coded, parsed.the_row.coded, written.the_row.coded) };

    ghost view = { λ p. record { mode = p.mode; unit = arc_value p.unit; function = p.function; statement = p.code.value } };

    ghost invariant = { λ p. IsPair (record { mode = p.mode; unit = arc_value p.unit; function = p.function; statement = p.code.value }) };
}

impl CminorPair {
    /// Makes a pair of the Cminor of the function with this number; the caller shows what the type guarantees. The passes to
    /// Cminor use this.
    pub fn new(
        mode: Mode,
        unit: Arc<TypedUnit>,
        function: usize,
        code: Box<Statement>,
    ) -> CminorPair
        requires { IsPair (record { mode = mode; unit = arc_value unit; function = function; statement = code.value }) }
        ensures answer { result ≡ record { mode = mode; unit = arc_value unit; function = function; statement = code.value } }
    {
        CminorPair {
            mode,
            unit,
            function,
            code,
        }
    }

    /// What the code must do if the function goes wrong.
    pub fn mode(&self) -> Mode
        ensures answer { result ≡ self.now.mode }
    {
        self.mode
    }

    /// The unit.
    pub fn unit(&self) -> &Arc<TypedUnit>
        ensures answer { arc_value result.now ≡ self.now.unit }
    {
        &self.unit
    }

    /// The function's number, in the order of definitions.
    pub fn function(&self) -> usize
        ensures answer { result ≡ self.now.function }
        ensures of_unit { self.now.function < length (functions (tree_of self.now)) }
    {
        self.function
    }

    /// The code. Parameter i is variable i. Each call in it has as many arguments as its function has parameters. Variables are
    /// below 2,048, objects below 65,536, functions below 64. The code's run keeps up with the function at rate 1: each move of the
    /// run pays for at most one step of the source, so no loop is dropped. So the run follows the function.
    pub fn code(&self) -> &Statement
        ensures code { result.now ≡ self.now.statement }
        ensures typed { IsTyped (tree_of self.now) }
        ensures calls { AreCalls (tree_of self.now) (code_of self.now) }
        ensures numbers { StatementFits (code_of self.now) }
        ensures keeps_up { KeepsUp self.now.mode (tree_of self.now) self.now.function (code_of self.now) }
        ensures follows { FollowsFunction self.now.mode (tree_of self.now) self.now.function (code_of self.now) }
    {
        &self.code
    }

    /// Gives up the pair and returns the unit's owner, for the pair of the next language.
    pub fn into_unit(self) -> Arc<TypedUnit>
        ensures answer { arc_value result ≡ self.unit }
    {
        let CminorPair {
            mode: _,
            unit,
            function: _,
            code,
        } = self;
        drop(code);
        unit
    }
}
