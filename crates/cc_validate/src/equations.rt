// Sets of equations without a contradiction. Only this file knows how a set is stored: as rows of bits, one row for each pseudo-register,
// with one bit for each location. Rows past the last one with an equation take no memory, and rows are no wider than the function's
// locations need. A set is carried through moves one by one, column to column. Through more moves than there are locations it is carried at
// once, by a table that says where each location's word comes from.

ghost use Rattle.std.specs.Prelude.{◌≡◌, ◌+◌, ◌<◌, ◌≤◌, ◌^◌, ◌↔◌, ◌≢◌, ◌==◌, ◌&&◌, ◌∷◌, [], ℕ, Some, Contains, get_or, length, if◌then◌else◌, IfOk, IfErr, IsTrue, IsFalse};
ghost use Rattle.cc_flow.specs.Lattice.{Equivalent};
ghost use Rattle.cc_bits.specs.Rows.{has, most_width, most_rows};
ghost use Rattle.cc_ltl.specs.Ltl.{same_location};
ghost use Rattle.cc_validate.specs.Equations.{before_moves, equation};
ghost use Rattle.cc_validate.specs.Solution.{IsAtEntry};
ghost use Rattle.cc_validate.specs.internal.Facts.{Below, join as join_of};
ghost use Rattle.cc_validate.specs.internal.Room.{room as room_of, IsPlace, most_places};
ghost use Rattle.cc_validate.specs.internal.Table.{listed, AreEquations};
ghost use Rattle.cc_validate.specs.internal.Carried.{AreCarried, AreLeft, AreWith, IsEntryBit};
ghost use Rattle.cc_validate.specs.internal.Origins.{AreSent};
ghost use Rattle.cc_ltl.specs.declared.location.Location.TheVariants.{Register as in_register};
ghost use Rattle.cc_validate.specs.declared.equation.Equation.{Equation};

use crate::equation::Equation;
use crate::moves::{number, source, target};
use crate::origins::{PLACES, origins};
use cc_bits::BitRows;
use cc_ltl::Move;
use std::alloc::{AllocError, Global};
use std::marker::Model;

// Parameters are in x10 and up.
const FIRST_ARGUMENT: usize = 10;

/// A set of equations. Contracts see a list of them, whose order does not matter.
#[derive(Drop)]
pub struct Equations {
    bits: BitRows,
}

impl Model for Equations {
    ghost use Rattle.std.specs.Prelude.{List};
    ghost use Rattle.cc_validate.specs.declared.equation.Equation.{Equation};
    ghost use Rattle.cc_validate.specs.internal.Table.{listed, AreEquations};

    ghost Value = { List Equation };

    ghost view = { λ s. listed s.bits };

    ghost invariant = { λ s. AreEquations s.bits };
}

/// The row of an equation.
fn row(e: &Equation) -> usize
    ensures row { result ≡ e.now.register }
    ensures fits { e.now.register < 2 ^ 32 }
{
    e.register as usize
}

impl Equations {
    /// The empty set. It takes no memory.
    pub fn new(alloc: Global) -> Equations
        ensures { result ≡ [] }
    {
        Equations {
            bits: BitRows::new(alloc),
        }
    }

    /// A copy of the set, with room for `width` words of locations. `Err` if memory runs out.
    pub fn copy(&self, width: usize) -> Result<Equations, AllocError>
        requires { width ≤ most_width }
        ensures { IfOk result (λ made. made ≡ self.now) }
    {
        Ok(Equations {
            bits: self.bits.copy(width)?,
        })
    }

    /// Adds an equation. If memory runs out, the set stays as it was.
    pub fn add(&mut self, e: Equation) -> Result<(), AllocError>
        ensures added { IfOk result (λ _. AreWith (e ∷ []) self.old self.new) }
        ensures leaves { IfErr result (λ _. self.new ≡ self.old) }
    {
        self.bits.insert(row(&e), number(e.location))?;
        Ok(())
    }

    /// Adds all equations of another set, and answers whether any of them was missing. If memory runs out, the set stays as it was.
    pub fn join(&mut self, other: &Equations) -> Result<bool, AllocError>
        ensures both { IfOk result (λ _. Equivalent Below (Some self.new) (join_of (Some self.old) (Some other.now))) }
        ensures unchanged { IfOk result (λ rose. IsFalse rose → self.new ≡ self.old) }
        ensures rises { IfOk result (λ rose. IsTrue rose → room_of (Some self.new) < room_of (Some self.old)) }
        ensures leaves { IfErr result (λ _. self.new ≡ self.old) }
    {
        let rose = self.bits.join(&other.bits)?;
        Ok(rose)
    }

    /// What has to hold before these moves, so that the set holds after them. `Err` if memory runs out.
    pub fn carry(self, alloc: Global, moves: &[Move]) -> Result<Equations, AllocError>
        ensures { IfOk result (λ made. AreCarried (before_moves moves.now) self made) }
    {
        let Equations { mut bits } = self;
        if moves.len() > PLACES {
            let bits = carry_at_once(alloc, &bits, moves)?;
            return Ok(Equations { bits });
        }
        carry_bits(&mut bits, moves)?;
        Ok(Equations { bits })
    }

    /// Replaces one pseudo-register with another in all equations. `Err` if memory runs out.
    pub fn rename(self, to: u32, from: u32) -> Result<Equations, AllocError>
        ensures { IfOk result (λ made. AreCarried (λ e. equation (if to == e.register then from else e.register) e.location) self made) }
    {
        let Equations { mut bits } = self;
        bits.move_row(to as usize, from as usize)?;
        Ok(Equations { bits })
    }

    /// Removes an equation.
    pub fn remove(&mut self, e: Equation)
        ensures { AreLeft (λ x. e.register == x.register && same_location e.location x.location) self.old self.new }
    {
        self.bits.remove(row(&e), number(e.location));
    }

    /// States the ranges of the equations' fields, for proofs.
    pub fn fit(&self)
        ensures { (e : Equation) → Contains self.now e → (e.register < 2 ^ 32) × IsPlace e.location }
    {
        let _bits = &self.bits;
    }

    /// Whether there is an equation on a pseudo-register.
    pub fn has_register(&self, register: u32) -> bool
        ensures some { IsTrue result → (e : Equation) × Contains self.now e × (e.register ≡ register) }
        ensures none { IsFalse result → (e : Equation) → Contains self.now e → e.register ≢ register }
    {
        !self.bits.is_row_empty(register as usize)
    }

    /// Whether there is an equation on the register with this number.
    pub fn has_place(&self, number: u8) -> bool
        requires { number < 32 }
        ensures some { IsTrue result → (e : Equation) × Contains self.now e × (e.location ≡ in_register number) }
        ensures none { IsFalse result → (e : Equation) → Contains self.now e → e.location ≢ in_register number }
    {
        !self.bits.is_column_empty(number as usize)
    }

    /// Whether every equation is one of a parameter and its location at entry.
    pub fn are_at_entry(&self, parameters: u32) -> bool
        ensures { IsTrue result ↔ ((e : Equation) → Contains self.now e → IsAtEntry parameters e) }
    {
        let _bits = &self.bits;
        are_entry_bits(&self.bits, parameters)
    }
}

/// Carries the bits back through the moves, from the last one on: an equation on a move's target becomes one on its source.
fn carry_bits(bits: &mut BitRows, moves: &[Move]) -> Result<(), AllocError>
    requires { AreEquations bits.old }
    ensures bits { IfOk result (λ _. AreEquations bits.new) }
    ensures carried { IfOk result (λ _. AreCarried (before_moves moves.now) (listed bits.old) (listed bits.new)) }
{
    let mut left = moves.len();
    while left > 0 {
        left -= 1;
        let m = &moves[left];
        bits.move_column(number(target(m)), number(source(m)))?;
    }
    Ok(())
}

/// Carries the bits back through all moves at once: a table says where each location's word comes from, and a new set is made
/// with it.
fn carry_at_once(alloc: Global, bits: &BitRows, moves: &[Move]) -> Result<BitRows, AllocError>
    requires { AreEquations bits.now }
    ensures bits { IfOk result (λ made. AreEquations made) }
    ensures carried { IfOk result (λ made. AreCarried (before_moves moves.now) (listed bits.now) (listed made)) }
{
    let origins = origins(alloc, moves)?;
    let mut made = BitRows::new(alloc);
    for r in 0..bits.rows() {
        put_row(bits, r, origins.as_slice(), &mut made)?;
    }
    Ok(made)
}

/// Adds the bits of row r, after those of the rows before it.
fn put_row(
    bits: &BitRows,
    r: usize,
    origins: &[usize],
    made: &mut BitRows,
) -> Result<(), AllocError>
    requires row { r < most_rows }
    requires bits { AreEquations bits.now }
    requires long { length origins.now ≡ most_places }
    requires places { (c : ℕ) → get_or origins.now c 0 < most_places }
    requires before { AreSent (λ i c. (i < r) × IsTrue (has bits.now i c)) origins.now made.old }
    ensures { IfOk result (λ _. AreSent (λ i c. (i < r + 1) × IsTrue (has bits.now i c)) origins.now made.new) }
{
    for (c, origin) in origins.iter().enumerate() {
        if bits.contains(r, c) {
            made.insert(r, *origin)?;
        }
    }
    Ok(())
}

/// Whether each bit that is set is that of a parameter and its location.
fn are_entry_bits(bits: &BitRows, parameters: u32) -> bool
    ensures all { IsTrue result → (r c : ℕ) → IsTrue (has bits.now r c) → IsEntryBit parameters r c }
    ensures other { IsFalse result → (r c : ℕ) × IsTrue (has bits.now r c) × (IsEntryBit parameters r c → ⊥) }
{
    for r in 0..bits.rows() {
        if !is_entry_row(bits, parameters, r) {
            return false;
        }
    }
    true
}

/// Whether each bit of row r that is set is that of a parameter and its location.
fn is_entry_row(bits: &BitRows, parameters: u32, r: usize) -> bool
    requires { r < most_rows }
    ensures all { IsTrue result → (c : ℕ) → IsTrue (has bits.now r c) → IsEntryBit parameters r c }
    ensures other { IsFalse result → (c : ℕ) × IsTrue (has bits.now r c) × (IsEntryBit parameters r c → ⊥) }
{
    if bits.is_row_empty(r) {
        return true;
    }
    for c in 0..bits.columns() {
        if bits.contains(r, c) && !is_entry_bit(parameters, r, c) {
            return false;
        }
    }
    true
}

/// Whether a bit is that of a parameter and its location: parameter i is in x(10 + i), and the last register is x31.
fn is_entry_bit(parameters: u32, r: usize, c: usize) -> bool
    requires { r < most_rows }
    ensures { IsTrue result ↔ IsEntryBit parameters r c }
{
    r < parameters as usize && c == FIRST_ARGUMENT + r && c < 32
}
