//! Sums of multiples of constraints.
//!
//! A [`Combination`] is made once for a number of variables, and is used for one sum after another.
//! `add` adds a multiple of a constraint, and refuses a product or a partial sum that is out of
//! bound, and senses that don't go together. `finish` gives the sum as a constraint; `dominates`
//! and `rounds_to` compare it in place. `clear` makes it empty again, and takes time for the
//! variables that were touched alone.
ghost use Rattle.std.specs.Prelude.{◌≡◌, ◌≢◌, ◌↔◌, ◌⊎◌, ℕ, true, false, length};
ghost use Rattle.std.specs.Prelude.{IsTrue, IsOk, IsSome, IsNone, IfOk, IfErr, OnOk, OnErr};
ghost use Rattle.std.specs.Prelude.{MatchOption, Some, None};
ghost use Rattle.vipr_spec.specs.Constraint.{Point, at, NamesBelow, value, ValueFits, Compares};
ghost use Rattle.vipr_spec.specs.Constraint.{IsAbsurd, Dominates, IsWholeRow, DominatesRounded};
ghost use Rattle.vipr_spec.specs.{Fraction.◌+ℚ◌, Fraction.◌*ℚ◌, MoreEntries.TermFits};
ghost use Rattle.vipr_spec.specs.MoreEntries as combined;
ghost use Rattle.vipr_linear.specs.Accumulator.{with_row, RowAdditionFits, CanAdd, AdditionFits};
ghost use Rattle.vipr_linear.specs.Accumulator.{HoldsSum, IsSpent, joined_with, with_entry};
ghost use Rattle.vipr_linear.specs.Accumulator.{nothing_added, summed_condition, held_condition};
ghost use Rattle.vipr_linear.specs.Constraint.{sense_of, condition_of, SaysAsMuch};
ghost use Rattle.vipr_linear.specs.Values.{IsLaidOut};

use crate::constraint::{Constraint, Sense, compares};
use crate::ints::Ints;
use crate::places::Places;
use crate::rounding::{is_whole_row, rounded_rhs};
use crate::row::{Row, Solution};
use crate::values::value_in;
use std::alloc::{AllocError, Global};
use std::marker::Model;
use vipr_frac::{Frac, Overflow, Partial};

/// Why an entry can't be added, or the sum not be given.
#[derive(Clone, Copy, Debug, PartialEq, Eq)]
pub enum CombError {
    /// With the entry, some product of a multiplier and a sense's sign is positive and another
    /// negative.
    MixedSigns,
    /// A product or a partial sum is out of bound.
    Overflow,
    /// A growth was refused.
    Memory,
    /// An error came before, and no `clear` since.
    Spent,
}

/// The sum of multiples of constraints over the variables below a number. Its places hold a point
/// too, if a solution is laid out.
#[derive(Debug, Drop)]
pub struct Combination {
    places: Places,
    sense: Sense,
    rhs: Partial,
    is_spent: bool,
}

impl Model for Combination {
    ghost use Rattle.vipr_linear.specs.Accumulator.{Accumulator, coded_accumulator};
    ghost use Rattle.vipr_linear.specs.Constraint.{sense_of};

    ghost Value = { Accumulator };

    ghost coded = { coded_accumulator };

    ghost view = { λ a. record {
      sums = a.places;
      bound = a.rhs;
      sense = sense_of a.sense;
      spent = a.is_spent;
    } };
}

impl Combination {
    /// The empty sum over the variables below `n`.
    pub fn new(alloc: Global, n: u32) -> Result<Combination, AllocError>
        ensures { IfOk result (λ sum. sum ≡ nothing_added n) }
    {
        Ok(Combination {
            places: Places::new(alloc, n as usize)?,
            sense: Sense::E,
            rhs: Partial::zero(),
            is_spent: false,
        })
    }

    /// Makes it empty, also after an error.
    pub fn clear(&mut self)
        ensures { self.new ≡ nothing_added (length self.old.sums) }
    {
        self.places.reset();
        self.sense = Sense::E;
        self.rhs = Partial::zero();
        self.is_spent = false;
    }

    /// Makes the sum of each variable its coordinate at a solution, in place of what was added.
    pub fn lay_out(&mut self, solution: &Solution)
        ensures { IsLaidOut (length self.old.sums) (at solution.now.0) self.new.sums }
    {
        self.clear();
        self.places.set(solution.0.entries());
    }

    /// The value of a row at the solution that is laid out, summed over the row's variables in
    /// rising order.
    pub fn value_of(&self, row: &Row) -> Result<Frac, Overflow>
        ensures fits { (n : ℕ) (x : Point) → IsLaidOut n x self.now.sums
            → NamesBelow n (at row.now) → IsOk result ↔ ValueFits n (at row.now) x }
        ensures value { (n : ℕ) (x : Point) → IsLaidOut n x self.now.sums
            → NamesBelow n (at row.now) → IfOk result (λ v. v ≡ value n (at row.now) x) }
    {
        value_in(row, self.places.sums())
    }

    /// Adds the multiple of a constraint. A multiplier 0 changes nothing. After an error it is
    /// spent.
    #[inline(never)]
    pub fn add(&mut self, constraint: &Constraint, multiplier: Frac) -> Result<(), CombError>
        requires { NamesBelow (length self.old.sums) (at constraint.now.row) }
        ensures ok { IsOk result ↔ CanAdd self.old (multiplier, condition_of constraint.now) }
        ensures added { OnOk result
            (self.new ≡ with_entry self.old (multiplier, condition_of constraint.now)) }

        ensures spent { (result ≡ Err CombError.Spent) ↔ (self.old.spent ≡ true) }
        ensures mixed_signs { (result ≡ Err CombError.MixedSigns) ↔ ((self.old.spent ≡ false)
            × IsNone (joined_with self.old (multiplier, condition_of constraint.now))) }
        ensures overflow { (result ≡ Err CombError.Overflow) ↔ ((self.old.spent ≡ false)
            × IsSome (joined_with self.old (multiplier, condition_of constraint.now))
            × ¬ AdditionFits self.old (multiplier, condition_of constraint.now)) }
        ensures no_memory { result ≢ Err CombError.Memory }
        ensures variables { length self.new.sums ≡ length self.old.sums }
        ensures err { OnErr result (IsSpent (length self.old.sums) self.new) }
    {
        if self.is_spent {
            return Err(CombError::Spent);
        }
        if multiplier.is_zero() {
            return Ok(());
        }
        let Some(sense) = joined(self.sense, turned(multiplier, constraint.sense)) else {
            self.is_spent = true;
            return Err(CombError::MixedSigns);
        };
        match add_constraint(&mut self.places, &mut self.rhs, constraint, multiplier) {
            Ok(()) => {
                self.sense = sense;
                Ok(())
            }
            Err(_) => {
                self.is_spent = true;
                Err(CombError::Overflow)
            }
        }
    }

    /// Whether the sum dominates a constraint: it is absurd, or has the constraint's row and says
    /// as much. It takes no memory, and the sum stays as it is.
    pub fn dominates(&mut self, other: &Constraint) -> bool
        ensures dominates { IsTrue result
            ↔ Dominates (held_condition self.old) (condition_of other.now) }
        ensures kept { self.new ≡ self.old }
    {
        let bound = self.rhs.value();
        say_as_much(&self.places, self.sense, bound, other)
            || are_absurd(&self.places, self.sense, bound)
    }

    /// Whether the sum has the row of a constraint, whose coefficients are whole and at integer
    /// variables, and says as much once its right-hand side is rounded. It takes no memory, and the
    /// sum stays as it is.
    pub fn rounds_to(&mut self, ints: &Ints, other: &Constraint) -> bool
        ensures whole { IsTrue result → IsWholeRow ints.now (held_condition self.old).row }
        ensures dominates { IsTrue result
            → DominatesRounded (held_condition self.old) (condition_of other.now) }
        ensures kept { self.new ≡ self.old }
    {
        match rounded_rhs(self.sense, self.rhs.value()) {
            Some(rounded) => {
                say_as_much(&self.places, self.sense, rounded, other)
                    && is_whole_row(&other.row, ints)
            }
            None => false,
        }
    }

    /// Gives the sum, and makes it empty. After an error it is spent.
    pub fn finish(&mut self, alloc: Global) -> Result<Constraint, CombError>
        ensures sum { IfOk result (λ sum. HoldsSum self.old sum.row (sense_of sum.sense) sum.rhs) }
        ensures emptied { OnOk result (self.new ≡ nothing_added (length self.old.sums)) }

        ensures spent { (result ≡ Err CombError.Spent) ↔ (self.old.spent ≡ true) }
        ensures memory { IfErr result
            (λ error. (error ≡ CombError.Spent) ⊎ (error ≡ CombError.Memory)) }
        ensures variables { length self.new.sums ≡ length self.old.sums }
        ensures err { OnErr result (IsSpent (length self.old.sums) self.new) }
    {
        if self.is_spent {
            return Err(CombError::Spent);
        }
        let Ok(entries) = self.places.nonzero(alloc) else {
            self.is_spent = true;
            return Err(CombError::Memory);
        };
        let sum = Constraint {
            row: Row::from_rising(entries),
            sense: self.sense,
            rhs: self.rhs.value(),
        };
        self.clear();
        Ok(sum)
    }
}

// The sense of the multiple of a constraint.
fn turned(multiplier: Frac, sense: Sense) -> Sense
    ensures { sense_of result ≡ combined.sense_of_multiple multiplier (sense_of sense) }
{
    let numer = multiplier.numer();
    if numer > 0 {
        return sense;
    }
    match sense {
        Sense::L if numer < 0 => Sense::G,
        Sense::G if numer < 0 => Sense::L,
        _ => Sense::E,
    }
}

// The sense of a sum of two, if they go together.
fn joined(a: Sense, b: Sense) -> Option<Sense>
    ensures { MatchOption result (combined.sense_of_both (sense_of a) (sense_of b) ≡ None)
        (λ s. combined.sense_of_both (sense_of a) (sense_of b) ≡ Some (sense_of s)) }
{
    if a == b {
        return Some(a);
    }
    match (a, b) {
        (Sense::E, _) => Some(b),
        (_, Sense::E) => Some(a),
        (Sense::G, Sense::G) | (Sense::L, Sense::L) => Some(a),
        (Sense::G, Sense::L) | (Sense::L, Sense::G) => None,
    }
}

// Whether sums with this sense and this right-hand side are absurd.
fn are_absurd(places: &Places, sense: Sense, bound: Frac) -> bool
    ensures { IsTrue result ↔ IsAbsurd (summed_condition places.now (sense_of sense) bound) }
{
    !compares(sense, Frac::zero(), bound) && places.are_zero()
}

// Whether a bound compares so with a right-hand side. It mostly is the same.
#[inline(always)]
fn reaches(sense: Sense, bound: Frac, rhs: Frac) -> bool
    ensures { IsTrue result ↔ Compares (sense_of sense) bound rhs }
{
    bound == rhs || compares(sense, bound, rhs)
}

// Whether sums with this sense and this right-hand side have a constraint's row, and say as much.
fn say_as_much(places: &Places, sense: Sense, bound: Frac, other: &Constraint) -> bool
    ensures { IsTrue result
        ↔ SaysAsMuch (summed_condition places.now (sense_of sense) bound) (condition_of other.now) }
{
    (sense == other.sense || sense == Sense::E)
        && reaches(other.sense, bound, other.rhs)
        && places.are_row(&other.row)
}

// Adds the multiple of a constraint to the sums and to the right-hand side.
fn add_constraint(
    places: &mut Places,
    rhs: &mut Partial,
    constraint: &Constraint,
    multiplier: Frac,
) -> Result<(), Overflow>
    requires { NamesBelow (length places.old) (at constraint.now.row) }
    ensures fits { IsOk result ↔ (RowAdditionFits places.old multiplier (at constraint.now.row)
        × TermFits rhs.old multiplier constraint.now.rhs) }
    ensures sums { OnOk result
        (places.new ≡ with_row places.old multiplier (at constraint.now.row)) }
    ensures rhs { OnOk result (rhs.new ≡ rhs.old +ℚ multiplier *ℚ constraint.now.rhs) }
    ensures variables { length places.new ≡ length places.old }
{
    places.add_terms(constraint.row.entries(), multiplier)?;
    rhs.add_product_or_zero(multiplier, constraint.rhs)
}
