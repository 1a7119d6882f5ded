//! Rounding of constraints over integer variables.
//!
//! If all coefficients are whole and at integer variables, then the row is whole at each point that
//! counts. So its right-hand side may be rounded: up for at least, down for at most.
ghost use Rattle.std.specs.Prelude.{◌≡◌, ◌↔◌, ◌≤◌, ℤ, unsigned_abs, IsTrue, IsOk, IfOk, IfErr};
ghost use Rattle.std.specs.Prelude.{MatchOption};
ghost use Rattle.vipr_spec.specs.Fraction.{most, whole, IsWhole};
ghost use Rattle.vipr_spec.specs.Constraint.{Condition, at, equal, IsInteger, IsWholeRow, RoundsTo};
ghost use Rattle.vipr_spec.specs.Constraint.{DominatesRounded};
ghost use Rattle.vipr_linear.specs.Constraint.{sense_of, condition_of};

use crate::constraint::{Constraint, Sense};
use crate::ints::Ints;
use crate::row::Row;
use std::alloc::AllocError;
use vipr_frac::Frac;

impl Ints {
    /// Remembers a row, if all its coefficients are whole and at these variables. That is known at
    /// once then of each row that shares its entries.
    ///
    /// # Errors
    ///
    /// If the row can't be cloned.
    pub fn remember(&mut self, row: &Row) -> Result<(), AllocError>
        ensures { self.new ≡ self.old }
    {
        if is_whole_row(row, self) {
            self.set_whole(row.clone()?);
        }
        Ok(())
    }
}

/// What a constraint becomes by rounding its right-hand side: up for at least, down for at most.
#[derive(Debug, Drop)]
pub enum Rounded {
    Row(Constraint),
    /// An equation whose right-hand side isn't whole.
    Absurd,
}

/// The constraint, some coefficient of which isn't whole or is that of a variable that isn't an
/// integer.
#[derive(Debug, Drop)]
pub struct NotRoundable(pub Constraint);

impl Constraint {
    ghost use Rattle.vipr_linear.specs.Rounding.{IsRounding, RoundedDominates};

    /// Rounds the right-hand side, if all coefficients are whole and at integer variables.
    pub fn round(self, ints: &Ints) -> Result<Rounded, NotRoundable>
        ensures ok { IsOk result ↔ IsWholeRow ints.now (at self.row) }
        ensures rounding { IfOk result (IsRounding self) }
        ensures dominates { IfOk result (λ rounded. (d : Condition)
            → RoundedDominates rounded d ↔ DominatesRounded (condition_of self) d) }
        ensures back { IfErr result (λ refused. refused.0 ≡ self) }
    {
        if !is_whole_row(&self.row, ints) {
            return Err(NotRoundable(self));
        }
        Ok(self.rounded())
    }

    /// Whether what it becomes by rounding its right-hand side, whatever its row is, dominates
    /// `other`.
    pub fn dominates_rounded(&self, other: &Constraint) -> bool
        ensures { IsTrue result
            ↔ DominatesRounded (condition_of self.now) (condition_of other.now) }
    {
        match rounded_rhs(self.sense, self.rhs) {
            Some(rhs) => self.dominates_with(rhs, other),
            None => true,
        }
    }

    // Rounds the right-hand side, whatever the row is.
    fn rounded(self) -> Rounded
        ensures { IsRounding self result }
    {
        match rounded_rhs(self.sense, self.rhs) {
            Some(rhs) => Rounded::Row(Constraint { rhs, ..self }),
            None => Rounded::Absurd,
        }
    }
}

/// The right-hand side rounded, or none for an equation's that isn't whole.
pub(crate) fn rounded_rhs(sense: Sense, rhs: Frac) -> Option<Frac>
    ensures { MatchOption result ((sense_of sense ≡ equal) × ¬ IsWhole rhs)
        (λ r. (k : ℤ) × RoundsTo (sense_of sense) rhs k × (r ≡ whole k)) }
{
    match sense {
        Sense::G => Some(whole(rhs.ceil())),
        Sense::L => Some(whole(rhs.floor())),
        Sense::E if rhs.is_whole() => Some(rhs),
        Sense::E => None,
    }
}

fn whole(k: i128) -> Frac
    requires { unsigned_abs k ≤ most }
    ensures { result ≡ whole k }
{
    Frac::new(k, 1).unwrap()
}

/// Whether all coefficients are whole and at integer variables.
pub fn is_whole_row(row: &Row, ints: &Ints) -> bool
    ensures { IsTrue result ↔ IsWholeRow ints.now (at row.now) }
{
    if ints.knows(row) {
        return true;
    }
    for (variable, coefficient) in row.entries() {
        if !is_whole_at(ints, *variable, *coefficient) {
            return false;
        }
    }
    true
}

fn is_whole_at(ints: &Ints, variable: u32, coefficient: Frac) -> bool
    ensures { IsTrue result ↔ (IsWhole coefficient × IsInteger ints.now variable) }
{
    coefficient.is_whole() && ints.contains(variable)
}
