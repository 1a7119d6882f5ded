//! Constraints, and which of two says as much as the other.
//!
//! A [`Constraint`] compares a row with its right-hand side: equal, at most or at least. It
//! dominates another one if it is absurd, that is false without any variable, or if it has the same
//! row, and its sense and right-hand side say at least as much.
ghost use Rattle.std.specs.Prelude.{◌≡◌, ◌↔◌, IsTrue};
ghost use Rattle.vipr_spec.specs.Constraint.{Compares, IsAbsurd, Dominates};
ghost use Rattle.vipr_linear.specs.Constraint.{sense_of, condition_of, with_bound, SaysAsMuch};

use crate::row::Row;
use std::alloc::AllocError;
use vipr_frac::Frac;

/// How a row compares with its right-hand side.
#[derive(Clone, Copy, Debug, PartialEq, Eq)]
pub enum Sense {
    /// Equal.
    E,
    /// At most.
    L,
    /// At least.
    G,
}

/// A row, how it compares, and its right-hand side.
#[derive(Debug, Drop)]
pub struct Constraint {
    pub row: Row,
    pub rhs: Frac,
    pub sense: Sense,
}

impl Clone for Constraint {
    ghost use Rattle.std.specs.Prelude.{◌≡◌};

    ghost is_clone = { λ c copy. copy ≡ c };

    fn clone(&self) -> Result<Constraint, AllocError> {
        Ok(Constraint {
            row: self.row.clone()?,
            sense: self.sense,
            rhs: self.rhs,
        })
    }
}

impl Constraint {
    /// Whether it has no variable and is false.
    pub fn is_absurd(&self) -> bool
        ensures { IsTrue result ↔ IsAbsurd (condition_of self.now) }
    {
        self.is_absurd_with(self.rhs)
    }

    /// Whether it is absurd, or has the row of `other` and says as much.
    pub fn dominates(&self, other: &Constraint) -> bool
        ensures { IsTrue result ↔ Dominates (condition_of self.now) (condition_of other.now) }
    {
        self.dominates_with(self.rhs, other)
    }

    // Whether it would dominate `other` with this right-hand side.
    pub(crate) fn dominates_with(&self, rhs: Frac, other: &Constraint) -> bool
        ensures { IsTrue result ↔ Dominates (with_bound self.now rhs) (condition_of other.now) }
    {
        self.is_absurd_with(rhs) || self.says(rhs, other)
    }

    // Whether it would be absurd with this right-hand side.
    fn is_absurd_with(&self, rhs: Frac) -> bool
        ensures { IsTrue result ↔ IsAbsurd (with_bound self.now rhs) }
    {
        self.row.is_empty() && !compares(self.sense, Frac::zero(), rhs)
    }

    // Whether the rows are the same, and the sense and this right-hand side say as much.
    fn says(&self, rhs: Frac, other: &Constraint) -> bool
        ensures { IsTrue result ↔ SaysAsMuch (with_bound self.now rhs) (condition_of other.now) }
    {
        (self.sense == other.sense || self.sense == Sense::E)
            && compares(other.sense, rhs, other.rhs)
            && self.row.is_same(&other.row)
    }
}

/// Whether a value compares so with a right-hand side.
pub fn compares(sense: Sense, value: Frac, rhs: Frac) -> bool
    ensures { IsTrue result ↔ Compares (sense_of sense) value rhs }
{
    match sense {
        Sense::E => value == rhs,
        Sense::L => value <= rhs,
        Sense::G => value >= rhs,
    }
}
