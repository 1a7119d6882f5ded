//! The constraints that have the objective's row, as bounds of the objective's value.

ghost use Rattle.std.specs.Prelude.{◌↔◌, IsTrue, length};
ghost use Rattle.vipr_spec.specs.{Constraint.Compares, Fraction.ℚ, Fraction.◌≤ℚ◌};
ghost use Rattle.vipr_linear.specs.Constraint.{sense_of, constraint_of};
ghost use Rattle.vipr_rules.specs.Columns.{given_of, HasRow, IsFrom, IsUpTo, LiesWithin, AreBounds};

use vipr_cert::Named;
use vipr_frac::Frac;
use vipr_linear::{Constraint, Row, Sense};

/// The tightest bounds of the objective's value by those constraints that have its row.
#[derive(Clone, Copy, Debug)]
pub(crate) struct Bounds {
    /// The largest right-hand side that the value must reach.
    least: Option<Frac>,
    /// The smallest right-hand side that the value must not exceed.
    most: Option<Frac>,
}

impl Bounds {
    /// The bounds by all constraints that have the objective's row.
    pub(crate) fn of(cons: &[Named<Constraint>], objective: &Row) -> Bounds
        ensures { AreBounds objective.now (given_of cons.now) (length cons.now) result }
    {
        let mut bounds = Bounds {
            least: None,
            most: None,
        };
        for named in cons {
            bounds = bounds.with(&named.item, objective);
        }
        bounds
    }

    // The bounds with that of one more constraint, if it has the objective's row.
    fn with(self, constraint: &Constraint, objective: &Row) -> Bounds
        ensures { (v : ℚ) → LiesWithin result v ↔ (LiesWithin self v
            × (HasRow objective.now (constraint_of constraint.now)
            → Compares (sense_of constraint.now.sense) v constraint.now.rhs)) }
    {
        if !constraint.row.is_same(objective) {
            return self;
        }
        self.narrowed(constraint.sense, constraint.rhs)
    }

    // The bounds with one more.
    fn narrowed(self, sense: Sense, rhs: Frac) -> Bounds
        ensures { (v : ℚ) → LiesWithin result v
            ↔ (LiesWithin self v × Compares (sense_of sense) v rhs) }
    {
        match sense {
            Sense::E => Bounds {
                least: larger(self.least, rhs),
                most: smaller(self.most, rhs),
            },
            Sense::L => Bounds {
                least: self.least,
                most: smaller(self.most, rhs),
            },
            Sense::G => Bounds {
                least: larger(self.least, rhs),
                most: self.most,
            },
        }
    }

    /// Whether a value is within the bounds.
    pub(crate) fn admit(self, value: Frac) -> bool
        ensures { IsTrue result ↔ LiesWithin self value }
    {
        is_from(self.least, value) && is_up_to(self.most, value)
    }
}

// The larger one of two lower bounds.
fn larger(least: Option<Frac>, bound: Frac) -> Option<Frac>
    ensures { (v : ℚ) → IsFrom result v ↔ (IsFrom least v × (bound ≤ℚ v)) }
{
    match least {
        Some(other) => Some(other.max(bound)),
        None => Some(bound),
    }
}

// The smaller one of two upper bounds.
fn smaller(most: Option<Frac>, bound: Frac) -> Option<Frac>
    ensures { (v : ℚ) → IsUpTo result v ↔ (IsUpTo most v × (v ≤ℚ bound)) }
{
    match most {
        Some(other) => Some(other.min(bound)),
        None => Some(bound),
    }
}

// Whether a value reaches the lower bound, if there is one.
fn is_from(least: Option<Frac>, value: Frac) -> bool
    ensures { IsTrue result ↔ IsFrom least value }
{
    match least {
        Some(least) => value >= least,
        None => true,
    }
}

// Whether a value doesn't exceed the upper bound, if there is one.
fn is_up_to(most: Option<Frac>, value: Frac) -> bool
    ensures { IsTrue result ↔ IsUpTo most value }
{
    match most {
        Some(most) => value <= most,
        None => true,
    }
}
