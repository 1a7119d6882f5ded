//! Splits: two constraints of which each point that is whole at the integer variables meets one.
ghost use Rattle.std.specs.Prelude.{◌≡◌, ◌↔◌, ◌≤◌, ℤ, pos, ◌+ℤ◌, ◌≤ℤ◌, unsigned_abs, IsTrue};
ghost use Rattle.vipr_spec.specs.Fraction.{most, whole};
ghost use Rattle.vipr_spec.specs.Constraint.{one, two, IsCut, IsSplit, LeavesNone};
ghost use Rattle.vipr_linear.specs.{Constraint.condition_of, Split.BoundsBothSides};

use crate::constraint::{Constraint, Sense};
use crate::ints::Ints;
use crate::rounding::is_whole_row;
use vipr_frac::Frac;

/// Whether one of the constraints is at most k, the other at least k + 1, for the same whole row
/// over integer variables and a whole k.
pub fn is_split(a: &Constraint, b: &Constraint, ints: &Ints) -> bool
    ensures { IsTrue result ↔ IsSplit one ints.now (condition_of a.now) (condition_of b.now) }
{
    is_cut(a, b, ints) || is_cut(b, a, ints)
}

/// Whether one of the constraints is at most k, the other at least h, for the same whole row over
/// integer variables, and no whole number is above k and below h.
pub fn covers(a: &Constraint, b: &Constraint, ints: &Ints) -> bool
    ensures { IsTrue result ↔ IsSplit two ints.now (condition_of a.now) (condition_of b.now) }
{
    is_cover(a, b, ints) || is_cover(b, a, ints)
}

fn is_cut(low: &Constraint, high: &Constraint, ints: &Ints) -> bool
    ensures { IsTrue result ↔ IsCut one ints.now (condition_of low.now) (condition_of high.now) }
{
    is_next(low.rhs, high.rhs) && bound_both_sides(low, high, ints)
}

fn is_cover(low: &Constraint, high: &Constraint, ints: &Ints) -> bool
    ensures { IsTrue result ↔ IsCut two ints.now (condition_of low.now) (condition_of high.now) }
{
    leaves_none(low.rhs, high.rhs) && bound_both_sides(low, high, ints)
}

// Whether they bound the same whole row over integer variables, the first from above and the second
// from below.
fn bound_both_sides(low: &Constraint, high: &Constraint, ints: &Ints) -> bool
    ensures { IsTrue result
        ↔ BoundsBothSides ints.now (condition_of low.now) (condition_of high.now) }
{
    low.sense == Sense::L
        && high.sense == Sense::G
        && low.row.is_same(&high.row)
        && is_whole_row(&low.row, ints)
}

// Whether both are whole, and the second is one more.
fn is_next(low: Frac, high: Frac) -> bool
    ensures { IsTrue result ↔ ((k : ℤ) × (low ≡ whole k) × (high ≡ whole (k +ℤ pos 1))) }
{
    low.is_whole() && high.is_whole() && is_one_more(low.numer(), high.numer())
}

fn is_one_more(low: i128, high: i128) -> bool
    requires { unsigned_abs high ≤ most }
    ensures { IsTrue result ↔ (high ≡ low +ℤ pos 1) }
{
    high - 1 == low
}

// Whether no whole number is above the first and below the second.
fn leaves_none(low: Frac, high: Frac) -> bool
    ensures { IsTrue result ↔ LeavesNone two low high }
{
    is_at_most_one_more(low.floor(), high.ceil())
}

fn is_at_most_one_more(low: i128, high: i128) -> bool
    requires { unsigned_abs high ≤ most }
    ensures { IsTrue result ↔ (high ≤ℤ (low +ℤ pos 1)) }
{
    high - 1 <= low
}
