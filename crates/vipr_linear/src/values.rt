//! Values of rows at solutions, and which constraints are true there.
ghost use Rattle.std.specs.Prelude.{◌≡◌, ◌↔◌, ℕ, IsTrue, IsOk, IfOk, MatchOption};
ghost use Rattle.std.specs.FinMap.{entries};
ghost use Rattle.vipr_spec.specs.Fraction.{zero_ℚ};
ghost use Rattle.vipr_spec.specs.Constraint.{at, value, ValueFits, IsTrueAt, NamesBelow};
ghost use Rattle.vipr_linear.specs.Values.{with_values, ValuesFit, point_of, AreWhole};
ghost use Rattle.vipr_linear.specs.Values.{IsFirstFractional};
ghost use Rattle.vipr_linear.specs.{Constraint.condition_of, Row.RisesFrom};

use crate::constraint::{Constraint, compares};
use crate::ints::Ints;
use crate::row::{Row, Solution};
use vipr_frac::{Frac, Overflow, Partial};

/// The value of a row at a solution, summed over the row's variables in rising order.
pub fn value_at(row: &Row, solution: &Solution) -> Result<Frac, Overflow>
    ensures fits { (n : ℕ) → NamesBelow n (at row.now)
        → IsOk result ↔ ValueFits n (at row.now) (at solution.now.0) }
    ensures value { (n : ℕ) → NamesBelow n (at row.now)
        → IfOk result (λ v. v ≡ value n (at row.now) (at solution.now.0)) }
{
    sum_of_values(row, solution)
}

fn sum_of_values(row: &Row, solution: &Solution) -> Result<Frac, Overflow>
    ensures fits { IsOk result ↔ ValuesFit zero_ℚ (entries row.now) (at solution.now.0) }
    ensures value { IfOk result
        (λ v. v ≡ with_values zero_ℚ (entries row.now) (at solution.now.0)) }
    ensures rising { RisesFrom 0 (entries row.now) }
{
    let mut value = Frac::zero();
    for (variable, coefficient) in row.entries() {
        let product = coefficient.mul(solution.0.coefficient(*variable))?;
        value = value.add(product)?;
    }
    Ok(value)
}

/// Whether a constraint is true at a solution.
pub fn holds_at(constraint: &Constraint, solution: &Solution) -> Result<bool, Overflow>
    ensures fits { (n : ℕ) → NamesBelow n (at constraint.now.row)
        → IsOk result ↔ ValueFits n (at constraint.now.row) (at solution.now.0) }
    ensures truth { (n : ℕ) → NamesBelow n (at constraint.now.row) → IfOk result
        (λ holds. IsTrue holds ↔ IsTrueAt n (condition_of constraint.now) (at solution.now.0)) }
{
    let value = value_at(&constraint.row, solution)?;
    Ok(compares(constraint.sense, value, constraint.rhs))
}

/// The least integer variable at which a solution isn't whole, with its coordinate there, if there
/// is one. It looks at the listed coordinates alone.
pub fn first_fractional(solution: &Solution, ints: &Ints) -> Option<(u32, Frac)>
    ensures { MatchOption result (AreWhole ints.now solution.now.0)
        (IsFirstFractional ints.now solution.now.0) }
{
    for (variable, coordinate) in solution.0.entries() {
        if !coordinate.is_whole() && ints.contains(*variable) {
            return Some((*variable, *coordinate));
        }
    }
    None
}

// The coordinate that a place holds, 0 past the last.
fn coordinate(places: &[Partial], variable: u32) -> Frac
    ensures { result ≡ point_of places.now variable }
{
    match places.get(variable as usize) {
        Some(place) => place.value(),
        None => Frac::zero(),
    }
}

/// The value of a row at the point whose coordinates are in places, summed over the row's
/// variables in rising order.
pub(crate) fn value_in(row: &Row, places: &[Partial]) -> Result<Frac, Overflow>
    ensures fits { IsOk result ↔ ValuesFit zero_ℚ (entries row.now) (point_of places.now) }
    ensures value { IfOk result
        (λ v. v ≡ with_values zero_ℚ (entries row.now) (point_of places.now)) }
    ensures rising { RisesFrom 0 (entries row.now) }
{
    let mut value = Frac::zero();
    for (variable, coefficient) in row.entries() {
        let product = coefficient.mul(coordinate(places, *variable))?;
        value = value.add(product)?;
    }
    Ok(value)
}
