//! The test of a listed solution.
//!
//! A listed solution has to be whole at the integer variables and to meet each constraint, and the
//! values that are computed at it have to be within the bound. [`test_solution`] tests row by row,
//! and gives the objective's value. [`test_solution_by_columns`] gives the same answer over the
//! [`Columns`] of the problem, in less time if the solution lists few of many variables.

ghost use Rattle.std.specs.Prelude.{◌≡◌, ◌↔◌, ◌<◌, ℕ, length, map, None, IsOk, IfOk, MatchResult};
ghost use Rattle.vipr_spec.specs.Constraint.{Row as Entries, Point, at, IsInteger, NamesBelow};
ghost use Rattle.vipr_spec.specs.Constraint.{value, ValueFits};
ghost use Rattle.vipr_spec.specs.Certificate.{Problem as Meant, variables, integer_variables};
ghost use Rattle.vipr_spec.specs.Certificate.{objective_at};
ghost use Rattle.vipr_spec.specs.Steps.{FirstFailing};
ghost use Rattle.vipr_spec.specs.Tests.{PassesSolution, whole_at, given_at, solution_tests};
ghost use Rattle.vipr_linear.specs.{Constraint.constraint_of, Values.IsLaidOut};
ghost use Rattle.vipr_rules.specs.Columns.{IsColumnsOf};
ghost use Rattle.vipr_rules.specs.Solution.{PassesAll, FailsBy, IsValueOf, tests_at, tests_below};

use crate::columns::Columns;
use vipr_cert::Problem;
use vipr_frac::{Frac, Overflow, Partial};
use vipr_linear::{
    Combination, Constraint, Ints, Row, Sense, Solution, compares, first_fractional,
};

/// Why a listed solution is refused, with what there is to show of it.
#[derive(Clone, Copy, Debug, PartialEq, Eq)]
pub enum SolutionError {
    /// An integer variable isn't whole.
    NotWhole {
        /// The variable, the least of those that aren't whole.
        variable: u32,
        /// Its value.
        value: Frac,
    },
    /// A constraint is false there.
    Breaks {
        /// Its index, the least of those that are false.
        constraint: u32,
        /// The value of its row.
        left: Frac,
        /// How that has to compare with its right-hand side.
        sense: Sense,
        /// Its right-hand side.
        right: Frac,
    },
    /// A product or a partial sum of this constraint, or of the objective, is out of bound.
    Overflow(Option<u32>),
}

/// Tests a listed solution, and gives the objective's value there. It lays the solution out in the
/// scratch, so that each entry of the solution and of the constraints is looked at once. Those of
/// the objective are looked at once also if many constraints have its row. The integer variables
/// are tested first, in rising order, then the constraints in their order, and last whether the
/// objective's value fits.
///
/// # Errors
///
/// The first test that fails gives the error:
///
/// - `NotWhole` with the integer variable and its value;
/// - `Overflow` with the index of a constraint whose value doesn't fit, or with `None` if the
///   objective's doesn't;
/// - `Breaks` with the index of a constraint that is false, and with both its sides.
pub fn test_solution(
    p: &Problem,
    scratch: &mut Combination,
    solution: &Solution,
) -> Result<Frac, SolutionError>
    requires variables { length scratch.old.sums ≡ variables p.now }
    ensures tested { MatchResult result
        (λ v. FirstFailing (PassesSolution p.now solution.now.0) (solution_tests p.now) None
        × (v ≡ objective_at p.now (at solution.now.0)))
        (FailsBy p.now solution.now.0 (solution_tests p.now)) }
    ensures variables { length scratch.new.sums ≡ length scratch.old.sums }
{
    let objective = p.objective();
    test_integers(p.ints(), solution)?;
    scratch.lay_out(solution);
    let value = laid_value(objective, scratch);
    test_constraints(p, scratch, &value)?;
    match &value {
        Some(value) => Ok(*value),
        None => Err(SolutionError::Overflow(None)),
    }
}

/// Tests a listed solution by columns: only at its variables and the entries of their columns.
/// If it isn't found so that all constraints are met, they are tested one after the other.
///
/// # Errors
///
/// As of `test_solution`.
pub fn test_solution_by_columns(
    p: &Problem,
    columns: &mut Columns,
    scratch: &mut Combination,
    solution: &Solution,
) -> Result<Frac, SolutionError>
    requires columns { IsColumnsOf p.now columns.old }
    requires variables { length scratch.old.sums ≡ variables p.now }
    ensures tested { MatchResult result
        (λ v. FirstFailing (PassesSolution p.now solution.now.0) (solution_tests p.now) None
        × (v ≡ objective_at p.now (at solution.now.0)))
        (FailsBy p.now solution.now.0 (solution_tests p.now)) }
    ensures columns { IsColumnsOf p.now columns.new }
    ensures variables { length scratch.new.sums ≡ length scratch.old.sums }
{
    let objective = p.objective();
    test_integers(p.ints(), solution)?;
    let Ok(value) = listed_value(objective, solution) else {
        return test_solution(p, scratch, solution);
    };
    if !columns.find_met(p, solution, value) {
        return test_solution(p, scratch, solution);
    }
    Ok(value)
}

// The value of a row at a solution, summed over the solution's variables in rising order.
fn listed_value(row: &Row, solution: &Solution) -> Result<Frac, Overflow>
    ensures fits { (n : ℕ) → NamesBelow n (at row.now)
        → IsOk result ↔ ValueFits n (at row.now) (at solution.now.0) }
    ensures value { (n : ℕ) → NamesBelow n (at row.now)
        → IfOk result (λ v. v ≡ value n (at row.now) (at solution.now.0)) }
{
    let mut value = Partial::zero();
    for (variable, coordinate) in solution.0.entries() {
        value.add_product(row.coefficient(*variable), *coordinate)?;
    }
    Ok(value.value())
}

// Tests whether the coordinates of the integer variables are whole.
fn test_integers(ints: &Ints, solution: &Solution) -> Result<(), SolutionError>
    ensures { (p : Meant) → p.integers ≡ ints.now
        → ((j : ℕ) → IsInteger p.integers j → j < variables p) → MatchResult result
        (λ _. PassesAll p solution.now.0 (map whole_at (integer_variables p)))
        (FailsBy p solution.now.0 (map whole_at (integer_variables p))) }
{
    match first_fractional(solution, ints) {
        Some(entry) => Err(SolutionError::NotWhole {
            variable: entry.0,
            value: entry.1,
        }),
        None => Ok(()),
    }
}

// The value of a row at the solution that is laid out, none where it doesn't fit.
fn laid_value(row: &Row, point: &Combination) -> Option<Frac>
    ensures { (n : ℕ) (x : Point) → IsLaidOut n x point.now.sums → NamesBelow n (at row.now)
        → IsValueOf n (at row.now) x result }
{
    match point.value_of(row) {
        Ok(value) => Some(value),
        Err(_) => None,
    }
}

// The value of a row at the solution that is laid out, where the objective has this value, or none
// that fits.
fn value_beside(
    row: &Row,
    objective: &Row,
    value: &Option<Frac>,
    point: &Combination,
) -> Option<Frac>
    ensures { (n : ℕ) (x : Point) → IsLaidOut n x point.now.sums → NamesBelow n (at row.now)
        → IsValueOf n (at objective.now) x value.now → IsValueOf n (at row.now) x result }
{
    if row.is_same(objective) {
        return *value;
    }
    laid_value(row, point)
}

// Tests all constraints in their order, at the solution that is laid out, where the objective has
// this value, or none that fits.
fn test_constraints(
    p: &Problem,
    point: &Combination,
    value: &Option<Frac>,
) -> Result<(), SolutionError>
    ensures { (s : Entries) → IsLaidOut (variables p.now) (at s) point.now.sums
        → IsValueOf (variables p.now) (at p.now.objective) (at s) value.now → MatchResult result
        (λ _. PassesAll p.now s (tests_below (length p.now.constraints)))
        (FailsBy p.now s (tests_below (length p.now.constraints))) }
{
    let objective = p.objective();
    for (i, named) in p.cons().iter().enumerate() {
        let row_value = value_beside(&named.item.row, objective, value, point);
        test_constraint(i as u32, &named.item, row_value)?;
    }
    Ok(())
}

// Tests the constraint with this index, whose row has this value: it fits, and the constraint is
// true.
fn test_constraint(
    index: u32,
    constraint: &Constraint,
    value: Option<Frac>,
) -> Result<(), SolutionError>
    ensures { (p : Meant) (s : Entries) → given_at p index ≡ constraint_of constraint.now
        → IsValueOf (variables p) (at constraint.now.row) (at s) value
        → MatchResult result (λ _. PassesAll p s (tests_at index))
        (FailsBy p s (tests_at index)) }
{
    let Some(left) = value else {
        return Err(SolutionError::Overflow(Some(index)));
    };
    if compares(constraint.sense, left, constraint.rhs) {
        return Ok(());
    }
    Err(SolutionError::Breaks {
        constraint: index,
        left,
        sense: constraint.sense,
        right: constraint.rhs,
    })
}
