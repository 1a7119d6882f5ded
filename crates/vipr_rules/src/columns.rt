//! The constraints of a problem by their variables, to test many short solutions.

ghost use Rattle.std.specs.Prelude.{◌≡◌, ◌≢◌, ◌↔◌, ◌⊎◌, ◌+◌, ◌<◌, ℕ, All, IsTrue, IsFalse};
ghost use Rattle.std.specs.Prelude.{IsOk, IfOk, IfSome, OnOk, List, length, slice_index_or};
ghost use Rattle.vipr_spec.specs.Constraint.{Constraint as Meant, Row as Entries, Point, at};
ghost use Rattle.vipr_spec.specs.Constraint.{Compares, NamesBelow, ValueFits};
ghost use Rattle.vipr_spec.specs.{Certificate.variables, Certificate.objective_at, Fraction.zero_ℚ};
ghost use Rattle.vipr_spec.specs.MoreEntries.{TermFits};
ghost use Rattle.vipr_linear.specs.Constraint.{sense_of, constraint_of};
ghost use Rattle.vipr_linear.specs.Accumulator.{with_term};
ghost use Rattle.vipr_rules.specs.Columns.{nth, given_of, AreColumns, IsPlace, ArePlaces, AreSums};
ghost use Rattle.vipr_rules.specs.Columns.{AreFalseAtZero, HasRow, IsColumnsOf};
ghost use Rattle.vipr_rules.specs.Solution.{PassesAll, tests_below};

use crate::bounds::Bounds;
use crate::coefficient::Coefficient;
use std::alloc::{AllocError, Global};
use vipr_cert::{Named, Problem};
use vipr_frac::{Frac, Overflow, Partial};
use vipr_linear::{Constraint, Places, Row, Sense, Solution, compares};

/// The constraints of a problem by their variables, with a place for the sum of each constraint. An
/// entry takes 16 bytes: it has its coefficient, but one that isn't short is looked up in the
/// problem. The constraints that have the objective's row are in no column: they bound the
/// objective's value.
#[derive(Debug, Drop)]
pub struct Columns {
    /// For each variable the constraints that name it, with its coefficients there.
    columns: Vec<Vec<(u32, Coefficient)>>,
    /// The constraints that are false if all variables are 0.
    false_at_zero: Vec<u32>,
    /// The sum of each constraint.
    sums: Places,
    /// The bounds of the objective's value by the constraints that have its row.
    bounds: Bounds,
}

impl Columns {
    /// The columns of a problem. There are none if a growth is refused.
    pub fn of(alloc: Global, problem: &Problem) -> Option<Columns>
        ensures { IfSome result (IsColumnsOf problem.now) }
    {
        Columns::columns_for(alloc, problem).ok()
    }

    fn columns_for(alloc: Global, problem: &Problem) -> Result<Columns, AllocError>
        ensures { IfOk result (IsColumnsOf problem.now) }
    {
        let cons = problem.cons();
        let objective = problem.objective();
        Ok(Columns {
            columns: columns_of(alloc, problem.names().len(), cons, objective)?,
            false_at_zero: false_at_zero(alloc, cons, objective)?,
            sums: Places::new(alloc, cons.len())?,
            bounds: Bounds::of(cons, objective),
        })
    }

    /// Whether it is found that a solution meets all constraints, if the objective has this
    /// value there. The columns of its variables alone are looked at. If a constraint's value
    /// doesn't fit, it isn't found.
    pub(crate) fn find_met(&mut self, problem: &Problem, solution: &Solution, value: Frac) -> bool
        requires columns { IsColumnsOf problem.now self.old }
        requires room { ValueFits (variables problem.now) (at problem.now.objective)
            (at solution.now.0) }
        requires value { value ≡ objective_at problem.now (at solution.now.0) }
        ensures met { IsTrue result
            → PassesAll problem.now solution.now.0 (tests_below (length problem.now.constraints)) }
        ensures columns { IsColumnsOf problem.now self.new }
    {
        if !self.bounds.admit(value) {
            return false;
        }
        let cons = problem.cons();
        let Columns {
            columns,
            false_at_zero,
            sums,
            ..
        } = self;
        let met = add_solution(cons, columns, solution, sums).is_ok()
            && are_nonzero(false_at_zero, sums.sums())
            && all_true(cons, sums);
        sums.reset();
        met
    }
}

// ---- building

fn columns_of(
    alloc: Global,
    variables: usize,
    cons: &[Named<Constraint>],
    objective: &Row,
) -> Result<Vec<Vec<(u32, Coefficient)>>, AllocError>
    requires names { All (λ n. NamesBelow variables (at n.item.row)) cons.now }
    requires room { length cons.now < 4294967296 }
    ensures columns { IfOk result
        (λ v. AreColumns objective.now (given_of cons.now) (length cons.now) v.items) }
    ensures variables { IfOk result (λ v. length v.items ≡ variables) }
{
    let counts = entry_counts(alloc, variables, cons, objective)?;
    let mut columns = empty_columns(alloc, &counts)?;
    for (index, named) in cons.iter().enumerate() {
        add_row(&mut columns, index as u32, &named.item.row, objective)?;
    }
    Ok(columns)
}

// How many entries each column will have.
fn entry_counts(
    alloc: Global,
    variables: usize,
    cons: &[Named<Constraint>],
    objective: &Row,
) -> Result<Vec<u32>, AllocError>
    ensures { IfOk result (λ v. length v.items ≡ variables) }
{
    let mut counts = vec![in alloc; 0; variables]?;
    for named in cons {
        if named.item.row.is_same(objective) {
            continue;
        }
        for (variable, _) in named.item.row.entries() {
            if let Some(count) = counts.get_mut(*variable as usize) {
                *count = u32::saturating_add(*count, 1);
            }
        }
    }
    Ok(counts)
}

// Empty columns with room for so many entries.
fn empty_columns(alloc: Global, counts: &[u32]) -> Result<Vec<Vec<(u32, Coefficient)>>, AllocError>
    ensures empty { IfOk result (λ v. (o : Entries) (cs : List Meant)
        → AreColumns o cs 0 v.items) }
    ensures variables { IfOk result (λ v. length v.items ≡ length counts.now) }
{
    let mut columns = Vec::with_capacity(alloc, counts.len())?;
    for count in counts {
        columns.push(Vec::with_capacity(alloc, *count as usize)?)?;
    }
    Ok(columns)
}

// Adds the entries of a constraint to the columns of their variables, but none if it has the
// objective's row.
fn add_row(
    columns: &mut [Vec<(u32, Coefficient)>],
    index: u32,
    row: &Row,
    objective: &Row,
) -> Result<(), AllocError>
    requires { NamesBelow (length columns.old) (at row.now) }
    ensures { (cs : List Meant) → (nth cs index).row ≡ row.now
        → AreColumns objective.now cs index columns.old
        → OnOk result (AreColumns objective.now cs (index + 1) columns.new) }
{
    if row.is_same(objective) {
        return Ok(());
    }
    for (place, entry) in row.entries().iter().enumerate() {
        columns[entry.0 as usize].push((index, Coefficient::of(entry.1, place as u32)))?;
    }
    Ok(())
}

fn false_at_zero(
    alloc: Global,
    cons: &[Named<Constraint>],
    objective: &Row,
) -> Result<Vec<u32>, AllocError>
    requires { length cons.now < 4294967296 }
    ensures { IfOk result
        (λ v. AreFalseAtZero objective.now (given_of cons.now) (length cons.now) v.items) }
{
    let mut indices = Vec::new(alloc);
    for (index, named) in cons.iter().enumerate() {
        if is_false_at_zero(&named.item, objective) {
            indices.push(index as u32)?;
        }
    }
    Ok(indices)
}

// Whether a constraint is false where all variables are 0, and hasn't the objective's row.
fn is_false_at_zero(constraint: &Constraint, objective: &Row) -> bool
    ensures { IsFalse result → HasRow objective.now (constraint_of constraint.now)
        ⊎ Compares (sense_of constraint.now.sense) zero_ℚ constraint.now.rhs }
{
    if compares(constraint.sense, Frac::zero(), constraint.rhs) {
        return false;
    }
    !constraint.row.is_same(objective)
}

// ---- summing

// Adds a solution to the sums, variable by variable.
fn add_solution(
    cons: &[Named<Constraint>],
    columns: &[Vec<(u32, Coefficient)>],
    solution: &Solution,
    sums: &mut Places,
) -> Result<(), Overflow>
    requires columns { (o : Entries) × AreColumns o (given_of cons.now) (length sums.old)
        columns.now }
    ensures sums { (o : Entries) → AreColumns o (given_of cons.now) (length sums.old) columns.now
        → AreSums o (given_of cons.now) (at solution.now.0) 0 sums.old
        → OnOk result (AreSums o (given_of cons.now) (at solution.now.0) (length columns.now)
        sums.new) }
    ensures constraints { length sums.new ≡ length sums.old }
{
    for (variable, coordinate) in solution.0.entries() {
        let Some(column) = columns.get(*variable as usize) else {
            return Ok(());
        };
        add_column(cons, column, *coordinate, sums)?;
    }
    Ok(())
}

// Adds the multiple of a column to the sums.
fn add_column(
    cons: &[Named<Constraint>],
    places: &[(u32, Coefficient)],
    coordinate: Frac,
    sums: &mut Places,
) -> Result<(), Overflow>
    requires places { (o : Entries) × (j : ℕ)
        × ArePlaces o (given_of cons.now) (length sums.old) j places.now }
    ensures sums { (o : Entries) (j : ℕ) (x : Point)
        → ArePlaces o (given_of cons.now) (length sums.old) j places.now → x j ≡ coordinate
        → AreSums o (given_of cons.now) x j sums.old
        → OnOk result (AreSums o (given_of cons.now) x (j + 1) sums.new) }
    ensures constraints { length sums.new ≡ length sums.old }
{
    for entry in places {
        add_entry(cons, entry, coordinate, sums)?;
    }
    Ok(())
}

// Adds the multiple of an entry of a column to the sum of its constraint.
fn add_entry(
    cons: &[Named<Constraint>],
    entry: &(u32, Coefficient),
    coordinate: Frac,
    sums: &mut Places,
) -> Result<(), Overflow>
    requires place { (j : ℕ) × IsPlace (given_of cons.now) (length sums.old) j entry.now }
    ensures fits { (j : ℕ) → IsPlace (given_of cons.now) (length sums.old) j entry.now
        → IsOk result → TermFits (slice_index_or sums.old entry.now.0 zero_ℚ)
        (at (nth (given_of cons.now) entry.now.0).row j) coordinate }
    ensures sum { (j : ℕ) → IsPlace (given_of cons.now) (length sums.old) j entry.now
        → OnOk result (sums.new ≡ with_term sums.old
        (at (nth (given_of cons.now) entry.now.0).row j) (entry.now.0, coordinate)) }
    ensures constraints { length sums.new ≡ length sums.old }
{
    let (index, coefficient) = entry;
    match coefficient {
        Coefficient::Short(short) => sums.add_product(*index, short.fraction(), coordinate),
        Coefficient::Listed(place) => add_listed(cons, *index, *place, coordinate, sums),
    }
}

// Adds the multiple of the entry at this place of a constraint to its sum.
#[inline(never)]
fn add_listed(
    cons: &[Named<Constraint>],
    index: u32,
    place: u32,
    coordinate: Frac,
    sums: &mut Places,
) -> Result<(), Overflow>
    requires place { (j : ℕ) × IsPlace (given_of cons.now) (length sums.old) j
        (index, Coefficient.Listed place) }
    ensures fits { (j : ℕ)
        → IsPlace (given_of cons.now) (length sums.old) j (index, Coefficient.Listed place)
        → IsOk result → TermFits (slice_index_or sums.old index zero_ℚ)
        (at (nth (given_of cons.now) index).row j) coordinate }
    ensures sum { (j : ℕ)
        → IsPlace (given_of cons.now) (length sums.old) j (index, Coefficient.Listed place)
        → OnOk result (sums.new ≡ with_term sums.old
        (at (nth (given_of cons.now) index).row j) (index, coordinate)) }
    ensures constraints { length sums.new ≡ length sums.old }
{
    let coefficient = cons[index as usize].item.row.entries()[place as usize].1;
    sums.add_product(index, coefficient, coordinate)
}

// ---- testing

// Whether the sum of none of these constraints is 0.
fn are_nonzero(indices: &[u32], sums: &[Partial]) -> bool
    requires { All (λ i. i < length sums.now) indices.now }
    ensures { IsTrue result → All (λ i. slice_index_or sums.now i zero_ℚ ≢ zero_ℚ) indices.now }
{
    for index in indices {
        if sums[*index as usize].is_zero() {
            return false;
        }
    }
    true
}

// Whether each constraint whose sum isn't 0 is true.
fn all_true(cons: &[Named<Constraint>], sums: &Places) -> bool
    requires { length sums.now ≡ length cons.now }
    ensures { IsTrue result → (i : ℕ) → slice_index_or sums.now i zero_ℚ ≢ zero_ℚ
        → Compares (nth (given_of cons.now) i).sense (slice_index_or sums.now i zero_ℚ)
        (nth (given_of cons.now) i).bound }
{
    for index in sums.touched() {
        if !is_true(&cons[*index as usize].item, &sums.sums()[*index as usize]) {
            return false;
        }
    }
    true
}

// Whether a constraint is true where its row has this value.
fn is_true(constraint: &Constraint, sum: &Partial) -> bool
    ensures { IsTrue result
        ↔ Compares (sense_of constraint.now.sense) sum.now constraint.now.rhs }
{
    match constraint.sense {
        Sense::E => sum.is(constraint.rhs),
        Sense::L => sum.is_at_most(constraint.rhs),
        Sense::G => sum.is_at_least(constraint.rhs),
    }
}
