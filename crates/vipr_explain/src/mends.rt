//! Changes of a listed solution with which all constraints hold. Each was tried.

use crate::algebra::VariableName;
use crate::by_name::sorted_by_name;
use crate::doubles::exact_for;
use crate::items::read_solution;
use crate::page::Page;
use crate::slips::{ONE_LESS, ONE_MORE};
use crate::sought::inverse;
use crate::text::{Reread, Subject};
use std::alloc::{AllocError, Global};
use std::mem::replace;
use vipr_cert::{Claim, Named, Problem};
use vipr_check::Detail;
use vipr_frac::{Frac, Overflow};
use vipr_linear::{
    Ints, Row, RowError, Sense, Solution, compares, first_fractional, holds_at, value_at,
};
use vipr_rules::claimed_primal;

/// How many terms of rows are added up at a solution, if a quarter of the text's bytes isn't more.
const MOST_TERMS: usize = 5_000;

/// How many rows are tried at changed solutions, if a part of the text's bytes isn't more.
const MOST_TRIED: usize = 1_000;

// Kinds of changes, the likeliest first. The last two have a number that is chosen so that it fits.
const SHIFT: u32 = 0;

const BY_NAME: u32 = 1;

const SIGN: u32 = 2;

const MOVE: u32 = 3;

const EXCHANGE: u32 = 4;

const EXACT: u32 = 5;

const LEFT_OUT: u32 = 6;

const OTHER: u32 = 7;

/// What a kind is ranked behind for with which the objective isn't the primal bound.
const MISSES_BOUND: u32 = 100;

/// The index of no variable: there are fewer.
const NO_VARIABLE: u32 = u32::MAX;

/// A change of a listed solution.
#[derive(Clone, Copy)]
enum PointChange {
    /// Each index is so much more, modulo 2^32.
    Shift(u32),
    /// Variables are counted in the order of their names.
    ByName,
    /// Each value that is likely to be rounded is a fraction near it. This is the first one.
    Exact(Frac),
    /// A variable has another value.
    Value(u32, Frac),
    /// The value of the first variable is at the second one, which is 0 now.
    Move(u32, u32),
    /// Two variables have the values of each other.
    Exchange(u32, u32),
}

/// What the value of a variable changes by.
type Gain = (u32, Frac);

/// A change with which all constraints hold, and the objective with it.
#[derive(Clone, Copy)]
struct PointMend {
    change: PointChange,
    objective: Frac,
}

/// Changes with which all constraints hold, the likeliest first, with what each is ranked by.
#[derive(Clone, Copy)]
pub(crate) struct PointMends {
    found: [(u32, Option<PointMend>); 2],
    /// The primal bound that is claimed.
    primal: Option<Frac>,
}

/// A listed solution with changes with which it attains the primal bound.
#[derive(Drop)]
pub(crate) struct MendedPoint {
    problem: Problem,
    solution: Named<Solution>,
    mends: PointMends,
}

/// A row of a problem.
#[derive(Clone, Copy)]
enum RowPlace {
    Constraint(u32),
    Objective,
}

/// What is wrong with a solution: a row whose value has to compare so with a number, or without one
/// the value of a variable.
#[derive(Clone, Copy)]
struct PointFault {
    row: Option<RowPlace>,
    sense: Sense,
    side: Frac,
    variable: u32,
}

/// A search for changes of a listed solution.
#[derive(Drop)]
struct PointSearch<'a, 'b> {
    problem: &'a Problem,
    values: &'b Row,
    /// The value of each constraint's row at it, and that of the objective.
    lefts: Vec<Frac>,
    objective: Frac,
    fault: PointFault,
    /// The value of the row at fault.
    left: Frac,
    /// How many values of integer variables aren't whole.
    fractional: usize,
    /// How many rows may still be tried.
    tries: usize,
    mends: PointMends,
}

impl PointMends {
    // None.
    fn none() -> PointMends {
        PointMends {
            found: [(u32::MAX, None); 2],
            primal: None,
        }
    }

    /// Finds them for a solution that is refused so.
    pub(crate) fn find(
        subject: Subject<'_>,
        problem: &Problem,
        solution: &Solution,
        detail: &Detail,
    ) -> Reread<PointMends> {
        let fault = match detail {
            Detail::NotWhole { variable, .. } => PointFault {
                row: None,
                sense: Sense::E,
                side: Frac::zero(),
                variable: *variable,
            },
            Detail::Breaks {
                constraint,
                sense,
                right,
                ..
            } => PointFault::of_row(RowPlace::Constraint(*constraint), *sense, *right),
            _ => return Ok(PointMends::none()),
        };
        Ok(find_for(subject, problem, solution, fault)?)
    }

    /// Whether with one the objective is the primal bound that is claimed.
    pub(crate) fn attain(&self) -> bool {
        self.found[0].0 < MISSES_BOUND
    }

    // Keeps one at its place. A number that is chosen says little if the objective misses the
    // bound.
    fn add(&mut self, kind: u32, change: PointChange, objective: Frac) {
        let attains = self.primal == Some(objective);
        if kind >= LEFT_OUT && !attains && self.primal.is_some() {
            return;
        }
        let rank = if attains {
            kind
        } else {
            kind.saturating_add(MISSES_BOUND)
        };
        let mut kept = (rank, Some(PointMend { change, objective }));
        for place in 0..2 {
            if kept.0 < self.found[place].0 {
                kept = replace(&mut self.found[place], kept);
            }
        }
    }

    /// Writes a line of each, but of none that misses the bound if another one doesn't.
    pub(crate) fn write(&self, page: &mut Page, problem: &Problem, values: &Row) {
        for found in &self.found {
            if let Some(mend) = found.1 {
                if found.0 < MISSES_BOUND || !self.attain() {
                    page.put("  = help: with ");
                    mend.change.write(page, problem, values);
                    page.put(" all constraints hold");
                    self.write_objective(page, problem, mend.objective);
                    mend.change.write_question(page);
                    page.put("\n");
                }
            }
        }
    }

    // Writes what the objective is.
    fn write_objective(&self, page: &mut Page, problem: &Problem, objective: Frac) {
        if self.primal == Some(objective) {
            write!(page, ", and the objective is {objective}, the primal bound");
        } else if !problem.objective().is_empty() {
            write!(page, ", and the objective is {objective}");
        }
    }
}

impl PointChange {
    // Writes it.
    fn write(&self, page: &mut Page, problem: &Problem, values: &Row) {
        match *self {
            PointChange::Shift(by) => {
                let way = if by == ONE_LESS { "less" } else { "more" };
                write!(page, "each index of the solution 1 {way}");
            }
            PointChange::ByName => {
                page.put("the variables of the solution counted in the order of their names");
            }
            PointChange::Exact(present) => {
                let meant = exact_for(present).unwrap_or(present);
                write!(
                    page,
                    "{meant} for {present}, and such a fraction for each rounded value,"
                );
            }
            PointChange::Value(variable, value) => {
                let name = VariableName(problem, variable);
                let present = values.coefficient(variable);
                write!(page, "{value} in place of {present} ");
                write!(page, "at {name} (variable {variable})");
            }
            PointChange::Move(from, to) => {
                let value = values.coefficient(from);
                let (name, other) = (VariableName(problem, to), VariableName(problem, from));
                write!(page, "{value} at {name} (variable {to}) ");
                write!(page, "in place of {other} (variable {from})");
            }
            PointChange::Exchange(one, another) => {
                let (name, other) = (VariableName(problem, one), VariableName(problem, another));
                write!(page, "the values of {name} and {other} exchanged");
            }
        }
    }

    // Asks what it may come from.
    fn write_question(&self, page: &mut Page) {
        match *self {
            PointChange::Shift(ONE_LESS) => page.put(": do its indices count from 1?"),
            PointChange::ByName => page.put(": is it in that order, and not in VAR's?"),
            _ => {}
        }
    }
}

impl MendedPoint {
    /// Reads the listed solution of this number, and finds changes of it with which the objective
    /// is the primal bound.
    pub(crate) fn find(subject: Subject<'_>, number: u32, bound: Frac) -> Reread<MendedPoint> {
        let (problem, solution) = read_solution(subject.alloc, subject.text, number)?;
        let fault = PointFault::of_row(RowPlace::Objective, Sense::E, bound);
        match find_for(subject, &problem, &solution.item, fault) {
            Ok(mends) => Ok(MendedPoint {
                problem,
                solution,
                mends,
            }),
            Err(error) => {
                drop(solution);
                drop(problem);
                Err(error.into())
            }
        }
    }

    /// Writes a line of each.
    pub(crate) fn write(&self, page: &mut Page) {
        self.mends.write(page, &self.problem, &self.solution.item.0);
    }
}

// Finds changes with which what is wrong with a solution isn't, and all constraints hold; none if
// infeasibility is claimed.
fn find_for(
    subject: Subject<'_>,
    problem: &Problem,
    solution: &Solution,
    fault: PointFault,
) -> Result<PointMends, AllocError> {
    if claims_infeasibility(problem.claim()) {
        return Ok(PointMends::none());
    }
    let most = MOST_TERMS.max(subject.text.len() / 4);
    let Some(lefts) = lefts_at(subject.alloc, problem, solution, most)? else {
        return Ok(PointMends::none());
    };
    let values = (
        value_at(problem.objective(), solution),
        fault.left_at(problem, solution),
    );
    let (Ok(objective), Ok(left)) = values else {
        drop(lefts);
        return Ok(PointMends::none());
    };
    let mut mends = PointMends::none();
    // (without an objective each solution attains 0)
    if !problem.objective().is_empty() {
        mends.primal = claimed_primal(problem);
    }
    let mut search = PointSearch {
        problem,
        values: &solution.0,
        lefts,
        objective,
        fault,
        left,
        fractional: fractional_in(&solution.0, problem.ints()),
        tries: MOST_TRIED.max(subject.text.len() / 64),
        mends,
    };
    let tried = search.try_all(subject);
    let mends = search.mends;
    drop(search);
    tried?;
    Ok(mends)
}

fn claims_infeasibility(claim: Claim) -> bool {
    matches!(claim, Claim::Infeas)
}

// The value of each constraint's row at a solution, none if they have more terms than these, or
// one is past the limit.
fn lefts_at(
    alloc: Global,
    problem: &Problem,
    solution: &Solution,
    most: usize,
) -> Result<Option<Vec<Frac>>, AllocError> {
    let mut lefts = Vec::new(alloc);
    let mut terms = problem.objective().entries().len();
    for named in problem.cons() {
        let row = &named.item.row;
        terms = terms.saturating_add(row.entries().len());
        if terms > most {
            return Ok(None);
        }
        match value_at(row, solution) {
            Ok(left) => lefts.push(left)?,
            Err(_) => return Ok(None),
        }
    }
    Ok(Some(lefts))
}

impl PointFault {
    // The value of a row.
    fn of_row(row: RowPlace, sense: Sense, side: Frac) -> PointFault {
        PointFault {
            row: Some(row),
            sense,
            side,
            variable: NO_VARIABLE,
        }
    }

    // The row at fault, if there is one.
    fn row_of<'a>(&self, problem: &'a Problem) -> Option<&'a Row> {
        match self.row? {
            RowPlace::Constraint(index) => Some(&problem.cons().get(index as usize)?.item.row),
            RowPlace::Objective => Some(problem.objective()),
        }
    }

    // The value of the row at fault at a solution, 0 if it is no row.
    fn left_at(&self, problem: &Problem, solution: &Solution) -> Result<Frac, Overflow> {
        match self.row_of(problem) {
            Some(row) => value_at(row, solution),
            None => Ok(Frac::zero()),
        }
    }
}

impl PointSearch<'_, '_> {
    // Tries changes of each kind.
    fn try_all(&mut self, subject: Subject<'_>) -> Result<(), AllocError> {
        let alloc = subject.alloc;
        if self.values.entries().len() > 1 {
            self.try_whole(alloc, SHIFT, PointChange::Shift(ONE_LESS), &[])?;
            self.try_whole(alloc, SHIFT, PointChange::Shift(ONE_MORE), &[])?;
            if let Some(order) = sorted_by_name(subject, self.problem)? {
                self.try_whole(alloc, BY_NAME, PointChange::ByName, order.as_slice())?;
            }
        }
        if let Some(present) = first_rounded(self.values) {
            self.try_whole(alloc, EXACT, PointChange::Exact(present), &[])?;
        }
        match self.fault.row_of(self.problem) {
            Some(row) => {
                for entry in row.entries() {
                    if self.tries == 0 {
                        break;
                    }
                    self.try_sign(entry.0);
                    self.try_moves(entry.0);
                    self.try_fitting(*entry);
                }
                for entry in row.entries() {
                    if self.tries == 0 {
                        break;
                    }
                    self.try_exchanges(entry.0);
                }
            }
            None => {
                let variable = self.fault.variable;
                self.try_moves(variable);
                self.try_exchanges(variable);
                self.try_nearest(variable);
            }
        }
        Ok(())
    }

    // Tries a change of all values, with the variables in the order of their names.
    fn try_whole(
        &mut self,
        alloc: Global,
        kind: u32,
        change: PointChange,
        order: &[u32],
    ) -> Result<(), AllocError> {
        let count = self.problem.names().len();
        let Some(pairs) = changed_values(alloc, self.values, &change, order, count)? else {
            return Ok(());
        };
        let point = match Row::from_pairs(alloc, pairs) {
            Ok(row) => Solution(row),
            Err(RowError::Memory) => return Err(AllocError),
            Err(_) => return Ok(()),
        };
        if is_feasible(self.problem, &point) {
            if let Ok(objective) = value_at(self.problem.objective(), &point) {
                self.mends.add(kind, change, objective);
            }
        }
        drop(point);
        Ok(())
    }

    // Tries the other sign of a value.
    fn try_sign(&mut self, variable: u32) {
        let present = self.values.coefficient(variable);
        if !present.is_zero() {
            self.try_change(SIGN, PointChange::Value(variable, present.neg()));
        }
    }

    // Tries to move a value to the variable before its own or after it.
    fn try_moves(&mut self, variable: u32) {
        let count = self.problem.names().len();
        let has_value = !self.values.coefficient(variable).is_zero();
        for other in [variable.wrapping_sub(1), variable.wrapping_add(1)] {
            let has_other = !self.values.coefficient(other).is_zero();
            if has_value == has_other
                || other as usize >= count
                || self.is_passed(variable, other)
            {
                continue;
            }
            let (from, to) = if has_value {
                (variable, other)
            } else {
                (other, variable)
            };
            self.try_change(MOVE, PointChange::Move(from, to));
        }
    }

    // Tries to exchange the value of a variable with another one.
    fn try_exchanges(&mut self, variable: u32) {
        let values = self.values;
        let has_value = !values.coefficient(variable).is_zero();
        for entry in values.entries() {
            let other = entry.0;
            if self.tries == 0 || !has_value {
                return;
            }
            if other != variable && !self.is_passed(variable, other) {
                self.try_change(EXCHANGE, PointChange::Exchange(variable, other));
            }
        }
    }

    // Tries the value of a variable with which its row, where it has this coefficient, has the
    // value that is wanted, or the whole number that is next to it and will do.
    fn try_fitting(&mut self, entry: (u32, Frac)) {
        let (variable, coefficient) = entry;
        let (sense, side) = (self.fault.sense, self.fault.side);
        let present = self.values.coefficient(variable);
        if let Some(fitting) = fitting(present, coefficient, self.left, side) {
            let is_least = (sense == Sense::G) == (coefficient.numer() > 0);
            let whole = if is_least {
                fitting.ceil()
            } else {
                fitting.floor()
            };
            let is_integer = self.problem.ints().contains(variable);
            let value = match Frac::new(whole, 1) {
                Ok(whole) if is_integer => whole,
                _ => fitting,
            };
            let kind = if present.is_zero() { LEFT_OUT } else { OTHER };
            if value != present.neg() {
                self.try_change(kind, PointChange::Value(variable, value));
            }
        }
    }

    // Tries the whole numbers next to a value.
    fn try_nearest(&mut self, variable: u32) {
        let present = self.values.coefficient(variable);
        for whole in [present.floor(), present.ceil()] {
            if let Ok(value) = Frac::new(whole, 1) {
                self.try_change(OTHER, PointChange::Value(variable, value));
            }
        }
    }

    // Whether two variables were tried before, as the other one's.
    fn is_passed(&self, variable: u32, other: u32) -> bool {
        match self.fault.row_of(self.problem) {
            Some(row) => other < variable && !row.coefficient(other).is_zero(),
            None => false,
        }
    }

    // Tries a change of one or two values.
    fn try_change(&mut self, kind: u32, change: PointChange) {
        if let Some(steps) = self.steps_of(&change) {
            if self.mends_fault(&steps) && self.all_hold(&steps) && self.is_whole_with(&steps) {
                let objective = left_with(self.problem.objective(), self.objective, &steps);
                if let Some(objective) = objective {
                    self.mends.add(kind, change, objective);
                }
            }
        }
    }

    // By what a change of one or two values changes them; none past the limit.
    fn steps_of(&self, change: &PointChange) -> Option<[Gain; 2]> {
        match *change {
            PointChange::Value(variable, value) => {
                let present = self.values.coefficient(variable);
                Some([
                    (variable, value.add(present.neg()).ok()?),
                    (NO_VARIABLE, Frac::zero()),
                ])
            }
            PointChange::Move(one, another) | PointChange::Exchange(one, another) => {
                let present = self.values.coefficient(one);
                let gain = self.values.coefficient(another).add(present.neg()).ok()?;
                Some([(one, gain), (another, gain.neg())])
            }
            _ => None,
        }
    }

    // Whether the row at fault has the value that is wanted, with these changes.
    fn mends_fault(&mut self, steps: &[Gain]) -> bool {
        if self.tries == 0 {
            return false;
        }
        self.tries = self.tries.saturating_sub(1);
        let (sense, side) = (self.fault.sense, self.fault.side);
        match self.fault.row_of(self.problem) {
            Some(row) => match left_with(row, self.left, steps) {
                Some(left) => compares(sense, left, side),
                None => false,
            },
            None => true,
        }
    }

    // Whether all constraints hold with these changes.
    fn all_hold(&mut self, steps: &[Gain]) -> bool {
        let problem = self.problem;
        for (index, named) in problem.cons().iter().enumerate() {
            let constraint = &named.item;
            let Some(left) = self.lefts.get(index).copied() else {
                return false;
            };
            if self.tries == 0 {
                return false;
            }
            self.tries = self.tries.saturating_sub(1);
            match left_with(&constraint.row, left, steps) {
                Some(left) if compares(constraint.sense, left, constraint.rhs) => {}
                _ => return false,
            }
        }
        true
    }

    // Whether the values of integer variables are whole with these changes.
    fn is_whole_with(&self, steps: &[Gain]) -> bool {
        let ints = self.problem.ints();
        let mut fractional = self.fractional;
        for step in steps {
            let (variable, gain) = *step;
            let present = self.values.coefficient(variable);
            if ints.contains(variable) {
                match present.add(gain) {
                    Ok(value) if value.is_whole() => {}
                    _ => return false,
                }
                if !present.is_whole() {
                    fractional = fractional.saturating_sub(1);
                }
            }
        }
        fractional == 0
    }
}

// How many values of integer variables aren't whole.
fn fractional_in(values: &Row, ints: &Ints) -> usize {
    let mut count: usize = 0;
    for entry in values.entries() {
        if !entry.1.is_whole() && ints.contains(entry.0) {
            count = count.saturating_add(1);
        }
    }
    count
}

// The first value that is likely to be rounded.
fn first_rounded(values: &Row) -> Option<Frac> {
    for entry in values.entries() {
        if exact_for(entry.1).is_some() {
            return Some(entry.1);
        }
    }
    None
}

// The values with a change of all of them, none if an index is past so many variables.
fn changed_values(
    alloc: Global,
    values: &Row,
    change: &PointChange,
    order: &[u32],
    count: usize,
) -> Result<Option<Vec<(u32, Frac)>>, AllocError> {
    let mut changed = Vec::new(alloc);
    for entry in values.entries() {
        let (variable, present) = *entry;
        let (variable, value) = match *change {
            PointChange::Shift(by) => (variable.wrapping_add(by), present),
            PointChange::ByName => match order.get(variable as usize) {
                Some(named) => (*named, present),
                None => return Ok(None),
            },
            _ => (variable, exact_for(present).unwrap_or(present)),
        };
        if variable as usize >= count {
            return Ok(None);
        }
        changed.push((variable, value))?;
    }
    Ok(Some(changed))
}

// Whether all constraints hold at a solution, and the values of integer variables are whole.
fn is_feasible(problem: &Problem, point: &Solution) -> bool {
    for named in problem.cons() {
        match holds_at(&named.item, point) {
            Ok(true) => {}
            _ => return false,
        }
    }
    first_fractional(point, problem.ints()).is_none()
}

// The value of a row that has this one, after changes.
fn left_with(row: &Row, left: Frac, steps: &[Gain]) -> Option<Frac> {
    let mut left = left;
    for step in steps {
        // (most rows don't have the variable)
        let coefficient = row.coefficient(step.0);
        if !coefficient.is_zero() {
            left = left.add(coefficient.mul(step.1).ok()?).ok()?;
        }
    }
    Some(left)
}

// The value of a variable with which a row has another value than it has now.
fn fitting(present: Frac, coefficient: Frac, left: Frac, side: Frac) -> Option<Frac> {
    let gap = side.add(left.neg()).ok()?;
    present.add(gap.mul(inverse(coefficient)?).ok()?).ok()
}
