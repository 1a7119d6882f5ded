//! A listed solution that is refused, and a primal bound that no listed one attains.

use crate::algebra::{Algebra, ShownName, VariableName, sign_of, size_of};
use crate::decimal::Measured;
use crate::doubles::meant_by_double;
use crate::excerpt::{Excerpt, part_of};
use crate::items::{open_problem, read_solution};
use crate::marks::{ItemPart, ItemPlace, ItemSort, find_item};
use crate::mends::{MendedPoint, PointMends};
use crate::page::Page;
use crate::past::write_past_in_value;
use crate::shifted_ints::{shift_for_values, write_shift};
use crate::shown::write_line;
use crate::text::{Reread, Subject};
use crate::wanted::count_of;
use std::alloc::AllocError;
use vipr_bytes::Bytes;
use vipr_cert::{Claim, Goal, Name, Named, Problem};
use vipr_check::Detail;
use vipr_frac::Frac;
use vipr_linear::{Constraint, Row, Sense, Solution, compares, value_at};
use vipr_read::Solutions;

/// How many values of a solution are shown.
const MOST_VALUES: usize = 10;

/// A whole number is near another number if it is off by at most one of so many parts of 1.
const FAR_PARTS: i128 = 10;

/// A listed solution that is refused: its place with that of the value at fault, if it is one, and
/// that of the constraint that it breaks.
#[derive(Drop)]
pub(crate) struct RefusedSolution<'a> {
    problem: Problem,
    solution: Named<Solution>,
    number: u32,
    text: &'a [u8],
    place: Option<ItemPlace>,
    broken: Option<ItemPlace>,
    /// Whether its count of values is 0.
    lists_none: bool,
    mends: PointMends,
}

impl<'a> RefusedSolution<'a> {
    /// Reads the listed solution of this number, which is refused so.
    pub(crate) fn find(
        subject: Subject<'a>,
        number: u32,
        detail: &Detail,
    ) -> Reread<RefusedSolution<'a>> {
        let broken = broken_place(subject, detail)?;
        let lists_none = lists_no_value(subject, number)?;
        let (problem, solution) = read_solution(subject.alloc, subject.text, number)?;
        let mends = or_drop!(
            PointMends::find(subject, &problem, &solution.item, detail),
            solution,
            problem
        );
        let part = part_at_fault(&problem, detail);
        match find_item(subject, ItemSort::Solutions, number, part) {
            Ok(place) => Ok(RefusedSolution {
                problem,
                solution,
                number,
                text: subject.text,
                place,
                broken,
                lists_none,
                mends,
            }),
            Err(error) => {
                drop(solution);
                drop(problem);
                Err(error.into())
            }
        }
    }

    // Writes the changes with which all constraints hold.
    fn write_mends(&self, page: &mut Page) {
        self.mends.write(page, &self.problem, &self.solution.item.0);
    }

    /// Writes the page of the solution, which is refused so.
    pub(crate) fn write(&self, page: &mut Page, detail: &Detail, file: &[u8]) {
        let number = self.number;
        let name = ShownName(self.solution.name.as_bytes());
        let fault = match detail {
            Detail::NotWhole { .. } => "is not whole at an integer variable",
            Detail::Breaks { .. } => "breaks a constraint",
            _ => "passes 2^127 - 1",
        };
        write!(page, "error: solution {number} `{name}` {fault}\n");
        if let Some(place) = self.place {
            let label = if place.has_part() {
                "this value"
            } else {
                "this solution"
            };
            let place = Excerpt::of(self.text, place.part);
            place.write(page, file, label);
            if let Some(broken) = self.broken {
                place.write_other(page, Excerpt::of(self.text, broken.name), "this constraint");
            }
        }
        match detail {
            Detail::NotWhole { variable, .. } => write_not_whole(page, self, *variable),
            Detail::Breaks {
                constraint,
                left,
                ..
            } => write_broken(page, self, *constraint, *left),
            Detail::SolutionOverflow {
                at: Some((index, _)),
                ..
            } => {
                if let Some(constraint) = self.problem.cons().get(*index as usize) {
                    write!(page, "  it is past the limit in constraint {index}\n");
                    write_past_limit(page, self, &constraint.item.row);
                }
            }
            _ => {
                page.put("  it is past the limit in the objective\n");
                write_past_limit(page, self, self.problem.objective());
            }
        }
    }
}

// The part of a solution that is at fault: its name, or a value, if that is at fault alone.
fn part_at_fault(problem: &Problem, detail: &Detail) -> ItemPart {
    let index = match detail {
        Detail::NotWhole { variable, .. } => return ItemPart::Value(*variable),
        Detail::Breaks { constraint, .. } => *constraint as usize,
        _ => return ItemPart::Name,
    };
    match problem.cons().get(index) {
        Some(broken) => match broken.item.row.entries() {
            [entry] => ItemPart::Value(entry.0),
            _ => ItemPart::Name,
        },
        None => ItemPart::Name,
    }
}

// Whether the count of a solution's values is 0. Values that are 0 are counted, too.
fn lists_no_value(subject: Subject<'_>, number: u32) -> Reread<bool> {
    let place = find_item(subject, ItemSort::Solutions, number, ItemPart::RowCount)?;
    Ok(match place {
        Some(place) => place.has_part() && count_of(part_of(subject.text, place.part)) == 0,
        None => false,
    })
}

// The place of the constraint that a solution breaks, if that is the fault.
fn broken_place(subject: Subject<'_>, detail: &Detail) -> Result<Option<ItemPlace>, AllocError> {
    match detail {
        Detail::Breaks { constraint, .. } => {
            find_item(subject, ItemSort::Constraints, *constraint, ItemPart::Name)
        }
        _ => Ok(None),
    }
}

pub(crate) const PAST_LIMIT: &str =
    "  = help: docs/FORMAT.md says what can help when a number is past the limit\n";

// Writes which number of a row's value is past the limit at a solution.
fn write_past_limit(page: &mut Page, known: &RefusedSolution<'_>, row: &Row) {
    write_past_in_value(page, &known.problem, row, &known.solution.item.0);
    page.put(PAST_LIMIT);
}

// Writes which variable isn't whole.
fn write_not_whole(page: &mut Page, known: &RefusedSolution<'_>, index: u32) {
    let problem = &known.problem;
    let name = VariableName(problem, index);
    let value = known.solution.item.0.coefficient(index);
    write!(
        page,
        "  {name} (variable {index}) is {value} here, and has to be whole (INT)\n"
    );
    known.write_mends(page);
    if let Some(by) = shift_for_values(problem.ints(), &known.solution.item.0) {
        write_shift(
            page,
            problem,
            by,
            "the values of all integer variables are whole",
        );
    }
    page.put("  = help: write a whole value, or take the variable out of INT");
    if let Some((nearest, gap)) = nearest_whole(value) {
        if gap.numer() <= gap.denom() / FAR_PARTS {
            write!(page, ". Is {nearest} meant? It is {gap} off");
        }
    }
    page.put("\n");
}

// The whole number that is nearest, and how far off it is, if that fits.
fn nearest_whole(value: Frac) -> Option<(Frac, Frac)> {
    let half = Frac::new(1, 2).ok()?;
    let nearest = Frac::new(value.add(half).ok()?.floor(), 1).ok()?;
    Some((nearest, size_of(value.add(nearest.neg()).ok()?)))
}

// Writes the constraint that is false, and the values at its variables.
fn write_broken(page: &mut Page, known: &RefusedSolution<'_>, index: u32, left: Frac) {
    let problem = &known.problem;
    let Some(broken) = problem.cons().get(index as usize) else {
        return;
    };
    let name = ShownName(broken.name.as_bytes());
    let constraint = &broken.item;
    let algebra = Algebra(problem, constraint);
    write!(page, "  constraint {index} `{name}`: {algebra}");
    write_line(page, known.broken);
    write_values(page, problem, &constraint.row, &known.solution.item);
    let sign = sign_of(constraint.sense);
    let right = constraint.rhs;
    write!(
        page,
        "; the left side is {left}, which is not {sign} {right}"
    );
    let gap = right.add(left.neg()).ok();
    if let Some(gap) = gap {
        let gap = Measured(size_of(gap));
        write!(page, ", off by {gap}");
    }
    page.put("\n");
    if !known.mends.attain() || has_number_as_name(known) {
        write_solution_help(page, known, constraint, left, gap);
    }
    known.write_mends(page);
}

// Writes what is likely to be wrong with a solution that breaks a constraint, with its left side
// and how much that is off.
fn write_solution_help(
    page: &mut Page,
    known: &RefusedSolution<'_>,
    constraint: &Constraint,
    left: Frac,
    gap: Option<Frac>,
) {
    page.put("  = help: ");
    let solution = &known.solution.item;
    if let Some((variable, meant)) = double_in(constraint, solution, left) {
        let present = constraint.row.coefficient(variable);
        let name = VariableName(&known.problem, variable);
        write!(
            page,
            "with {meant} in place of {present} at {name} this constraint holds: "
        );
        page.put("is that a number of floating point? Its denominator is a power of 2\n");
        return;
    }
    match lost_sign(constraint, solution, left) {
        Some((variable, present)) => write_lost_sign(page, &known.problem, variable, present),
        None => {
            page.put(solution_hint(known, constraint, gap));
            page.put("\n");
        }
    }
}

// Asks whether the coefficient of a variable lost its sign.
fn write_lost_sign(page: &mut Page, problem: &Problem, variable: u32, present: Frac) {
    let meant = present.neg();
    let name = VariableName(problem, variable);
    write!(page, "is {meant} meant in place of {present} at {name}? ");
    page.put("Then both sides are the same; ");
    page.put("else change the solution, or leave it out\n");
}

// The first variable whose coefficient is a number of floating point, with the fraction near it, if
// the constraint holds with that.
fn double_in(constraint: &Constraint, solution: &Solution, left: Frac) -> Option<(u32, Frac)> {
    for entry in constraint.row.entries() {
        let (variable, present) = *entry;
        if let Some(meant) = meant_by_double(present) {
            let value = solution.0.coefficient(variable);
            let gain = meant.add(present.neg()).ok()?.mul(value).ok()?;
            if compares(constraint.sense, left.add(gain).ok()?, constraint.rhs) {
                return Some((variable, meant));
            }
        }
    }
    None
}

// The one variable, with its coefficient, at which the other sign makes both sides the same.
fn lost_sign(constraint: &Constraint, solution: &Solution, left: Frac) -> Option<(u32, Frac)> {
    let off = left.add(constraint.rhs.neg()).ok()?;
    let half = off.mul(Frac::new(1, 2).ok()?).ok()?;
    let entries = constraint.row.entries();
    let mut found = None;
    if entries.len() < 2 {
        return None;
    }
    for entry in entries {
        if let Ok(term) = entry.1.mul(solution.0.coefficient(entry.0)) {
            if term == half && found.is_none() {
                found = Some(*entry);
            } else if term == half {
                return None;
            }
        }
    }
    found
}

// What is likely to be wrong with a solution that breaks a constraint by so much.
fn solution_hint(
    known: &RefusedSolution<'_>,
    constraint: &Constraint,
    gap: Option<Frac>,
) -> &'static str {
    if constraint.row.is_empty() {
        return "no solution meets this constraint: change it, or take it out";
    }
    let values = &known.solution.item.0;
    let is_number = has_number_as_name(known);
    match gap {
        _ if known.lists_none && !is_number => {
            "the solution lists no value, so each variable is 0: is its count right?"
        }
        _ if values.is_empty() && !is_number => {
            "all values that the solution lists are 0, as is a variable that it doesn't list: \
             change it, or leave it out"
        }
        Some(gap) if gap.denom() / 1000 >= size_of(gap).numer() && has_fraction(values) => {
            "is a value rounded, as one of floating point is? Write exact fractions"
        }
        Some(gap) if constraint.sense == Sense::E && gap.numer() > 0 => {
            "is `L` meant in place of `E`? Then the solution meets this constraint; else change \
             the solution, or leave it out"
        }
        Some(_) if constraint.sense == Sense::E => {
            "is `G` meant in place of `E`? Then the solution meets this constraint; else change \
             the solution, or leave it out"
        }
        _ if is_number => "its name is a number: is the name missing?",
        _ => "change the solution, or leave it out; a variable that it doesn't list is 0",
    }
}

// Whether the name of a solution is a number, as if the name were left out.
fn has_number_as_name(known: &RefusedSolution<'_>) -> bool {
    Frac::parse(known.solution.name.as_bytes()).is_ok()
}

// Whether a value isn't whole.
fn has_fraction(values: &Row) -> bool {
    for entry in values.entries() {
        if !entry.1.is_whole() {
            return true;
        }
    }
    false
}

// Writes a line of the values at a row's variables. Many are cut, with the number of variables.
fn write_values(page: &mut Page, problem: &Problem, row: &Row, solution: &Solution) {
    let entries = row.entries();
    let shown = &entries[..entries.len().min(MOST_VALUES)];
    for (position, entry) in shown.iter().enumerate() {
        page.put(if position == 0 {
            "\n  at the solution: "
        } else {
            ", "
        });
        let name = VariableName(problem, entry.0);
        let value = solution.0.coefficient(entry.0);
        write!(page, "{name} = {value}");
    }
    let count = entries.len();
    if count > MOST_VALUES {
        write!(page, " .. ({count} variables)");
    } else if count == 0 {
        page.put("\n  the row is empty");
    }
}

/// The first listed solution that has the best objective: its number, its name, and the objective.
#[derive(Drop)]
pub(crate) struct ListedValues {
    best: Option<(u32, Name, Frac)>,
    /// Whether the count of its values is 0.
    lists_none: bool,
    /// Whether the lower bound of the claim is above the upper one.
    is_exchanged: bool,
    sense: Goal,
    /// The best one, with changes with which it attains the bound that is claimed.
    mended: Option<MendedPoint>,
}

impl ListedValues {
    /// Reads the listed solutions.
    pub(crate) fn find(subject: Subject<'_>) -> Reread<ListedValues> {
        let (problem, mut solutions) = open_problem(subject.alloc, subject.text)?;
        let mut known = ListedValues {
            best: None,
            lists_none: false,
            is_exchanged: is_exchanged(problem.claim()),
            sense: problem.sense(),
            mended: None,
        };
        let added = known.add_all(subject, &problem, &mut solutions);
        drop(solutions);
        drop(problem);
        or_drop!(added, known);
        if let Some(number) = known.number() {
            known.lists_none = or_drop!(lists_no_value(subject, number), known);
        }
        Ok(known)
    }

    /// Reads the listed solutions, none of which attains this bound.
    pub(crate) fn find_below(subject: Subject<'_>, bound: Frac) -> Reread<ListedValues> {
        let mut known = ListedValues::find(subject)?;
        if let Some(number) = known.number() {
            let mended = or_drop!(MendedPoint::find(subject, number, bound), known);
            known.mended = Some(mended);
        }
        Ok(known)
    }

    // The number of the best one.
    fn number(&self) -> Option<u32> {
        match &self.best {
            Some((number, ..)) => Some(*number),
            None => None,
        }
    }

    /// The best objective, if a solution is listed.
    pub(crate) fn best_value(&self) -> Option<Frac> {
        match &self.best {
            Some((.., value)) => Some(*value),
            None => None,
        }
    }

    /// The part of the claim that they have to attain.
    pub(crate) fn part(&self) -> ItemPart {
        match self.sense {
            Goal::Min => ItemPart::UpperBound,
            Goal::Max => ItemPart::LowerBound,
        }
    }

    /// Writes the page of a primal bound that none of them attains, which is at this place.
    pub(crate) fn write(
        &self,
        page: &mut Page,
        bound: Frac,
        place: Option<Excerpt<'_>>,
        file: &[u8],
    ) {
        page.put("error: no listed solution attains the primal bound\n");
        if let Some(place) = place {
            place.write(page, file, "the primal bound");
        }
        write!(
            page,
            "  wanted: a solution whose objective is {bound} or better\n"
        );
        if self.best.is_some() {
            page.put("  ");
            self.write_best(page);
        }
        if self.is_exchanged {
            page.put(
                "  = help: the lower bound of the claim is above the upper one: are they exchanged?\n",
            );
        }
        if let Some(mended) = &self.mended {
            mended.write(page);
        }
        match &self.best {
            Some((number, name, _)) if self.lists_none => {
                let name = ShownName(name.as_bytes());
                write!(
                    page,
                    "  = help: solution {number} `{name}` lists no value, "
                );
                page.put("so each variable is 0: is its count right?\n");
            }
            Some((.., best)) => write!(
                page,
                "  = help: {best} is attained: is that the primal bound (the upper one for min, \
                 the lower one for max), is a better solution left out, or is a constant of the \
                 objective in the claim? The format has none\n"
            ),
            None => page.put(
                "  the text lists no solution (SOL 0)\n  \
                 = help: list a solution after SOL, or claim no primal bound in RTP (`inf` \
                 for min, `-inf` for max)\n",
            ),
        }
    }

    /// Writes the solution and the objective there on a line.
    pub(crate) fn write_best(&self, page: &mut Page) {
        match &self.best {
            Some((number, name, value)) => {
                let (name, value) = (ShownName(name.as_bytes()), Measured(*value));
                write!(page, "solution {number} `{name}`: objective {value}\n");
            }
            None => page.put("no solution is listed\n"),
        }
    }

    // Adds all solutions that are to come.
    fn add_all(
        &mut self,
        subject: Subject<'_>,
        problem: &Problem,
        solutions: &mut Solutions<Bytes<'_>>,
    ) -> Reread<()> {
        let objective = Solution(problem.objective().clone()?);
        for number in 0..solutions.left() {
            if let Some(solution) = solutions.next(subject.alloc)? {
                self.add(problem, &objective, number, solution);
            }
        }
        Ok(())
    }

    // Adds a solution, unless the objective is past the limit there. The entries of the solution
    // are walked, and not those of the objective: there may be many solutions.
    fn add(
        &mut self,
        problem: &Problem,
        objective: &Solution,
        number: u32,
        solution: Named<Solution>,
    ) {
        let Named { name, item } = solution;
        let value = value_at(&item.0, objective);
        drop(item);
        let Ok(value) = value else {
            drop(name);
            return;
        };
        if is_as_good(&self.best, value, problem.sense()) {
            drop(name);
        } else {
            self.best = Some((number, name, value));
        }
    }
}

// Whether the best solution so far is as good as a value of the objective.
fn is_as_good(best: &Option<(u32, Name, Frac)>, value: Frac, sense: Goal) -> bool {
    match (best, sense) {
        (Some((.., best)), Goal::Min) => *best <= value,
        (Some((.., best)), Goal::Max) => *best >= value,
        (None, _) => false,
    }
}

/// Whether the lower bound of a claim is above the upper one.
pub(crate) fn is_exchanged(claim: Claim) -> bool {
    match claim {
        Claim::Range(Some(lower), Some(upper)) => !compares(Sense::L, lower, upper),
        _ => false,
    }
}
