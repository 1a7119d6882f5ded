//! Two assumptions that are no split: what each one's other side would be.

use crate::algebra::{Algebra, BoundOn};
use crate::page::Page;
use crate::sought::inverse;
use crate::step::RefusedStep;
use vipr_cert::Problem;
use vipr_frac::Frac;
use vipr_linear::{Constraint, Row, Sense, is_whole_row};

/// With how many assumptions of their row two are compared.
const MOST_COMPARED: usize = 8;

/// A bound of a row that comes from another constraint: its sense and its right-hand side.
#[derive(Clone, Copy)]
struct Side {
    sense: Sense,
    bound: Frac,
}

impl Side {
    // That of a constraint.
    fn of(constraint: &Constraint) -> Side {
        Side {
            sense: constraint.sense,
            bound: constraint.rhs,
        }
    }

    // The other side of a split: `>= k + 1` for `<= k`, and `<= k - 1` for `>= k`, with k whole.
    fn partner(self) -> Option<Side> {
        if !self.bound.is_whole() {
            return None;
        }
        let (sense, step) = match self.sense {
            Sense::L => (Sense::G, Frac::one()),
            Sense::G => (Sense::L, Frac::one().neg()),
            Sense::E => return None,
        };
        let bound = self.bound.add(step).ok()?;
        Some(Side { sense, bound })
    }

    // What it says of a row that is so many times its own.
    fn times(self, factor: Frac) -> Option<Side> {
        let sense = match self.sense {
            Sense::L if factor.numer() < 0 => Sense::G,
            Sense::G if factor.numer() < 0 => Sense::L,
            sense => sense,
        };
        let bound = self.bound.mul(factor).ok()?;
        Some(Side { sense, bound })
    }
}

/// Writes the other side of a split for each of two assumptions, or that one only spells its row as
/// a multiple of the other's.
pub(crate) fn write_partners(
    page: &mut Page,
    problem: &Problem,
    first: &Constraint,
    second: &Constraint,
) {
    let (odd, plain) = if begins_with_one(&first.row) {
        (second, first)
    } else {
        (first, second)
    };
    if is_respelled(problem, odd, plain) {
        write_respelled(page, problem, odd, plain);
    } else if is_respelled(problem, plain, odd) {
        write_respelled(page, problem, plain, odd);
    } else {
        write_partner(page, problem, first);
        write_partner(page, problem, second);
    }
}

// Whether the first coefficient of a row is 1.
fn begins_with_one(row: &Row) -> bool {
    match row.entries().first() {
        Some(entry) => entry.1 == Frac::one(),
        None => false,
    }
}

// Writes the other side of an assumption, if its row may be split.
fn write_partner(page: &mut Page, problem: &Problem, assumption: &Constraint) {
    let row = &assumption.row;
    if let (Some(side), true) = (
        Side::of(assumption).partner(),
        is_whole_row(row, problem.ints()),
    ) {
        let other = shown(problem, row, side);
        let own = Algebra(problem, assumption);
        write!(page, "    {own} and {other} would be a split\n");
    }
}

// Writes how an assumption is to be spelled by the row of another one.
fn write_respelled(
    page: &mut Page,
    problem: &Problem,
    assumption: &Constraint,
    other: &Constraint,
) {
    let row = &other.row;
    if let (Some(side), true) = (respelled(assumption, other), !row.is_empty()) {
        let meant = shown(problem, row, side);
        let present = Algebra(problem, assumption);
        write!(
            page,
            "  = help: with {meant} for {present}, which says the same, they are a split\n"
        );
    }
}

// Whether an assumption and another one are a split, once it is spelled by the row of that.
fn is_respelled(problem: &Problem, assumption: &Constraint, other: &Constraint) -> bool {
    if let Some(side) = respelled(assumption, other) {
        return is_partner(problem, side, other);
    }
    false
}

// What an assumption says of the row of another one, if its own is a multiple of that.
fn respelled(assumption: &Constraint, other: &Constraint) -> Option<Side> {
    let factor = factor_of(&assumption.row, &other.row)?;
    Side::of(assumption).times(factor)
}

// Whether a bound on the row of an assumption is the other side of it in a split.
fn is_partner(problem: &Problem, side: Side, assumption: &Constraint) -> bool {
    if let Some(partner) = Side::of(assumption).partner() {
        return side.sense == partner.sense
            && side.bound == partner.bound
            && is_whole_row(&assumption.row, problem.ints());
    }
    false
}

// A row with a bound.
fn shown<'a>(problem: &'a Problem, row: &'a Row, side: Side) -> BoundOn<'a> {
    BoundOn {
        problem,
        row,
        sense: side.sense,
        bound: side.bound,
    }
}

// How many times a row another one is, if it is that and not the same.
fn factor_of(row: &Row, other: &Row) -> Option<Frac> {
    let (given, wanted) = (row.entries(), other.entries());
    let factor = wanted.first()?.1.mul(inverse(given.first()?.1)?).ok()?;
    if given.len() != wanted.len() || factor == Frac::one() {
        return None;
    }
    for (one, another) in given.iter().zip(wanted) {
        if one.0 != another.0 || one.1.mul(factor).ok()? != another.1 {
            return None;
        }
    }
    Some(factor)
}

/// Asks what is likely if two assumptions on one row leave a gap: a third case, or a negative
/// number that was cut to a whole one.
pub(crate) fn write_gap_help(
    page: &mut Page,
    refused: &RefusedStep<'_>,
    assumptions: (u32, u32),
    first: &Constraint,
    second: &Constraint,
) {
    let (low, high) = match (first.sense, second.sense) {
        (Sense::L, Sense::G) => (first.rhs, second.rhs),
        (Sense::G, Sense::L) => (second.rhs, first.rhs),
        _ => return,
    };
    if let Some(index) = index_between(refused, assumptions, &first.row, low, high) {
        write!(page, "  = help: [{index}] is an assumption between them: ");
        page.put("is it a third case? A `uns` joins two, and another one those and the third\n");
    } else if let (true, Ok(meant)) = (high.numer() <= 0, high.add(Frac::one().neg())) {
        if low.add(Frac::one()) == Ok(meant) {
            write!(
                page,
                "  = help: is >= {meant} meant in place of >= {high}? "
            );
            page.put("A negative number that is cut to a whole one is rounded up\n");
        }
    }
}

// An assumption on a row, listed between two others, whose bound is above one number and below
// another one.
fn index_between(
    refused: &RefusedStep<'_>,
    assumptions: (u32, u32),
    row: &Row,
    low: Frac,
    high: Frac,
) -> Option<u32> {
    let (one, other) = assumptions;
    let mut compared: usize = 0;
    for index in one.min(other)..one.max(other) {
        if let Some(assumption) = refused.assumption(index) {
            let is_between = low < assumption.rhs && assumption.rhs < high;
            if is_between && compared < MOST_COMPARED {
                compared = compared.saturating_add(1);
                if assumption.row.is_same(row) {
                    return Some(index);
                }
            }
        }
    }
    None
}
