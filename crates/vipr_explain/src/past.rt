//! Which number of a computation is past the limit of 2^127 - 1.

use crate::algebra::VariableName;
use crate::page::Page;
use std::fmt::{self, Display, Formatter, Write};
use vipr_cert::Problem;
use vipr_frac::Frac;
use vipr_linear::{Constraint, Row};

/// A part of a constraint: the coefficient of a variable, or the right-hand side.
#[derive(Clone, Copy)]
enum SumPart<'a> {
    Coefficient(VariableName<'a>),
    RightHandSide,
}

impl Display for SumPart<'_> {
    fn fmt<W: Write>(&self, f: &mut Formatter<W>) -> fmt::Result {
        match self {
            SumPart::Coefficient(variable) => write!(f, "{variable}"),
            SumPart::RightHandSide => f.write_str("the right-hand side"),
        }
    }
}

/// Writes which number is past the limit if a multiple of a constraint is added to a sum, which is
/// given with the other sign.
pub(crate) fn write_past_in_sum(
    page: &mut Page,
    problem: &Problem,
    negated: &Constraint,
    constraint: &Constraint,
    multiplier: Frac,
) {
    for term in constraint.row.entries() {
        let (variable, coefficient) = *term;
        let part = SumPart::Coefficient(VariableName(problem, variable));
        let sum = negated.row.coefficient(variable).neg();
        if write_if_past(page, part, sum, multiplier, coefficient) {
            return;
        }
    }
    let sum = negated.rhs.neg();
    write_if_past(
        page,
        SumPart::RightHandSide,
        sum,
        multiplier,
        constraint.rhs,
    );
}

/// Writes which number is past the limit in the value of a row at a solution.
pub(crate) fn write_past_in_value(page: &mut Page, problem: &Problem, row: &Row, solution: &Row) {
    let mut sum = Frac::zero();
    for term in row.entries() {
        let (variable, coefficient) = *term;
        let part = SumPart::Coefficient(VariableName(problem, variable));
        let value = solution.coefficient(variable);
        if write_if_past(page, part, sum, value, coefficient) {
            return;
        }
        if let Ok(product) = value.mul(coefficient) {
            if let Ok(more) = sum.add(product) {
                sum = more;
            }
        }
    }
}

// Writes which number is past the limit if a factor times a number is added to a sum, and answers
// whether one is.
fn write_if_past(
    page: &mut Page,
    part: SumPart<'_>,
    sum: Frac,
    factor: Frac,
    number: Frac,
) -> bool {
    match factor.mul(number) {
        Err(_) => {
            let bits = bits_of_product(factor, number);
            write!(page, "    {factor} x {number} at {part} has {bits} bits\n");
            true
        }
        Ok(product) => match past_in_addition(sum, product) {
            Some((what, bits)) => {
                write!(
                    page,
                    "    {sum} + {product} at {part}: over the common denominator "
                );
                write!(page, "{what} has {bits} bits\n");
                true
            }
            None => false,
        },
    }
}

// Which number is past the limit if two numbers are added as docs/FORMAT.md says, and its bits.
fn past_in_addition(one: Frac, other: Frac) -> Option<(&'static str, u32)> {
    if one.add(other).is_ok() {
        return None;
    }
    // the denominators without their greatest common divisor
    let reduced = Frac::new(one.denom(), other.denom()).ok()?;
    let (below_one, below_other) = (reduced.numer(), reduced.denom());
    let Some(first) = within_limit(one.numer().checked_mul(below_other)) else {
        return Some(("the first numerator", bits(one.numer(), below_other)));
    };
    let Some(second) = within_limit(other.numer().checked_mul(below_one)) else {
        return Some(("the second numerator", bits(other.numer(), below_one)));
    };
    let Some(total) = within_limit(first.checked_add(second)) else {
        return Some(("the sum of the numerators", 128));
    };
    let divisor = other.denom().checked_div(below_other)?;
    let below = below_other.checked_mul(Frac::new(total, divisor).ok()?.denom())?;
    Some(("the denominator of the sum", bits(below_one, below)))
}

// A number that fits, unless it is one past the limit.
fn within_limit(number: Option<i128>) -> Option<i128> {
    match number {
        Some(i128::MIN) => None,
        known => known,
    }
}

// How many bits the longer of the numerator and the denominator of a product has.
fn bits_of_product(factor: Frac, number: Frac) -> u32 {
    match (
        Frac::new(factor.numer(), number.denom()),
        Frac::new(number.numer(), factor.denom()),
    ) {
        (Ok(first), Ok(second)) => {
            let above = bits(first.numer(), second.numer());
            above.max(bits(first.denom(), second.denom()))
        }
        _ => 128,
    }
}

// How many bits the size of a product has.
fn bits(one: i128, other: i128) -> u32 {
    let (low, high) = one.unsigned_abs().carrying_mul(other.unsigned_abs(), 0);
    let zeros = match high {
        0 => low.leading_zeros().saturating_add(u128::BITS),
        _ => high.leading_zeros(),
    };
    u128::BITS.saturating_mul(2).saturating_sub(zeros)
}
