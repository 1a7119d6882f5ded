//! What is wanted in another measure: a constraint whose row is a multiple of the wanted row.

use crate::page::Page;
use crate::shown::{PlacedItems, write_line};
use crate::sought::inverse;
use std::fmt::{self, Display, Formatter, Write};
use vipr_cert::Problem;
use vipr_check::Table;
use vipr_frac::Frac;
use vipr_linear::{Constraint, Row, Sense, compares};
use vipr_rules::Rows;

/// A constraint, and the number by which it has to be multiplied for another one.
#[derive(Clone, Copy)]
pub(crate) struct Scaled {
    pub(crate) index: u32,
    pub(crate) factor: Frac,
}

/// The number by which a row has to be multiplied for another one, if there is one.
pub(crate) fn factor_of_rows(row: &Row, wanted: &Row) -> Option<Frac> {
    let (own, other) = (row.entries(), wanted.entries());
    if own.len() != other.len() {
        return None;
    }
    let factor = other.first()?.1.mul(inverse(own.first()?.1)?).ok()?;
    for (position, entry) in own.iter().enumerate() {
        let meant = other.get(position)?;
        if entry.0 != meant.0 || entry.1.mul(factor).ok()? != meant.1 {
            return None;
        }
    }
    Some(factor)
}

/// The number by which a constraint has to be multiplied so that it dominates another one with a
/// row that isn't the same.
pub(crate) fn factor_to(constraint: &Constraint, wanted: &Constraint) -> Option<Frac> {
    let factor = factor_of_rows(&constraint.row, &wanted.row)?;
    let side = constraint.rhs.mul(factor).ok()?;
    let sense = match constraint.sense {
        Sense::G if factor.numer() < 0 => Sense::L,
        Sense::L if factor.numer() < 0 => Sense::G,
        sense => sense,
    };
    let has_sense = sense == wanted.sense || sense == Sense::E;
    if factor != Frac::one() && has_sense && compares(wanted.sense, side, wanted.rhs) {
        Some(factor)
    } else {
        None
    }
}

/// The last constraint that rests on no assumption and of which a multiple proves this bound.
pub(crate) fn find_scaled(problem: &Problem, rows: &Table, bound: &Constraint) -> Option<Scaled> {
    let mut found = None;
    for (index, named) in problem.cons().iter().enumerate() {
        if let Some(factor) = factor_to(&named.item, bound) {
            found = Some(Scaled {
                index: index as u32,
                factor,
            });
        }
    }
    for index in 0..rows.next() {
        if let Some(entry) = rows.get(index) {
            if entry.assumptions.is_empty() {
                if let Some(factor) = factor_to(&entry.constraint, bound) {
                    found = Some(Scaled { index, factor });
                }
            }
        }
    }
    found
}

/// A derivation that states a bound on the objective by a multiple of one constraint.
#[derive(Clone, Copy)]
pub(crate) struct ScaledStep<'a>(pub(crate) &'a Constraint, pub(crate) Scaled);

impl Display for ScaledStep<'_> {
    fn fmt<W: Write>(&self, f: &mut Formatter<W>) -> fmt::Result {
        let Constraint { sense, rhs, .. } = self.0;
        let Scaled { index, factor } = self.1;
        write!(f, "`NAME {sense} {rhs} OBJ ")?;
        f.write_str("{ lin 1 ")?;
        write!(f, "{index} {factor} ")?;
        f.write_str("} -1`")
    }
}

impl Scaled {
    /// Writes that it proves this bound on the objective.
    pub(crate) fn write(&self, page: &mut Page, known: &PlacedItems<'_>, bound: &Constraint) {
        let index = self.index;
        let factor = self.factor;
        page.put("  = help: ");
        known.write_name(page, index);
        write_line(page, known.marks.place(index));
        write!(page, " proves the claim if it is multiplied by {factor}: ");
        let step = ScaledStep(bound, *self);
        write!(
            page,
            "add the derivation {step}, and 1 to the count after DER\n"
        );
    }
}
