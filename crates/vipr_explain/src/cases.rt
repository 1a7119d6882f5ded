//! A join of which one case doesn't give what is stated.

use crate::changes::{Change, Changes};
use crate::near::Join;
use crate::page::Page;
use crate::scaled::factor_to;
use crate::shown::write_line;
use crate::sought::Refused;
use crate::step::RefusedStep;
use vipr_cert::References;
use vipr_frac::Frac;
use vipr_linear::{Constraint, Sense, compares};
use vipr_rules::{Assumptions, Rows};

/// Changes without a join that has another case of another branch: one that doesn't rest on the
/// assumption of its case, and rests on an assumption that neither case rested on.
pub(crate) fn without_strange_case(refused: Refused<'_>, changes: Changes) -> Changes {
    let mut kept = changes;
    if let (Some(Change::Join(join)), References::Branches { i1, i2, .. }) = (
        changes.exchange,
        refused.step.reason.references(),
    ) {
        let Join {
            i1: first,
            l1,
            i2: second,
            l2,
        } = join;
        let is_strange = (first != i1 && is_strange_case(refused, first, l1, [i1, i2]))
            || (second != i2 && is_strange_case(refused, second, l2, [i1, i2]));
        if is_strange {
            kept.exchange = None;
        }
    }
    kept
}

// Whether a constraint doesn't rest on the assumption of its case, and rests on another one that
// none of the old cases rests on.
fn is_strange_case(refused: Refused<'_>, case: u32, assumption: u32, old: [u32; 2]) -> bool {
    let Some(entry) = refused.rows.get(case) else {
        return false;
    };
    if entry.assumptions.contains(assumption) {
        return false;
    }
    for index in 0..case {
        if entry.assumptions.contains(index) && !is_named(refused, old, index) {
            return true;
        }
    }
    false
}

// Whether one of these constraints rests on an assumption.
fn is_named(refused: Refused<'_>, cases: [u32; 2], assumption: u32) -> bool {
    for case in cases {
        if let Some(entry) = refused.rows.get(case) {
            let assumptions: &Assumptions = &entry.assumptions;
            if assumptions.contains(assumption) {
                return true;
            }
        }
    }
    false
}

/// Writes what is likely if a case of a join doesn't give what is stated.
pub(crate) fn write_case_help(
    page: &mut Page,
    refused: &RefusedStep<'_>,
    cases: [u32; 2],
    stated: &Constraint,
) {
    let [first, second] = cases;
    let (Some(one), Some(other)) = (refused.constraint(first), refused.constraint(second)) else {
        return;
    };
    let (index, weak) = if one.dominates(stated) {
        (second, other)
    } else {
        (first, one)
    };
    if let Some(factor) = factor_to(weak, stated) {
        page.put("  = help: ");
        refused.known.write_name(page, index);
        write_line(page, refused.known.marks.place(index));
        write!(
            page,
            " proves what is stated if it is multiplied by {factor}: "
        );
        page.put("derive that by `{ lin 1 ");
        write!(page, "{index} {factor} ");
        page.put("}`, and name it as the case\n");
    } else if let Some(side) = weaker_side(one, other, stated) {
        write!(
            page,
            "  = help: a `uns` proves the weaker one of its cases: "
        );
        write!(page, "is {side} meant here?\n");
    } else if weak.row.is_empty() {
        page.put(
            "  = help: is a case ruled out? Then it gives a contradiction, as 0 >= 1: is its \
             right-hand side wrong?\n",
        );
    } else {
        page.put(
            "  = help: is another constraint meant as the case, or is what was computed to be \
             stated?\n",
        );
    }
}

// The right-hand side of the weaker one of two cases, if both bound the stated row.
fn weaker_side(one: &Constraint, other: &Constraint, stated: &Constraint) -> Option<Frac> {
    let first = side_of(one, stated)?;
    let second = side_of(other, stated)?;
    if compares(stated.sense, first, second) {
        Some(second)
    } else {
        Some(first)
    }
}

// The right-hand side of a case that bounds the stated row.
fn side_of(case: &Constraint, stated: &Constraint) -> Option<Frac> {
    let has_sense = case.sense == stated.sense || case.sense == Sense::E;
    if has_sense && stated.sense != Sense::E && case.row.is_same(&stated.row) {
        Some(case.rhs)
    } else {
        None
    }
}
