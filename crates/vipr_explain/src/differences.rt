//! How what a reason gives differs from what a derivation states.

use crate::algebra::{VariableName, sign_of, size_of};
use crate::decimal::Measured;
use crate::page::Page;
use std::alloc::{AllocError, Global};
use vipr_cert::Problem;
use vipr_frac::Frac;
use vipr_linear::{Constraint, Row, Sense};

/// How many differences, or faults, are shown.
pub(crate) const MOST_SHOWN: usize = 6;

/// A variable whose coefficients differ in two rows.
#[derive(Clone, Copy)]
pub(crate) struct Difference {
    pub(crate) variable: u32,
    pub(crate) computed: Frac,
    pub(crate) stated: Frac,
}

/// The differences of two rows: first at the entries of the computed one, then at those that the
/// stated one has beside them.
pub(crate) fn row_differences(
    alloc: Global,
    computed: &Row,
    stated: &Row,
) -> Result<Vec<Difference>, AllocError> {
    let changes = computed.entries().iter();
    let changes = changes.filter_map(|entry| change_at(computed, stated, entry.0));
    let additions = stated.entries().iter();
    let additions = additions.filter_map(|entry| addition_at(computed, stated, entry.0));
    changes.chain(additions).collect(alloc)
}

// The difference at an entry of the computed row, if the stated one has another.
fn change_at(computed: &Row, stated: &Row, variable: u32) -> Option<Difference> {
    let here = difference_at(computed, stated, variable);
    (here.computed != here.stated).then_some(here)
}

// The difference at an entry of the stated row, if the computed one has none.
fn addition_at(computed: &Row, stated: &Row, variable: u32) -> Option<Difference> {
    let here = difference_at(computed, stated, variable);
    (here.computed == Frac::zero()).then_some(here)
}

// The coefficients of a variable in two rows.
fn difference_at(computed: &Row, stated: &Row, variable: u32) -> Difference {
    Difference {
        variable,
        computed: computed.coefficient(variable),
        stated: stated.coefficient(variable),
    }
}

/// Writes how two constraints differ, whose rows differ so.
pub(crate) fn write_differences(
    page: &mut Page,
    problem: &Problem,
    computed: &Constraint,
    stated: &Constraint,
    differences: &[Difference],
) {
    page.put("    difference ");
    if differences.is_empty() {
        write_sides(page, computed, stated);
    } else {
        write_rows(page, problem, differences);
    }
    page.put("\n");
}

// Writes how the senses differ, or else the right-hand sides.
fn write_sides(page: &mut Page, computed: &Constraint, stated: &Constraint) {
    if computed.sense != Sense::E && computed.sense != stated.sense {
        let (given, stated) = (sign_of(computed.sense), sign_of(stated.sense));
        write!(page, "the sense: computed {given}, stated {stated}");
        return;
    }
    let (given, side) = (computed.rhs, stated.rhs);
    write!(page, "right-hand side: computed {given}, stated {side}");
    if let Ok(gap) = given.add(side.neg()) {
        let size = Measured(size_of(gap));
        match stated.sense {
            Sense::E => write!(page, ", which is {size} off"),
            _ => write!(page, ", which says {size} too much"),
        }
    }
}

// Writes how two rows differ.
fn write_rows(page: &mut Page, problem: &Problem, differences: &[Difference]) {
    page.put("the rows are not the same:");
    let shown = &differences[..differences.len().min(MOST_SHOWN)];
    for (position, difference) in shown.iter().enumerate() {
        let front = if position == 0 { " " } else { "; " };
        let index = difference.variable;
        let name = VariableName(problem, index);
        let (given, stated) = (difference.computed, difference.stated);
        write!(page, "{front}{name} (variable {index}): ");
        write!(page, "computed {given}, stated {stated}");
    }
    let count = differences.len();
    if count > MOST_SHOWN {
        write!(page, " .. ({count} differences)");
    }
}
