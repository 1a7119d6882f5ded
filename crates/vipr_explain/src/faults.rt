//! What keeps a row from being whole.

use crate::algebra::VariableName;
use crate::differences::MOST_SHOWN;
use crate::listed::FirstSolutions;
use crate::page::Page;
use crate::shifted_ints::{shift_for_row, write_shift};
use crate::text::Subject;
use std::alloc::{AllocError, Global};
use vipr_cert::Problem;
use vipr_frac::Frac;
use vipr_linear::{Ints, Row};

/// Why a row isn't whole.
#[derive(Clone, Copy)]
pub(crate) enum RowFault {
    /// The coefficient of a variable isn't whole.
    NotWhole(u32, Frac),
    /// A variable isn't an integer one, and a value of it in a listed solution that isn't whole.
    NotInteger(u32, Option<Frac>),
    /// All variables are integer ones if each index after `INT` is so much more, modulo 2^32.
    Shifted(u32),
}

/// What keeps a row from being whole: coefficients that aren't, and variables that aren't integer
/// ones. If a shift of INT would do for these, it comes first.
pub(crate) fn row_faults(
    subject: Subject<'_>,
    ints: &Ints,
    row: &Row,
) -> Result<Vec<RowFault>, AllocError> {
    let solutions = FirstSolutions::find(subject)?;
    let faults = faults_beside(subject.alloc, ints, row, &solutions);
    drop(solutions);
    faults
}

// The same with the first listed solutions.
fn faults_beside(
    alloc: Global,
    ints: &Ints,
    row: &Row,
    solutions: &FirstSolutions,
) -> Result<Vec<RowFault>, AllocError> {
    let mut faults = Vec::new(alloc);
    let are_integer = row.entries().iter().all(|entry| ints.contains(entry.0));
    if let (false, Some(by)) = (are_integer, shift_for_row(ints, row)) {
        faults.push(RowFault::Shifted(by))?;
    }
    for entry in row.entries() {
        let (variable, coefficient) = *entry;
        if !coefficient.is_whole() {
            faults.push(RowFault::NotWhole(variable, coefficient))?;
        }
        if !ints.contains(variable) {
            let value = match faults.len() < MOST_SHOWN {
                true => solutions.fraction_of(variable),
                false => None,
            };
            faults.push(RowFault::NotInteger(variable, value))?;
        }
    }
    Ok(faults)
}

/// Whether a listed solution has a value that isn't whole at a variable that would have to be an
/// integer one.
pub(crate) fn has_fraction(faults: &[RowFault]) -> bool {
    for fault in faults {
        if let RowFault::NotInteger(_, Some(_)) = fault {
            return true;
        }
    }
    false
}

/// Whether a coefficient isn't whole.
pub(crate) fn has_part(faults: &[RowFault]) -> bool {
    for fault in faults {
        if let RowFault::NotWhole(..) = fault {
            return true;
        }
    }
    false
}

/// Writes the first faults of a row, a line each, and first of all whether no variable is an
/// integer one.
pub(crate) fn write_faults(page: &mut Page, problem: &Problem, faults: &[RowFault]) {
    let has_none = problem.ints().indices().is_empty();
    if has_none {
        page.put("  = help: INT lists no variable: is it left out?\n");
    }
    let faults = match faults {
        [RowFault::Shifted(by), others @ ..] => {
            write_shift(
                page,
                problem,
                *by,
                "all variables of this row are integer ones",
            );
            others
        }
        faults => faults,
    };
    for fault in &faults[..faults.len().min(MOST_SHOWN)] {
        match *fault {
            RowFault::Shifted(_) => {}
            RowFault::NotWhole(index, value) => {
                let name = VariableName(problem, index);
                write!(page, "    the coefficient {value} of {name} is not whole\n");
            }
            RowFault::NotInteger(index, Some(value)) => {
                let name = VariableName(problem, index);
                write!(
                    page,
                    "    {name} (variable {index}) is not an integer variable, "
                );
                write!(page, "and a listed solution has {value} there\n");
            }
            RowFault::NotInteger(index, None) if has_none => {
                let name = VariableName(problem, index);
                write!(
                    page,
                    "    {name} (variable {index}) is not an integer variable\n"
                );
            }
            RowFault::NotInteger(index, None) => {
                let name = VariableName(problem, index);
                write!(page, "    {name} is not an integer variable: ");
                write!(page, "is its index {index} left out after INT?\n");
            }
        }
    }
}
