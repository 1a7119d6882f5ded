//! Variables in the order of their names, as a program has them that sorts columns.

use crate::page::Page;
use crate::sought::Refused;
use crate::text::Subject;
use std::alloc::AllocError;
use vipr_cert::Problem;
use vipr_frac::Frac;
use vipr_linear::{Row, RowError};

/// How many names are sorted, if a part of the text's bytes isn't more.
const MOST_SORTED: usize = 1_000;

/// How many entries a row has at most that is compared with the objective.
const MOST_ENTRIES: usize = 1_000;

/// How many entries such a row has at least.
const LEAST_ENTRIES: usize = 3;

/// A stated row that is the objective's, but for the order of the variables.
#[derive(Clone, Copy)]
pub(crate) enum OtherOrder {
    /// It is the objective's if variables are counted in the order of their names.
    Named,
    /// It has the same variables, and the objective's coefficients at other ones of them.
    Other,
}

/// The variables in the order of their names, if they are few, and VAR has another order.
pub(crate) fn sorted_by_name(
    subject: Subject<'_>,
    problem: &Problem,
) -> Result<Option<Vec<u32>>, AllocError> {
    let names = problem.names();
    if names.len() > MOST_SORTED.max(subject.text.len() / 64) {
        return Ok(None);
    }
    let mut named = Vec::new(subject.alloc);
    for (index, name) in names.iter().enumerate() {
        named.push((name.as_bytes(), index as u32))?;
    }
    named.sort_unstable();
    let mut order = Vec::new(subject.alloc);
    let mut is_sorted = true;
    for (position, entry) in named.iter().enumerate() {
        order.push(entry.1)?;
        is_sorted = is_sorted && entry.1 as usize == position;
    }
    Ok(if is_sorted { None } else { Some(order) })
}

impl OtherOrder {
    /// Finds out whether the stated row of a derivation is such a one.
    pub(crate) fn find(refused: Refused<'_>) -> Result<Option<OtherOrder>, AllocError> {
        let stated = &refused.step.constraint.row;
        let objective = refused.problem.objective();
        let count = stated.entries().len();
        let is_alike = count == objective.entries().len() && !stated.is_same(objective);
        if !is_alike || count < LEAST_ENTRIES || count > MOST_ENTRIES {
            return Ok(None);
        }
        if is_objective_by_name(refused)? {
            return Ok(Some(OtherOrder::Named));
        }
        if !have_same_variables(stated, objective) {
            return Ok(None);
        }
        let of_stated = sorted_numbers(refused, stated)?;
        let of_objective = sorted_numbers(refused, objective)?;
        let are_same = of_stated.as_slice() == of_objective.as_slice();
        Ok(if are_same {
            Some(OtherOrder::Other)
        } else {
            None
        })
    }

    /// Asks about it.
    pub(crate) fn write(self, page: &mut Page) {
        page.put(match self {
            OtherOrder::Named => "  = help: with variables counted in the order of their names the \
                stated row is the objective's: are those of DER in that order, and not in VAR's?\n",
            OtherOrder::Other =>
                "  = help: the stated row has the objective's coefficients at other \
                variables: are those of DER in another order than in VAR?\n",
        });
    }
}

// Whether the stated row is the objective's if variables are counted in the order of their names.
fn is_objective_by_name(refused: Refused<'_>) -> Result<bool, AllocError> {
    let Some(order) = sorted_by_name(refused.subject, refused.problem)? else {
        return Ok(false);
    };
    let mut pairs = Vec::new(refused.subject.alloc);
    for entry in refused.step.constraint.row.entries() {
        match order.get(entry.0 as usize) {
            Some(variable) => pairs.push((*variable, entry.1))?,
            None => return Ok(false),
        }
    }
    match Row::from_pairs(refused.subject.alloc, pairs) {
        Ok(row) => Ok(row.is_same(refused.problem.objective())),
        Err(RowError::Memory) => Err(AllocError),
        Err(_) => Ok(false),
    }
}

// Whether two rows with as many entries have the same variables.
fn have_same_variables(one: &Row, other: &Row) -> bool {
    one.entries()
        .iter()
        .all(|entry| !other.coefficient(entry.0).is_zero())
}

// The coefficients of a row, sorted.
fn sorted_numbers(refused: Refused<'_>, row: &Row) -> Result<Vec<Frac>, AllocError> {
    let mut numbers = Vec::new(refused.subject.alloc);
    for entry in row.entries() {
        numbers.push(entry.1)?;
    }
    numbers.sort_unstable();
    Ok(numbers)
}
