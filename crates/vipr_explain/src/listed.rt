//! Listed solutions, which refute some guesses.

use crate::items::open_problem;
use crate::text::{Reread, Subject};
use std::alloc::{AllocError, Global};
use vipr_bytes::Bytes;
use vipr_cert::Named;
use vipr_frac::Frac;
use vipr_linear::{Constraint, Solution, compares, value_at};
use vipr_read::Solutions;
use vipr_scan::TextError;

/// How many listed solutions are asked.
const MOST_ASKED: u32 = 10;

/// The first listed solutions.
#[derive(Drop)]
pub(crate) struct FirstSolutions {
    listed: Vec<Named<Solution>>,
}

impl FirstSolutions {
    /// Reads them: none if the text can't be read again.
    pub(crate) fn find(subject: Subject<'_>) -> Result<FirstSolutions, AllocError> {
        match read_listed(subject) {
            Ok(listed) => Ok(FirstSolutions { listed }),
            Err(TextError::Memory) => Err(AllocError),
            Err(_) => Ok(FirstSolutions {
                listed: Vec::new(subject.alloc),
            }),
        }
    }

    /// A value of a variable that isn't whole.
    pub(crate) fn fraction_of(&self, variable: u32) -> Option<Frac> {
        for named in &self.listed {
            let value = named.item.0.coefficient(variable);
            if !value.is_whole() {
                return Some(value);
            }
        }
        None
    }

    /// Whether one of them breaks a constraint if so many times the value of a variable is added
    /// to its left side, for each of these.
    pub(crate) fn refute(&self, constraint: &Constraint, changes: &[(u32, Frac)]) -> bool {
        for named in &self.listed {
            let solution = &named.item;
            if let Some(left) = left_side(constraint, solution, changes) {
                if !compares(constraint.sense, left, constraint.rhs) {
                    return true;
                }
            }
        }
        false
    }
}

// Reads the problem of a text, and its first solutions.
fn read_listed(subject: Subject<'_>) -> Reread<Vec<Named<Solution>>> {
    let (problem, mut solutions) = open_problem(subject.alloc, subject.text)?;
    drop(problem);
    let listed = read_first(subject.alloc, &mut solutions);
    drop(solutions);
    listed
}

// Reads the first solutions.
fn read_first(alloc: Global, solutions: &mut Solutions<Bytes<'_>>) -> Reread<Vec<Named<Solution>>> {
    let mut listed = Vec::new(alloc);
    let count = solutions.left().min(MOST_ASKED);
    for _ in 0..count {
        if let Some(solution) = solutions.next(alloc)? {
            push_named(&mut listed, solution)?;
        }
    }
    Ok(listed)
}

// Keeps a solution.
fn push_named(
    listed: &mut Vec<Named<Solution>>,
    solution: Named<Solution>,
) -> Result<(), AllocError> {
    listed.push(solution)?;
    Ok(())
}

// The left side of a constraint at a solution, with multiples of two variables added; none past
// the limit.
fn left_side(
    constraint: &Constraint,
    solution: &Solution,
    changes: &[(u32, Frac)],
) -> Option<Frac> {
    let mut left = value_at(&constraint.row, solution).ok()?;
    for change in changes {
        let more = change.1.mul(solution.0.coefficient(change.0)).ok()?;
        left = left.add(more).ok()?;
    }
    Some(left)
}
