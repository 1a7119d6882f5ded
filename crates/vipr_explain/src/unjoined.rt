//! Two branches that prove a claim if they are joined, and aren't.

use crate::near::{Join, Near, NearSearch};
use crate::text::Subject;
use std::alloc::{AllocError, Global};
use vipr_cert::Problem;
use vipr_check::Table;
use vipr_linear::{Constraint, is_split};
use vipr_rules::{Assumptions, Rows, Target};

/// How many assumptions of other branches are tried.
const MOST_BRANCHES: usize = 8;

/// Finds a join with which a constraint proves the claim, if it rests on this assumption alone: the
/// other case rests on one assumption alone, too, and both assumptions split.
pub(crate) fn missing_join(
    subject: Subject<'_>,
    problem: &Problem,
    search: &NearSearch,
    strong: &Near,
    assumption: u32,
) -> Result<Option<Join>, AllocError> {
    let rows = &search.replay.rows;
    let is_there = rows.get(strong.index).is_some();
    let is_enough = is_there && is_proof(&search.target, &strong.constraint);
    if !is_enough || !is_alone(subject.alloc, &strong.assumptions, assumption)? {
        return Ok(None);
    }
    let others = other_branches(subject, problem, rows, assumption)?;
    let mut found = None;
    for index in 0..rows.next() {
        if let Some(entry) = rows.get(index) {
            if !entry.assumptions.is_empty() && is_proof(&search.target, &entry.constraint) {
                if let Some(other) = one_alone(subject.alloc, &entry.assumptions, &others)? {
                    found = Some(Join {
                        i1: strong.index,
                        l1: assumption,
                        i2: index,
                        l2: other,
                    });
                }
            }
        }
    }
    drop(others);
    Ok(found)
}

// Whether a constraint proves a case of what is wanted, without a rounding.
fn is_proof(target: &Target, constraint: &Constraint) -> bool {
    match target {
        Target::Absurdity => constraint.is_absurd(),
        Target::Bound(bound) | Target::WholeBound(bound) => constraint.dominates(bound),
        Target::Nothing => false,
    }
}

// Whether a set has this index alone.
fn is_alone(alloc: Global, assumptions: &Assumptions, index: u32) -> Result<bool, AllocError> {
    if !assumptions.contains(index) {
        return Ok(false);
    }
    let others = assumptions.without(alloc, index)?;
    let is_none = others.is_empty();
    drop(others);
    Ok(is_none)
}

// The one of these indices that is alone in a set.
fn one_alone(
    alloc: Global,
    assumptions: &Assumptions,
    indices: &[u32],
) -> Result<Option<u32>, AllocError> {
    for index in indices {
        if is_alone(alloc, assumptions, *index)? {
            return Ok(Some(*index));
        }
    }
    Ok(None)
}

// The first assumptions that split with this one.
fn other_branches(
    subject: Subject<'_>,
    problem: &Problem,
    rows: &Table,
    assumption: u32,
) -> Result<Vec<u32>, AllocError> {
    let mut found = Vec::new(subject.alloc);
    let Some(own) = rows.get(assumption) else {
        return Ok(found);
    };
    let mut room = subject.text.len();
    for index in 0..rows.next() {
        if let Some(entry) = rows.get(index) {
            let size = entry.constraint.row.entries().len();
            if entry.is_assumption && size <= room && found.len() < MOST_BRANCHES {
                room -= size;
                if is_split(&own.constraint, &entry.constraint, problem.ints()) {
                    found.push(index)?;
                }
            }
        }
    }
    Ok(found)
}
