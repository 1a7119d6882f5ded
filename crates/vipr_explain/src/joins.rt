//! Joins that may be meant in place of a refused one.

use crate::changes::{Change, is_moved};
use crate::near::{Join, is_turned};
use crate::sketch::Sketches;
use crate::sought::{Ranking, Refused, constraint_at};
use vipr_linear::Constraint;
use vipr_rules::Rows;

// What a case is ranked behind for that doesn't rest on its own assumption.
const UNUSED: u64 = 1 << 32;

/// Adds joins of the same four constraints, and then those with another one in the place of one,
/// the last ones first.
pub(crate) fn add_joins(
    ranking: &mut Ranking,
    refused: Refused<'_>,
    sketches: &Sketches,
    join: Join,
) {
    let Join { i1, l1, i2, l2 } = join;
    let named = [i1, l1, i2, l2];
    for l1 in named {
        for l2 in named {
            if are_sides(refused, sketches, l1, l2) {
                for i1 in named {
                    for i2 in named {
                        if is_case(refused, sketches, i1) && is_case(refused, sketches, i2) {
                            add_join(ranking, refused, 0, Join { i1, l1, i2, l2 });
                        }
                    }
                }
            }
        }
    }
    let own = refused.rows.next();
    let given = refused.problem.cons().len() as u32;
    for index in 0..own {
        let last = own - index;
        if is_case(refused, sketches, index) {
            add_join(
                ranking,
                refused,
                rank_of(i1, index, given, last),
                Join { i1: index, ..join },
            );
            add_join(
                ranking,
                refused,
                rank_of(i2, index, given, last),
                Join { i2: index, ..join },
            );
        }
        if are_sides(refused, sketches, index, l2) {
            add_join(
                ranking,
                refused,
                rank_of(l1, index, given, last),
                Join { l1: index, ..join },
            );
        }
        if are_sides(refused, sketches, index, l1) {
            add_join(
                ranking,
                refused,
                rank_of(l2, index, given, last),
                Join { l2: index, ..join },
            );
        }
    }
}

// What a join is ranked by that has an index in place of an old one: it comes first if that was
// counted from the first derivation on.
fn rank_of(old: u32, index: u32, given: u32, last: u32) -> u32 {
    if is_moved(old, index, given) { 0 } else { last }
}

// Adds a join whose cases are apart. Those come first of which each case rests on its own
// assumption.
fn add_join(ranking: &mut Ranking, refused: Refused<'_>, rank: u32, join: Join) {
    if are_apart(refused, join) {
        let mut rank = u64::from(rank);
        for (case, assumption) in [(join.i1, join.l1), (join.i2, join.l2)] {
            if !rests_on(refused, case, assumption) {
                rank = rank.saturating_add(UNUSED);
            }
        }
        ranking.add(rank, Change::Join(join));
    }
}

/// Whether each case of a join rests on its own assumption.
pub(crate) fn rest_on_own(refused: Refused<'_>, join: Join) -> bool {
    rests_on(refused, join.i1, join.l1) && rests_on(refused, join.i2, join.l2)
}

/// Whether a join looks like one that follows.
pub(crate) fn is_likely(refused: Refused<'_>, sketches: &Sketches, join: Join) -> bool {
    are_sides(refused, sketches, join.l1, join.l2)
        && is_case(refused, sketches, join.i1)
        && is_case(refused, sketches, join.i2)
        && are_apart(refused, join)
}

// Whether the cases of a join are two, and none rests on the assumption of the other one.
fn are_apart(refused: Refused<'_>, join: Join) -> bool {
    let Join { i1, l1, i2, l2 } = join;
    i1 != i2 && !rests_on(refused, i1, l2) && !rests_on(refused, i2, l1)
}

// Whether two constraints are assumptions that bound a row from both sides, as it looks.
fn are_sides(refused: Refused<'_>, sketches: &Sketches, index: u32, other: u32) -> bool {
    match (assumption_at(refused, index), assumption_at(refused, other)) {
        (Some(one), Some(another)) => {
            is_turned(one.sense, another.sense) && sketches.get(index) == sketches.get(other)
        }
        _ => false,
    }
}

// The assumption of an index.
fn assumption_at(refused: Refused<'_>, index: u32) -> Option<&Constraint> {
    let entry = refused.rows.get(index)?;
    entry.is_assumption.then_some(&entry.constraint)
}

// Whether a constraint may be a case: it is absurd, or has the row that is stated, as it looks.
fn is_case(refused: Refused<'_>, sketches: &Sketches, index: u32) -> bool {
    let stated = &refused.step.constraint;
    match constraint_at(refused, index) {
        Some(constraint) if constraint.is_absurd() => true,
        Some(_) => !stated.is_absurd() && sketches.get(index) == Some(sketches.stated()),
        None => false,
    }
}

// Whether a constraint rests on an assumption.
fn rests_on(refused: Refused<'_>, index: u32, assumption: u32) -> bool {
    match refused.rows.get(index) {
        Some(entry) => entry.assumptions.contains(assumption),
        None => false,
    }
}
