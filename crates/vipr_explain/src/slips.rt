//! Slips that all indices or all multipliers of a reason have, as those of a program that counts
//! from 1, or that scales a row.

use crate::changes::{Change, shifted};
use crate::joins::{is_likely, rest_on_own};
use crate::near::Join;
use crate::sketch::{Residue, Sketches};
use crate::sought::{Missing, Ranking, Refused, factor_between, inverse};
use std::alloc::AllocError;
use vipr_frac::Frac;

/// By how much indices are shifted, modulo 2^32.
pub(crate) const ONE_LESS: u32 = u32::MAX;

pub(crate) const ONE_MORE: u32 = 1;

/// How many lines it is asked for that are left out.
pub(crate) const MOST_LEFT_OUT: u32 = 4;

// How many indices are shifted at least: another one in the place of one is no slip of all.
const LEAST: usize = 2;

// The place of a factor among the slips: behind a shift of all indices.
const OF_FACTOR: u64 = 3;

// How many shifts there are of the indices from one on.
const SHIFTS: usize = 9;

// The place of the first shift by several, and what such a shift is ranked behind.
const FIRST_OF_SEVERAL: usize = 3;

const OF_SEVERAL: u64 = 1 << 32;

// A search for shifts of indices with which the rows of a sum look the same.
#[derive(Clone, Copy)]
struct ShiftSearch<'a> {
    sketches: &'a Sketches,
    /// The indices of the sum's entries, rising, with their multipliers.
    terms: &'a [(u32, Residue)],
    /// What the sum lacks.
    missing: Residue,
    /// How many constraints the problem has.
    given: u32,
}

/// Adds the factor by which all multipliers have to be multiplied for the stated row.
pub(crate) fn add_factor(
    ranking: &mut Ranking,
    refused: Refused<'_>,
    sketches: &Sketches,
    entries: &[(u32, Frac)],
    missing: &Missing,
) {
    if let Some(factor) = factor_of_all(refused, sketches, missing) {
        if entries.len() >= LEAST && factor != Frac::one() {
            ranking.add(OF_FACTOR, Change::Factor(factor));
        }
    }
}

// The number by which a sum has to be multiplied for the stated row, if it lacks this: -1 if
// neither has a variable.
fn factor_of_all(refused: Refused<'_>, sketches: &Sketches, missing: &Missing) -> Option<Frac> {
    let stated = &refused.step.constraint.row;
    if stated.is_empty() {
        return Some(Frac::one().neg());
    }
    let lacking = factor_between(stated, sketches.stated(), missing)?;
    inverse(Frac::one().add(lacking.neg()).ok()?)
}

/// Adds shifts of the indices of a sum from one on.
pub(crate) fn add_shifts(
    ranking: &mut Ranking,
    refused: Refused<'_>,
    sketches: &Sketches,
    entries: &[(u32, Frac)],
    missing: &Missing,
) -> Result<(), AllocError> {
    let mut terms = Vec::new(refused.subject.alloc);
    for entry in entries {
        terms.push((entry.0, Residue::of(entry.1)))?;
    }
    terms.sort_unstable_by_key(|term| term.0);
    let search = ShiftSearch {
        sketches,
        terms: terms.as_slice(),
        missing: missing.sketch,
        given: refused.problem.cons().len() as u32,
    };
    for (place, by) in shifts(search.given).iter().enumerate() {
        search.add(ranking, place, *by);
    }
    Ok(())
}

// By how much indices are shifted that a program counts from 1, without the first one, or in DER
// from 0; or if up to four lines are left out, or are too many.
fn shifts(given: u32) -> [u32; SHIFTS] {
    [
        ONE_LESS,
        ONE_MORE,
        given,
        less_by(2),
        2,
        less_by(3),
        3,
        less_by(4),
        4,
    ]
}

// The shift by so many less.
fn less_by(count: u32) -> u32 {
    0_u32.wrapping_sub(count)
}

// The rank of a shift, by its place among all and how many indices are before the first one that is
// shifted.
fn rank_of(place: usize, passed: usize) -> u64 {
    let several = if place < FIRST_OF_SEVERAL {
        0
    } else {
        OF_SEVERAL
    };
    let rank = (place as u64).saturating_add((passed as u64).saturating_mul(SHIFTS as u64));
    rank.saturating_add(several)
}

impl ShiftSearch<'_> {
    // Adds the shifts by so much, those of the most entries first.
    fn add(&self, ranking: &mut Ranking, place: usize, by: u32) {
        let mut gain = Residue::zero();
        let mut unknown: usize = 0;
        for term in self.terms {
            match self.gain_of(*term, by) {
                Some(more) => gain = gain.plus(more),
                None => unknown = unknown.saturating_add(1),
            }
        }
        let mut before = None;
        for (passed, term) in self.terms.iter().enumerate() {
            let index = term.0;
            let is_enough = self.terms.len().saturating_sub(passed) >= LEAST;
            if before != Some(index) && is_enough && unknown == 0 && gain == self.missing {
                let from = start_of(index, before, self.given);
                ranking.add(rank_of(place, passed), Change::Shift(from, by));
            }
            before = Some(index);
            match self.gain_of(*term, by) {
                Some(more) => gain = gain.minus(more),
                None => unknown = unknown.saturating_sub(1),
            }
        }
    }

    // What a sum gains if an entry is of the constraint so much behind its own, if there is one.
    fn gain_of(&self, term: (u32, Residue), by: u32) -> Option<Residue> {
        let (index, multiplier) = term;
        let moved = self.sketches.get(index.wrapping_add(by))?;
        Some(multiplier.times(moved.minus(self.sketches.get_or_zero(index))))
    }
}

// From which index on indices are said to be shifted, if this is the first one, and the last one
// before it is known: all, or all derivations, if that is the same.
fn start_of(first: u32, before: Option<u32>, given: u32) -> u32 {
    match before {
        None => 0,
        Some(last) if last < given && given <= first => given,
        Some(_) => first,
    }
}

/// Adds shifts of the indices of a join from one on.
pub(crate) fn add_shifted_joins(
    ranking: &mut Ranking,
    refused: Refused<'_>,
    sketches: &Sketches,
    join: Join,
) {
    let given = refused.problem.cons().len() as u32;
    let named = [join.i1, join.l1, join.i2, join.l2];
    for (place, by) in shifts(given).iter().enumerate() {
        for first in named {
            let mut passed: usize = 0;
            let mut before = None;
            for index in named {
                if index < first {
                    passed = passed.saturating_add(1);
                    before = Some(before.unwrap_or(0).max(index));
                }
            }
            let from = start_of(first, before, given);
            let meant = shifted_join(join, from, *by);
            if passed.saturating_add(LEAST) <= named.len() && is_likely(refused, sketches, meant) {
                ranking.add(rank_of(place, passed), Change::Shift(from, *by));
            }
        }
        let Join { i1, l1, i2, l2 } = join;
        let cases = Join {
            i1: i1.wrapping_add(*by),
            i2: i2.wrapping_add(*by),
            ..join
        };
        let assumptions = Join {
            l1: l1.wrapping_add(*by),
            l2: l2.wrapping_add(*by),
            ..join
        };
        for meant in [cases, assumptions] {
            if is_likely(refused, sketches, meant) && rest_on_own(refused, meant) {
                ranking.add(rank_of(place, named.len()), Change::Join(meant));
            }
        }
    }
}

// A join with its indices shifted.
fn shifted_join(join: Join, from: u32, by: u32) -> Join {
    Join {
        i1: shifted(join.i1, from, by),
        l1: shifted(join.l1, from, by),
        i2: shifted(join.i2, from, by),
        l2: shifted(join.l2, from, by),
    }
}
