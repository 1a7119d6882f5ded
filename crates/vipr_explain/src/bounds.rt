//! Bounds of variables that a sum lacks.
ghost use Rattle.std.specs.Prelude.{◌≡◌, length};
ghost use Rattle.vipr_spec.specs.Certificate.{variables};

use crate::sought::{Refused, constraint_at, inverse, less_sum};
use std::alloc::AllocError;
use vipr_frac::Frac;
use vipr_linear::{Combination, Constraint, Sense};

/// How many bounds of variables a sum may lack.
const MOST_LACKED: usize = 8;

// What a sum lacks of a variable, and the best bound for it so far: its index, its multiplier, and
// what it adds to the right-hand side.
#[derive(Clone, Copy)]
struct Lack {
    variable: u32,
    coefficient: Frac,
    bound: Option<(u32, Frac, Frac)>,
}

/// For each variable that a sum of these entries lacks a multiple of, the multiple of the problem's
/// strongest bound that gives it, if there are at least two, and all have one.
pub(crate) fn bounds_for(
    refused: Refused<'_>,
    scratch: &mut Combination,
    entries: &[(u32, Frac)],
) -> Result<Option<Vec<(u32, Frac)>>, AllocError>
    requires { length scratch.old.sums ≡ variables refused.problem.now }
    ensures { length scratch.new.sums ≡ length scratch.old.sums }
{
    let stated = &refused.step.constraint;
    let Some(missing) = less_sum(refused, scratch, stated, Frac::one(), entries)? else {
        return Ok(None);
    };
    let lacked = missing.row.entries();
    if lacked.len() < 2 || lacked.len() > MOST_LACKED {
        drop(missing);
        return Ok(None);
    }
    let mut lacks = Vec::new(refused.subject.alloc);
    for entry in lacked {
        lacks.push(Lack {
            variable: entry.0,
            coefficient: entry.1,
            bound: None,
        })?;
    }
    drop(missing);
    let sense = sense_of(refused, entries);
    for index in 0..refused.problem.cons().len() as u32 {
        if let Some(constraint) = constraint_at(refused, index) {
            for lack in lacks.iter_mut() {
                lack.weigh(index, constraint, sense);
            }
        }
    }
    let mut found = Vec::new(refused.subject.alloc);
    for lack in &lacks {
        if let Some((index, multiplier, _)) = lack.bound {
            found.push((index, multiplier))?;
        }
    }
    let is_whole = found.len() == lacks.len();
    drop(lacks);
    if is_whole {
        Ok(Some(found))
    } else {
        drop(found);
        Ok(None)
    }
}

// The sense of the sum of these entries: that of the first one that has one, or else the stated
// one.
fn sense_of(refused: Refused<'_>, entries: &[(u32, Frac)]) -> Sense {
    for entry in entries {
        if let Some(constraint) = constraint_at(refused, entry.0) {
            let sense = given_sense(constraint.sense, entry.1);
            if sense != Sense::E {
                return sense;
            }
        }
    }
    refused.step.constraint.sense
}

// The sense that a constraint of this sense gives a sum with a multiplier.
fn given_sense(sense: Sense, multiplier: Frac) -> Sense {
    match sense {
        _ if multiplier.is_zero() => Sense::E,
        Sense::G if multiplier.numer() < 0 => Sense::L,
        Sense::L if multiplier.numer() < 0 => Sense::G,
        sense => sense,
    }
}

impl Lack {
    // Takes a constraint of this index if it is a bound of the variable that gives a sum this
    // sense, and a stronger one than what was found so far.
    fn weigh(&mut self, index: u32, constraint: &Constraint, sense: Sense) {
        let [(variable, coefficient)] = constraint.row.entries() else {
            return;
        };
        if *variable != self.variable {
            return;
        }
        if let Some((multiplier, side)) = self.multiple(*coefficient, constraint.rhs) {
            let given = given_sense(constraint.sense, multiplier);
            let is_better = match self.bound {
                Some((_, _, best)) if sense == Sense::L => side < best,
                Some((_, _, best)) => side > best,
                None => true,
            };
            if is_better && (given == Sense::E || given == sense) {
                self.bound = Some((index, multiplier, side));
            }
        }
    }

    // The multiplier with which a bound with this coefficient and side gives what is lacked, and
    // what it adds to the right-hand side.
    fn multiple(&self, coefficient: Frac, side: Frac) -> Option<(Frac, Frac)> {
        let multiplier = self.coefficient.mul(inverse(coefficient)?).ok()?;
        Some((multiplier, multiplier.mul(side).ok()?))
    }
}
