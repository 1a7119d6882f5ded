//! The multipliers with which the sum of the same constraints has the stated row, by exact algebra.

use crate::algebra::size_of;
use crate::rounded::{may_be_rounded, simple_near};
use crate::sought::{Refused, constraint_at, inverse};
use crate::sums::{Relation, SumSlip};
use std::alloc::AllocError;
use std::mem::replace;
use vipr_frac::Frac;
use vipr_linear::{Row, Sense};

/// Sums of more entries than these aren't solved.
const MOST_SOLVED: usize = 12;

/// The coefficients of so many variables of each row are compared.
const MOST_COMPARED: usize = 8;

/// A whole number is meant by a rounded one if that is off by no more than one of so many parts
/// of 1.
const PARTS_OF_NEAR: i128 = 20;

/// A multiplier that is found has no larger denominator.
const MOST_DENOMINATOR: i128 = 1_000;

// That the sum of the multipliers, each times its coefficient, is the right-hand side.
#[derive(Clone, Copy)]
struct Equation {
    /// By the positions of the entries, and 0 after the last one.
    coefficients: [Frac; MOST_SOLVED],
    side: Frac,
}

// An equation with the position of a multiplier that it has for itself: no other one that is solved
// has it.
#[derive(Clone, Copy)]
struct Solved {
    position: usize,
    equation: Equation,
}

// Equations that are solved.
#[derive(Drop)]
struct System {
    solved: Vec<Solved>,
}

/// Entries of the constraints of a sum with the multipliers with which it has the stated row, if at
/// least two are other ones, and what is likely then.
pub(crate) fn solved_entries(
    refused: Refused<'_>,
    entries: &[(u32, Frac)],
) -> Result<Option<(Vec<(u32, Frac)>, SumSlip)>, AllocError> {
    if entries.len() < 2 || entries.len() > MOST_SOLVED {
        return Ok(None);
    }
    let mut system = System {
        solved: Vec::new(refused.subject.alloc),
    };
    let is_sound = or_drop!(system.add_rows(refused, entries), system);
    let found = if is_sound {
        system.other_entries(refused, entries)
    } else {
        Ok(None)
    };
    drop(system);
    found
}

// How multipliers that are found differ from those that are written.
#[derive(Clone, Copy)]
struct MultiplierChanges {
    count: usize,
    /// Whether each that is another one has the other sign.
    are_turned: bool,
    /// Whether each of an equation does that isn't 0, and none else.
    are_of_equations: bool,
    /// Whether each is 1 divided by the one that is written.
    are_inverse: bool,
    /// Whether each differs by less than 1.
    are_close: bool,
}

impl MultiplierChanges {
    // None.
    fn none() -> MultiplierChanges {
        MultiplierChanges {
            count: 0,
            are_turned: true,
            are_of_equations: true,
            are_inverse: true,
            are_close: true,
        }
    }

    // Adds a multiplier that is meant in place of one, which may be the same.
    fn add(&mut self, is_equation: bool, present: Frac, meant: Frac) {
        let is_other = present != meant;
        self.are_of_equations = self.are_of_equations
            && (is_other == is_equation || meant.is_zero());
        if is_other {
            self.count = self.count.saturating_add(1);
            self.are_turned = self.are_turned && meant == present.neg();
            self.are_inverse = self.are_inverse && inverse(present) == Some(meant);
            self.are_close = self.are_close && is_close(present, meant) == Some(true);
        }
    }

    // What all of them have in common.
    fn relation(&self) -> Relation {
        if self.are_turned && self.are_of_equations {
            Relation::SignsOfEquations
        } else if self.are_turned {
            Relation::Signs
        } else if self.are_inverse {
            Relation::Inverses
        } else if self.are_close {
            Relation::Rounded
        } else {
            Relation::Nothing
        }
    }
}

// Whether a multiplier may be another one that was rounded or cut. None past the limit.
fn is_close(present: Frac, meant: Frac) -> Option<bool> {
    let off = size_of(meant.add(present.neg()).ok()?);
    Some(off.numer() < off.denom())
}

// Whether the constraint of an index is an equation.
fn is_equation(refused: Refused<'_>, index: u32) -> bool {
    match constraint_at(refused, index) {
        Some(constraint) => constraint.sense == Sense::E,
        None => false,
    }
}

impl System {
    // Adds the equations of the variables that come first in the rows, until each multiplier has
    // one. The answer is whether none contradicts others, and all numbers fit.
    fn add_rows(
        &mut self,
        refused: Refused<'_>,
        entries: &[(u32, Frac)],
    ) -> Result<bool, AllocError> {
        if !self.add_row(refused, entries, &refused.step.constraint.row)? {
            return Ok(false);
        }
        for entry in entries {
            let Some(constraint) = constraint_at(refused, entry.0) else {
                return Ok(false);
            };
            let is_open = self.solved.len() < entries.len();
            if is_open && !self.add_row(refused, entries, &constraint.row)? {
                return Ok(false);
            }
        }
        Ok(true)
    }

    // The same for one row.
    fn add_row(
        &mut self,
        refused: Refused<'_>,
        entries: &[(u32, Frac)],
        row: &Row,
    ) -> Result<bool, AllocError> {
        let variables = row.entries();
        for term in &variables[..variables.len().min(MOST_COMPARED)] {
            if !self.add(refused, entries, term.0)? {
                return Ok(false);
            }
        }
        Ok(true)
    }

    // The same for one variable.
    fn add(
        &mut self,
        refused: Refused<'_>,
        entries: &[(u32, Frac)],
        variable: u32,
    ) -> Result<bool, AllocError> {
        let Some(rest) = self.rest_of(refused, entries, variable) else {
            return Ok(false);
        };
        let Some(position) = rest.chosen(refused, entries) else {
            return Ok(rest.side.is_zero());
        };
        let Some(own) = rest.solved_for(position) else {
            return Ok(false);
        };
        let mut others = Vec::new(refused.subject.alloc);
        for known in &self.solved {
            let Some(equation) = known.equation.without(position, &own) else {
                return Ok(false);
            };
            others.push(Solved {
                position: known.position,
                equation,
            })?;
        }
        others.push(Solved {
            position,
            equation: own,
        })?;
        drop(replace(&mut self.solved, others));
        Ok(true)
    }

    // The equation of a variable without the multipliers that have one for themselves.
    fn rest_of(
        &self,
        refused: Refused<'_>,
        entries: &[(u32, Frac)],
        variable: u32,
    ) -> Option<Equation> {
        let mut rest = equation_of(refused, entries, variable)?;
        for known in &self.solved {
            rest = rest.without(known.position, &known.equation)?;
        }
        Some(rest)
    }

    // The entries with the multipliers that are found, if at least two are other ones, and what is
    // likely then.
    fn other_entries(
        &self,
        refused: Refused<'_>,
        entries: &[(u32, Frac)],
    ) -> Result<Option<(Vec<(u32, Frac)>, SumSlip)>, AllocError> {
        let mut others = Vec::new(refused.subject.alloc);
        let mut changes = MultiplierChanges::none();
        for (position, entry) in entries.iter().enumerate() {
            let (index, present) = *entry;
            let Some(multiplier) = self.multiplier(entries, position) else {
                drop(others);
                return Ok(None);
            };
            changes.add(is_equation(refused, index), present, multiplier);
            others.push((index, multiplier))?;
        }
        if changes.count < 2 {
            drop(others);
            return Ok(None);
        }
        Ok(Some((others, SumSlip::Multipliers(changes.relation()))))
    }

    // The multiplier of a position, if it fits and is a simple number. One that no equation has for
    // itself stays, but for its being rounded.
    fn multiplier(&self, entries: &[(u32, Frac)], position: usize) -> Option<Frac> {
        for known in &self.solved {
            if known.position == position {
                return known.multiplier(entries);
            }
        }
        kept_multiplier(entries, position)
    }
}

impl Solved {
    // The multiplier that the equation has for itself, if those stay that none has.
    fn multiplier(&self, entries: &[(u32, Frac)]) -> Option<Frac> {
        let mut multiplier = self.equation.side;
        for (position, coefficient) in self.equation.coefficients.iter().enumerate() {
            if position != self.position && !coefficient.is_zero() {
                let product = coefficient.mul(kept_multiplier(entries, position)?).ok()?;
                multiplier = multiplier.add(product.neg()).ok()?;
            }
        }
        (multiplier.denom() <= MOST_DENOMINATOR).then_some(multiplier)
    }
}

// The multiplier of a position as it is, or the fraction that it is likely to be rounded from.
fn kept_multiplier(entries: &[(u32, Frac)], position: usize) -> Option<Frac> {
    let present = entries.get(position)?.1;
    if !may_be_rounded(present) {
        return Some(present);
    }
    let half = Frac::new(1, 2).ok()?;
    let near = Frac::new(present.add(half).ok()?.floor(), 1).ok()?;
    let off = size_of(near.add(present.neg()).ok()?);
    if !near.is_zero() && off.numer() <= off.denom() / PARTS_OF_NEAR {
        return Some(near);
    }
    Some(simple_near(present).unwrap_or(present))
}

// What the coefficients of a variable have to be.
fn equation_of(refused: Refused<'_>, entries: &[(u32, Frac)], variable: u32) -> Option<Equation> {
    let mut equation = Equation {
        coefficients: [Frac::zero(); MOST_SOLVED],
        side: refused.step.constraint.row.coefficient(variable),
    };
    for (position, entry) in entries.iter().enumerate() {
        if position < MOST_SOLVED {
            let constraint = constraint_at(refused, entry.0)?;
            equation.coefficients[position] = constraint.row.coefficient(variable);
        }
    }
    Some(equation)
}

impl Equation {
    // Its coefficient at a position.
    fn at(&self, position: usize) -> Frac {
        match self.coefficients.get(position) {
            Some(coefficient) => *coefficient,
            None => Frac::zero(),
        }
    }

    // It with the coefficient 1 at a position.
    fn solved_for(&self, position: usize) -> Option<Equation> {
        self.times(inverse(self.at(position))?)
    }

    // It less the multiple of another one, which has the coefficient 1 at a position, with which it
    // has none there.
    fn without(&self, position: usize, other: &Equation) -> Option<Equation> {
        let product = other.times(self.at(position).neg())?;
        let mut sum = *self;
        for place in 0..MOST_SOLVED {
            let coefficient = self.coefficients[place];
            sum.coefficients[place] = coefficient.add(product.coefficients[place]).ok()?;
        }
        sum.side = self.side.add(product.side).ok()?;
        Some(sum)
    }

    // A multiple of it.
    fn times(&self, factor: Frac) -> Option<Equation> {
        let mut product = *self;
        for place in 0..MOST_SOLVED {
            product.coefficients[place] = self.coefficients[place].mul(factor).ok()?;
        }
        product.side = self.side.mul(factor).ok()?;
        Some(product)
    }

    // The position that it is solved for: of those with a coefficient the one whose multiplier has
    // the largest denominator, since that is the likeliest to be rounded; of two alike an equation,
    // whose sign is the likelier to be wrong.
    fn chosen(&self, refused: Refused<'_>, entries: &[(u32, Frac)]) -> Option<usize> {
        let mut chosen = None;
        let mut largest = (0, false);
        for (position, entry) in entries.iter().enumerate() {
            if position < MOST_SOLVED && !self.coefficients[position].is_zero() {
                let (denominator, is_one) = (entry.1.denom(), is_equation(refused, entry.0));
                let is_like = denominator == largest.0 && is_one && !largest.1;
                if denominator > largest.0 || is_like {
                    largest = (denominator, is_one);
                    chosen = Some(position);
                }
            }
        }
        chosen
    }
}
