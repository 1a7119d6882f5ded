//! Sketches of rows: numbers that differ if rows do, as far as chance allows, and are short.
//!
//! The sketch of a sum of rows is the sum of their sketches. Two rows that differ may have the same
//! one, but hardly ever do: whether a change mends a sum, the rule decides.

use crate::sought::{Refused, constraint_at};
use std::alloc::AllocError;
use vipr_frac::Frac;
use vipr_linear::Row;
use vipr_rules::Rows;

// The prime 2^31 - 1.
const PRIME: u64 = 0x7fff_ffff;

/// The remainder of a number after division by a prime.
#[derive(Clone, Copy, PartialEq, Eq)]
pub(crate) struct Residue(u32);

impl Residue {
    /// That of 0.
    pub(crate) fn zero() -> Residue {
        Residue(0)
    }

    /// That of a fraction.
    pub(crate) fn of(number: Frac) -> Residue {
        let numerator = Residue::of_whole(number.numer());
        match number.denom() {
            1 => numerator,
            denominator => numerator.times(Residue::of_whole(denominator).inverse()),
        }
    }

    // That of a whole number. (Most are short, and the long division takes its time.)
    fn of_whole(number: i128) -> Residue {
        if let Ok(short) = u64::try_from(number) {
            return Residue::reduced(short);
        }
        match u64::try_from(number.rem_euclid(i128::from(PRIME))) {
            Ok(rest) => Residue::reduced(rest),
            Err(_) => Residue(0),
        }
    }

    // That of a natural number.
    fn reduced(number: u64) -> Residue {
        Residue((number % PRIME) as u32)
    }

    /// Its number, below the prime.
    pub(crate) fn number(self) -> u32 {
        self.0
    }

    /// That of the sum.
    pub(crate) fn plus(self, other: Residue) -> Residue {
        Residue::reduced(u64::from(self.0) + u64::from(other.0))
    }

    /// That of the difference.
    pub(crate) fn minus(self, other: Residue) -> Residue {
        self.plus(other.times(Residue(PRIME as u32 - 1)))
    }

    /// That of the product.
    pub(crate) fn times(self, other: Residue) -> Residue {
        Residue::reduced(u64::from(self.0).wrapping_mul(u64::from(other.0)))
    }

    // The one whose product with it is that of 1, if it isn't that of 0: its power by the prime
    // less 2, which is 29 ones, a zero and a one in binary digits.
    fn inverse(self) -> Residue {
        let mut power = self;
        for _ in 0..28 {
            power = power.times(power).times(self);
        }
        power = power.times(power);
        power.times(power).times(self)
    }
}

/// The sketch of a row.
pub(crate) fn sketch_of(row: &Row) -> Residue {
    let mut sum = Residue::zero();
    for entry in row.entries() {
        sum = sum.plus(Residue::of(entry.1).times(weight_of(entry.0)));
    }
    sum
}

// What the coefficient of a variable is multiplied by: a number that looks like a random one.
fn weight_of(variable: u32) -> Residue {
    let spread = (u64::from(variable) + 1).wrapping_mul(0x9e37_79b9_7f4a_7c15);
    let mixed = (spread ^ (spread / 0x4000_0000)).wrapping_mul(0xbf58_476d_1ce4_e5b9);
    let mixed = (mixed ^ (mixed / 0x800_0000)).wrapping_mul(0x94d0_49bb_1331_11eb);
    Residue::reduced(mixed ^ (mixed / 0x8000_0000))
}

/// The sketches of what a refused derivation states, and of the constraints that it may refer to.
#[derive(Drop)]
pub(crate) struct Sketches {
    stated: Residue,
    /// By their indices.
    constraints: Vec<Option<Residue>>,
}

impl Sketches {
    /// Goes through each row once, and through the objective's once for all that are the same.
    pub(crate) fn find(refused: Refused<'_>) -> Result<Sketches, AllocError> {
        let objective = refused.problem.objective();
        let of_objective = sketch_of(objective);
        let mut constraints = Vec::new(refused.subject.alloc);
        for index in 0..refused.rows.next() {
            let sketch = match constraint_at(refused, index) {
                Some(constraint) if constraint.row.is_same(objective) => Some(of_objective),
                Some(constraint) => Some(sketch_of(&constraint.row)),
                None => None,
            };
            constraints.push(sketch)?;
        }
        Ok(Sketches {
            stated: sketch_of(&refused.step.constraint.row),
            constraints,
        })
    }

    /// The sketch of the row that is stated.
    pub(crate) fn stated(&self) -> Residue {
        self.stated
    }

    /// The sketch of a constraint's row, if a derivation may refer to it.
    pub(crate) fn get(&self, index: u32) -> Option<Residue> {
        *self.constraints.get(index as usize)?
    }

    /// The sketch of a constraint's row, or that of an empty one for another constraint.
    pub(crate) fn get_or_zero(&self, index: u32) -> Residue {
        self.get(index).unwrap_or(Residue::zero())
    }
}
