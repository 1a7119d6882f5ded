//! Numbers that are likely to be rounded, as those of floating point.

use crate::algebra::size_of;
use std::alloc::{AllocError, Global};
use vipr_frac::Frac;

/// The least denominator of a number that may be a rounded one.
const LEAST_DENOMINATOR: i128 = 100;

/// A fraction that may be meant by one has a smaller denominator than this.
const BEYOND_SIMPLE: i32 = 65;

/// The denominator from which on a power of two is one of floating point.
const LEAST_OF_FLOAT: i128 = 0x10_0000;

/// In a sum of more entries than these no multiplier counts as rounded.
const MOST_ROUNDED: usize = 1_000;

/// Whether a number may be a rounded one.
pub(crate) fn may_be_rounded(number: Frac) -> bool {
    number.denom() >= LEAST_DENOMINATOR
}

/// The fraction with the least denominator that is nearer to a number than one part of that
/// number's large denominator.
pub(crate) fn simple_near(number: Frac) -> Option<Frac> {
    if number.denom() < LEAST_DENOMINATOR {
        return None;
    }
    for denominator in 1..BEYOND_SIMPLE {
        let near = nearest_of(number, i128::from(denominator))?;
        if is_near(number, near)? {
            return Some(near);
        }
    }
    None
}

/// Whether a fraction is likely to be meant by a number that is rounded.
pub(crate) fn is_rounded(present: Frac, meant: Frac) -> bool {
    meant.denom() < i128::from(BEYOND_SIMPLE) && simple_near(present) == Some(meant)
}

// The fraction with this denominator that is nearest to a number, if it fits.
fn nearest_of(number: Frac, denominator: i128) -> Option<Frac> {
    let parts = number.mul(Frac::new(denominator, 1).ok()?).ok()?;
    let half = Frac::new(1, 2).ok()?;
    Frac::new(parts.add(half).ok()?.floor(), denominator).ok()
}

// Whether a number is nearer to another one than one part of its denominator, if that fits.
fn is_near(number: Frac, near: Frac) -> Option<bool> {
    let off = size_of(number.add(near.neg()).ok()?);
    let parts = off.mul(Frac::new(number.denom(), 1).ok()?).ok()?;
    Some(parts.numer() < parts.denom())
}

/// Whether a number is one of floating point, by which a fraction is meant.
pub(crate) fn is_float(number: Frac) -> bool {
    let mut rest = number.denom();
    if rest < LEAST_OF_FLOAT {
        return false;
    }
    for _ in 0..127 {
        if rest % 2 == 0 {
            rest /= 2;
        }
    }
    rest == 1 && simple_near(number).is_some()
}

/// Entries with the fraction in the place of each multiplier that may be rounded, and the first
/// such multiplier. There are none if no multiplier may be, or one with a large denominator isn't.
pub(crate) fn unrounded(
    alloc: Global,
    entries: &[(u32, Frac)],
) -> Result<Option<(Vec<(u32, Frac)>, Frac)>, AllocError> {
    let mut meant = Vec::new(alloc);
    let mut first = None;
    if entries.len() > MOST_ROUNDED {
        return Ok(None);
    }
    for entry in entries {
        let (index, present) = *entry;
        if present.denom() < LEAST_DENOMINATOR {
            meant.push(*entry)?;
        } else if let Some(near) = simple_near(present) {
            meant.push((index, near))?;
            if first.is_none() {
                first = Some(present);
            }
        } else {
            return Ok(None);
        }
    }
    match first {
        Some(first) => Ok(Some((meant, first))),
        None => Ok(None),
    }
}
