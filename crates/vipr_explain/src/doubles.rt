//! Numbers of a problem or a solution that are those of floating point.

use crate::algebra::size_of;
use crate::rounded::simple_near;
use vipr_frac::Frac;

/// The denominator from which on a power of two is one of floating point.
const LEAST_DENOMINATOR: i128 = 0x10_0000;

/// A fraction that is meant has a smaller denominator than this.
const BEYOND_SIMPLE: i32 = 65;

/// A number that is meant is off by less than one part of so many.
const PARTS: i128 = 0x100_0000_0000;

/// The fraction that is likely to be meant by a number that is rounded, or one of floating point.
pub(crate) fn exact_for(number: Frac) -> Option<Frac> {
    match simple_near(number) {
        Some(near) => Some(near),
        None => meant_by_double(number),
    }
}

/// The fraction with the least denominator that a number of floating point is near.
pub(crate) fn meant_by_double(number: Frac) -> Option<Frac> {
    if !is_double(number) {
        return None;
    }
    for denominator in 1..BEYOND_SIMPLE {
        let parts = Frac::new(i128::from(denominator), 1)
            .ok()?
            .mul(number)
            .ok()?;
        let half = Frac::new(1, 2).ok()?;
        let near = Frac::new(parts.add(half).ok()?.floor(), i128::from(denominator)).ok()?;
        if is_close(number, near)? {
            return Some(near);
        }
    }
    None
}

// Whether the denominator of a number is a large power of two.
fn is_double(number: Frac) -> bool {
    let below = number.denom().unsigned_abs();
    number.denom() >= LEAST_DENOMINATOR && below.is_power_of_two()
}

// Whether a number is off another one by less than a small part of it, or of 1.
fn is_close(number: Frac, near: Frac) -> Option<bool> {
    let off = size_of(number.add(near.neg()).ok()?);
    let parts = off.mul(Frac::new(PARTS, 1).ok()?).ok()?;
    Some(parts < Frac::one() || parts < size_of(near))
}
