//! A coefficient of a constraint, as a column keeps it.

ghost use Rattle.vipr_rules.specs.Columns.{IsCoefficientOf};

use vipr_frac::{Frac, ShortFrac};

/// A coefficient of a constraint, or its place there.
#[derive(Clone, Copy, Debug)]
pub(crate) enum Coefficient {
    /// A short one.
    Short(ShortFrac),
    /// The place of another one among the entries of the constraint.
    Listed(u32),
}

impl Coefficient {
    /// The coefficient of this value, which is at this place among the entries of its constraint.
    pub(crate) fn of(value: Frac, place: u32) -> Coefficient
        ensures { IsCoefficientOf value place result }
    {
        match ShortFrac::of(value) {
            Some(short) => Coefficient::Short(short),
            None => Coefficient::Listed(place),
        }
    }
}
