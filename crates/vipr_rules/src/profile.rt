//! The profiles of the rules: the choices if the format leaves one.

ghost use Rattle.std.specs.Prelude.{◌↔◌, IsTrue};
ghost use Rattle.vipr_spec.specs.Constraint.{IsSplit};
ghost use Rattle.vipr_linear.specs.Constraint.{condition_of};

use vipr_linear::{Constraint, Ints, covers, is_split};

/// The rules by which a certificate is checked. Whatever is a proof under the first profile is one
/// under the second.
#[derive(Clone, Copy, Debug, PartialEq, Eq)]
pub enum Profile {
    /// Two assumptions split if their bounds are k and k + 1.
    One,
    /// Two assumptions split if no whole number is between their bounds, and a constraint may be
    /// rounded to prove a bound of an objective that is whole.
    Two,
}

impl Profile {
    ghost use Rattle.vipr_rules.specs.Profile.{profile_of};

    /// Whether the constraints split.
    pub(crate) fn splits(self, first: &Constraint, second: &Constraint, ints: &Ints) -> bool
        ensures { IsTrue result ↔ IsSplit (profile_of self) ints.now (condition_of first.now)
            (condition_of second.now) }
    {
        match self {
            Profile::One => is_split(first, second, ints),
            Profile::Two => covers(first, second, ints),
        }
    }
}
