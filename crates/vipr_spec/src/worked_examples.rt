//! That the definitions are met, and that they refuse.

ghost use Rattle.std.specs.Prelude.{◌^◌, ◌-◌, pos};
ghost use Rattle.vipr_spec.specs.{whole, IsBounded, Profile, IsProof};
ghost use Rattle.vipr_spec.specs.Examples.{example, assumed, dropped_example, too_large, optimum};

/// `x >= 1` and `x <= 0` are proved to have no point.
pub fn one_is_a_proof()
    ensures { (P : Profile) → IsProof P example }
{}

/// An optimum is proved by rounding, by two branches, and by a listed solution.
pub fn one_has_each_reason()
    ensures { (P : Profile) → IsProof P optimum }
{}

/// A constraint that is dropped at a step is not there at the next one.
pub fn dropped_ones_are_gone()
    ensures { (P : Profile) → ¬ IsProof P dropped_example }
{}

/// 2^127 - 1 fits, and a sum that is 2^127 refuses the certificate.
pub fn bounds_are_kept()
    ensures largest { IsBounded (whole (pos (2 ^ 127 - 1))) }
    ensures above { (P : Profile) → ¬ IsProof P too_large }
{}

/// What rests on an assumption proves nothing.
pub fn one_is_none()
    ensures { (P : Profile) → ¬ IsProof P assumed }
{}
