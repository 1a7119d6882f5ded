//! Constraints and points, computed.

ghost use Rattle.std.specs.Prelude.{Some, [], negsuc, pos, ◌∷◌, ◌≡◌};
ghost use Rattle.vipr_spec.specs.Certificate.{IsAsGood, NeedsGoal, dual_bound, infeasible, maximum};
ghost use Rattle.vipr_spec.specs.Certificate.{minimum, primal_bound, reaches, stays, variables};
ghost use Rattle.vipr_spec.specs.Constraint.{Compares, LeavesNone, PartialSumsFit, at_least};
ghost use Rattle.vipr_spec.specs.Constraint.{at_most, equal, one, pull, signed_multiplier};
ghost use Rattle.vipr_spec.specs.Constraint.{sum_over, value};
ghost use Rattle.vipr_spec.specs.Fraction.{over, whole, zero_ℚ};
ghost use Rattle.vipr_spec.specs.{Examples.apart, Soundness.point_over};

/// Values at points of one or two variables.
pub fn values()
    ensures value_is { value 2 (λ j. whole (pos 2)) (λ j. whole (pos 3)) ≡ whole (pos 12) }
    ensures sum_over_is { sum_over (λ q. q) (whole (pos 1) ∷ whole (negsuc 0) ∷ []) ≡ zero_ℚ }
    ensures point_over_is { point_over (λ j. pos 4) 2 0 ≡ whole (pos 2) }
    ensures signed_multiplier_is { (signed_multiplier (whole (pos 2)) at_least ≡ whole (pos 2))
        × (signed_multiplier (whole (pos 2)) at_most ≡ whole (negsuc 1))
        × (signed_multiplier (whole (pos 2)) equal ≡ zero_ℚ) }
    ensures pull_is { pull (
      whole
          (negsuc 0),
      record { row = λ j. zero_ℚ; sense = at_most; bound = zero_ℚ },
    ) ≡ whole
        (pos 1) }
    ensures Compares_is { Compares at_most (whole (pos 2)) (whole (pos 3)) }
    ensures PartialSumsFit_is { PartialSumsFit zero_ℚ (over (pos 1) 2 ∷ over (pos 1) 3 ∷ []) }
    ensures LeavesNone_is { LeavesNone one zero_ℚ (whole (pos 1)) }
{}

/// Claims and problems.
pub fn claims()
    ensures variables_is { variables apart ≡ 1 }
    ensures IsAsGood_is { IsAsGood minimum (whole (pos 1)) (whole (pos 2)) }
    ensures dual_bound_is { (dual_bound minimum (Some (whole (pos 1))) (Some (whole (pos 3)))
        ≡ Some (whole (pos 1)))
        × (dual_bound maximum (Some (whole (pos 1))) (Some (whole (pos 3)))
        ≡ Some (whole (pos 3))) }
    ensures primal_bound_is { (primal_bound minimum (Some (whole (pos 1))) (Some (whole (pos 3)))
        ≡ Some (whole (pos 3))) × (primal_bound maximum (Some (whole (pos 1))) (Some (whole
        (pos 3))) ≡ Some (whole (pos 1))) }
    ensures reaches_is { (reaches minimum ≡ at_most) × (reaches maximum ≡ at_least) }
    ensures stays_is { (stays minimum ≡ at_least) × (stays maximum ≡ at_most) }
    ensures NeedsGoal_is { NeedsGoal apart infeasible }
{}
