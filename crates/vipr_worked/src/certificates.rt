//! A certificate of two constraints and one derivation (`example` of `Examples.antt`),
//! computed.

ghost use Rattle.std.specs.Prelude.{None, Some, [], false, true, ◌≡◌};
ghost use Rattle.vipr_spec.specs.Certificate.{asm, constraint_at, count, count_held, is_assumption};
ghost use Rattle.vipr_spec.specs.Certificate.{is_live, known_at, lasts_to, lin, peak, reason_at};
ghost use Rattle.vipr_spec.specs.Certificate.{sol, no_constraint};
ghost use Rattle.vipr_spec.specs.Examples.{both, dropped_example, example};
ghost use Rattle.vipr_spec.specs.{Constraint.at_least, Steps.before};

/// What is known by index.
pub fn by_index()
    ensures count_is { count example ≡ 3 }
    ensures constraint_at_is { (constraint_at example 2).sense ≡ at_least }
    ensures reason_at_is { (reason_at example 0 ≡ None) × (reason_at example 2
        ≡ Some (lin both)) }
    ensures known_at_is { (known_at example 2).reason ≡ Some (lin both) }
    ensures no_constraint_is { known_at example 3 ≡ no_constraint }
    ensures before_is { (before example 2).derivations ≡ [] }
    ensures count_held_is { count_held example 2 ≡ 1 }
    ensures peak_is { peak example ≡ 1 }
{}

/// What is live.
pub fn alive()
    ensures is_assumption_is { (is_assumption (Some asm) ≡ true) × (is_assumption (Some sol)
        ≡ false) }
    ensures lasts_to_is { (lasts_to 6 (Some 6) ≡ true) × (lasts_to 7 (Some 6) ≡ false)
        × (lasts_to 7 None ≡ true) }
    ensures is_live_is { (is_live dropped_example 3 0 ≡ true) × (is_live dropped_example 3 2
        ≡ false) }
{}
