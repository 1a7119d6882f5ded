//! Kinds of token, computed.

ghost use Rattle.std.specs.Prelude.{Err, None, Ok, Some, [], codes, false, pos, true, ◌∷◌, ◌≡◌};
ghost use Rattle.vipr_spec.specs.Number.{too_large, zero_denominator};
ghost use Rattle.vipr_spec.specs.Reading.{at_most_or, below, bound_of, by_lin, or_cause, count_of};
ghost use Rattle.vipr_spec.specs.Reading.{derivation_count_of, has_range_of, is_nonzero, last_of};
ghost use Rattle.vipr_spec.specs.Reading.{name_of, new_variable_of, number_cause, number_of};
ghost use Rattle.vipr_spec.specs.Reading.{reference_of, rule_of, some_of, spelled_direction};
ghost use Rattle.vipr_spec.specs.Reading.{spelled_sense, unless_among, variable_of, word_of};
ghost use Rattle.vipr_spec.specs.{Causes.bad_count, Causes.count_too_large, Certificate.maximum};
ghost use Rattle.vipr_spec.specs.{Constraint.at_least, Fraction.over, Fraction.zero_ℚ};

/// What a token means, or its cause.
pub fn meant()
    ensures word_of_is { (word_of (codes "VAR") 2 (codes "VAR") ≡ Ok tt)
        × (word_of (codes "VAR") 2 (codes "var") ≡ Err 2) }
    ensures name_of_is { name_of (codes "x_1") ≡ Ok (codes "x_1") }
    ensures at_most_or_is { (at_most_or 3 (Some 4) bad_count count_too_large ≡ Err 8)
        × (at_most_or 3 None bad_count count_too_large ≡ Err 7) }
    ensures count_of_is { (count_of (codes "12") ≡ Ok 12) × (count_of (codes "x") ≡ Err 7)
        × (count_of (codes "4294967296") ≡ Err 8) }
    ensures derivation_count_of_is { (derivation_count_of 2 (codes "4294967293") ≡ Ok 4294967293)
        × (derivation_count_of 2 (codes "4294967294") ≡ Err 8) }
    ensures below_is { (below 2 (Some 1) ≡ Ok 1) × (below 2 (Some 2) ≡ Err 9) }
    ensures variable_of_is { (variable_of 2 (codes "01") ≡ Ok 1) × (variable_of 2 (codes "2")
        ≡ Err 9) }
    ensures unless_among_is { unless_among (0 ∷ 1 ∷ []) (Ok 1) ≡ Err 10 }
    ensures new_variable_of_is { new_variable_of 2 (0 ∷ 1 ∷ []) (codes "0") ≡ Err 10 }
    ensures reference_of_is { (reference_of (codes "6") ≡ Ok 6)
        × (reference_of (codes "4294967296") ≡ Err 16) }
    ensures some_of_is { some_of (count_of (codes "6")) ≡ Ok (Some 6) }
    ensures last_of_is { (last_of (codes "-1") ≡ Ok None) × (last_of (codes "6") ≡ Ok (Some 6))
        × (last_of (codes "-2") ≡ Err 16) }
{}

/// Tokens that choose.
pub fn choices()
    ensures number_cause_is { number_cause too_large ≡ 5 }
    ensures or_cause_is { or_cause (Err zero_denominator) ≡ Err 6 }
    ensures number_of_is { (number_of (codes "1/2") ≡ Ok (over (pos 1) 2))
        × (number_of (codes "1.5") ≡ Err 4) }
    ensures bound_of_is { (bound_of (codes "-inf") (codes "-inf") ≡ Ok None)
        × (bound_of (codes "-inf") (codes "inf") ≡ Err 4) }
    ensures spelled_sense_is { (spelled_sense (codes "G") ≡ Ok at_least)
        × (spelled_sense (codes "g") ≡ Err 11) }
    ensures spelled_direction_is { (spelled_direction (codes "max") ≡ Ok maximum)
        × (spelled_direction (codes "maximum") ≡ Err 12) }
    ensures has_range_of_is { (has_range_of (codes "range") ≡ Ok true)
        × (has_range_of (codes "infeas") ≡ Ok false) × (has_range_of (codes "optimal") ≡ Err 13) }
    ensures rule_of_is { (rule_of (codes "lin") ≡ Ok by_lin) × (rule_of (codes "lam") ≡ Err 14) }
    ensures is_nonzero_is { (is_nonzero (0, over (pos 1) 2) ≡ true) × (is_nonzero (0, zero_ℚ)
        ≡ false) }
{}
