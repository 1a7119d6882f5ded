//! Adding entries one after the other gives their sum.
ghost use Rattle.std.specs.Prelude.{◌≡◌, ◌↔◌, ℕ, List, [], ◌∷◌, ◌++◌, IsSome};
ghost use Rattle.vipr_spec.specs.Fraction.{ℚ};
ghost use Rattle.vipr_spec.specs.Constraint.{Row, Sense, at, Entry, HasSense, sum_of, SumOfFits};
ghost use Rattle.vipr_spec.specs.Constraint.{NamesBelow};
ghost use Rattle.vipr_linear.specs.Accumulator.{Accumulator, nothing_added, joined_with};
ghost use Rattle.vipr_linear.specs.Accumulator.{AdditionFits, with_entry, Holds, IsSuitable};
ghost use Rattle.vipr_linear.specs.Accumulator.{HoldsSum};

/// Adding entries one after the other: what can be added is what keeps the sum suitable and
/// fitting, and what is held is the sum of the entries so far.
pub fn sums_in_steps()
    ensures start { (n : ℕ) → Holds n [] (nothing_added n) }
    ensures suitable { (n : ℕ) (es : List Entry) (e : Entry) (a : Accumulator) → Holds n es a
        → IsSome (joined_with a e) ↔ IsSuitable (es ++ e ∷ []) }
    ensures fits { (n : ℕ) (es : List Entry) (e : Entry) (a : Accumulator) → Holds n es a
        → AdditionFits a e ↔ SumOfFits (es ++ e ∷ []) }
    ensures step { (n : ℕ) (es : List Entry) (e : Entry) (a : Accumulator) → Holds n es a
        → NamesBelow n e.1.row → IsSome (joined_with a e) → AdditionFits a e
        → Holds n (es ++ e ∷ []) (with_entry a e) }

    ensures suitable_before { (es fs : List Entry) → IsSuitable (es ++ fs) → IsSuitable es }
    ensures fits_before { (es fs : List Entry) → SumOfFits (es ++ fs) → SumOfFits es }

    ensures one_sense { (es : List Entry) (s t : Sense) → HasSense es s → HasSense es t → s ≡ t }
    ensures sum { (n : ℕ) (es : List Entry) (a : Accumulator) (row : Row) (s : Sense) (b : ℚ)
        → Holds n es a → HoldsSum a row s b
        → HasSense es s × (record { row = at row; sense = s; bound = b } ≡ sum_of es s) }
{}
