//! The statement that can be read by itself, computed.

ghost use Rattle.std.specs.Prelude.{None, Some, [], codes, false, negsuc, pos, true, ◌∷◌, ◌≡◌};
ghost use Rattle.vipr_spec.specs.Fraction.{over};
ghost use Rattle.vipr_spec.specs.Short.{Compares, Holds, Integer, IsAsGood, IsTrueAt, Means};
ghost use Rattle.vipr_spec.specs.Short.{Natural, Number, States, any, at_least, at_most, bound};
ghost use Rattle.vipr_spec.specs.Short.{claim, equal, is_white, point_of, sense_word, tokens};
ghost use Rattle.vipr_spec.specs.Short.{unless_empty, value, whole, without_front, word};

/// Rows, constraints and texts.
pub fn computed()
    ensures whole_is { whole (negsuc 1) ≡ over (negsuc 1) 1 }
    ensures value_is { value ((0, whole (pos 2)) ∷ (2, whole (negsuc 2)) ∷ []) (λ j. whole (pos 3))
        ≡ whole (negsuc 2) }
    ensures point_of_is { (point_of ((1, over (pos 1) 2) ∷ []) 1 ≡ over (pos 1) 2)
        × (point_of ((1, over (pos 1) 2) ∷ []) 0 ≡ whole (pos 0)) }
    ensures IsAsGood_is { IsAsGood true (whole (pos 1)) (whole (pos 2))
        × IsAsGood false (whole (pos 2)) (whole (pos 1)) }
    ensures is_white_is { (is_white 9 ≡ true) × (is_white 32 ≡ true) × (is_white 37 ≡ false) }
    ensures without_front_is { without_front false (codes " % a\n VER % b") ≡ codes "VER % b" }
    ensures unless_empty_is { (unless_empty [] ≡ [])
        × (unless_empty (codes "VER") ≡ codes "VER" ∷ []) }
    ensures tokens_is { tokens [] (codes "VER 1.0 %") ≡ codes "VER" ∷ codes "1.0" ∷ codes "%" ∷ [] }
    ensures word_is { word (codes "VER") (codes "VER" ∷ []) }
    ensures any_is { any (codes "x_1" ∷ []) }
    ensures bound_is { bound (codes "inf") (codes "inf") None }
    ensures claim_is { claim None (codes "infeas" ∷ []) }
{}

/// Numbers in a text, and constraints.
pub fn numbers()
    ensures Compares_is { Compares at_most (whole (pos 2)) (whole (pos 3))
        × Compares at_least (whole (pos 3)) (whole (pos 2))
        × Compares equal (whole (pos 2)) (whole (pos 2)) }
    ensures IsTrueAt_is { IsTrueAt
        (record { row = (0, whole (pos 2)) ∷ []; sense = at_most; bound = whole (pos 6) })
        (λ j. whole (pos 3)) }
    ensures sense_word_is { (sense_word at_most ≡ codes "L") × (sense_word at_least ≡ codes "G")
        × (sense_word equal ≡ codes "E") }
    ensures Natural_is { Natural (codes "007") 7 }
    ensures Integer_is { Integer (codes "+7") (pos 7) × Integer (codes "-7") (negsuc 6) }
    ensures Number_is { Number (codes "-1/2") (over (negsuc 0) 2)
        × Number (codes "5") (whole (pos 5)) }
{}

/// A text that has no constraint and claims that no point is feasible: it states a problem, and
/// means nothing true.
pub fn false_claim()
    ensures States_is { States
        (codes "VER 1.0 VAR 0 INT 0 OBJ min 0 CON 0 0 RTP infeas SOL 0 DER 0")
        (record { integers = []; is_min = true; objective = []; constraints = []; bounds = None })
        [] }
    ensures Holds_is { Holds
        (record { integers = []; is_min = true; objective = []; constraints = []; bounds = None })
        [] (Some (Some (whole (pos 0)), None)) }
    ensures Means_is { ¬ Means
        (codes "VER 1.0 VAR 0 INT 0 OBJ min 0 CON 0 0 RTP infeas SOL 0 DER 0") }
{}
