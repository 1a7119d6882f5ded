//! What makes a derivation good, reason by reason.

ghost use Rattle.std.specs.Prelude.{◌≡◌, ◌↔◌, ℕ, ◌<◌, IsTrue, List, [], ◌∷◌, Some, All};
ghost use Rattle.vipr_spec.specs.{ℚ, Profile, Sense, Condition, HasSense, SumOfFits, sum_of};
ghost use Rattle.vipr_spec.specs.{Dominates, DominatesRounded, IsWholeRow, IsSplit, Row, Named};
ghost use Rattle.vipr_spec.specs.{asm, lin, rnd, uns, sol, entries, constraint_at, reason_at};
ghost use Rattle.vipr_spec.specs.{is_live, IsBest, cutoff, IsGoodStep, AreUsable};
ghost use Rattle.vipr_spec.specs.Certificate.{Certificate};

/// An assumption is always good. A sum names what is there, fits, has a sense and dominates what is
/// stated, or does so once it is rounded. Two branches and their assumptions are there; the
/// assumptions split, and both branches dominate. The cutoff of the best solution dominates.
pub fn rules_by_reason()
    ensures assumed { (P : Profile) (c : Certificate) (k : ℕ) (d : Condition)
        → IsGoodStep P c k asm d }
    ensures summed { (P : Profile) (c : Certificate) (k : ℕ) (es : List (ℕ × ℚ)) (d : Condition)
        → IsGoodStep P c k (lin es) d ↔ (AreUsable c k es × SumOfFits (entries c es)
        × (s : Sense) × HasSense (entries c es) s × Dominates (sum_of (entries c es) s) d) }
    ensures rounded { (P : Profile) (c : Certificate) (k : ℕ) (es : List (ℕ × ℚ)) (d : Condition)
        → IsGoodStep P c k (rnd es) d ↔ (AreUsable c k es × SumOfFits (entries c es)
        × (s : Sense) × HasSense (entries c es) s × IsWholeRow c.problem.integers
        (sum_of (entries c es) s).row × DominatesRounded (sum_of (entries c es) s) d) }
    ensures branched { (P : Profile) (c : Certificate) (k i1 l1 i2 l2 : ℕ) (d : Condition)
        → IsGoodStep P c k (uns i1 l1 i2 l2) d ↔ (All (λ i. (i < k) × IsTrue (is_live c k i))
        (i1 ∷ l1 ∷ i2 ∷ l2 ∷ []) × (reason_at c l1 ≡ Some asm) × (reason_at c l2 ≡ Some asm)
        × IsSplit P c.problem.integers (constraint_at c l1) (constraint_at c l2)
        × Dominates (constraint_at c i1) d × Dominates (constraint_at c i2) d) }
    ensures cut_off { (P : Profile) (c : Certificate) (k : ℕ) (d : Condition)
        → IsGoodStep P c k sol d
        ↔ ((s : Named Row) × IsBest c s × Dominates (cutoff c.problem s) d) }
{}
