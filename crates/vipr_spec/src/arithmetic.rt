//! Fractions are what they are said to be.

ghost use Rattle.std.specs.Prelude.{◌≡◌, ◌↔◌, ℕ, ◌*◌, ◌<◌, List, map, ℤ, pos, ◌+ℤ◌, ◌*ℤ◌, ◌≤ℤ◌};
ghost use Rattle.vipr_spec.specs.{ℚ, over, ◌+ℚ◌, ◌*ℚ◌, ◌≤ℚ◌, IsWhole};

/// Fractions are equal, ordered, added and multiplied by cross products.
pub fn cross_products()
    ensures same { (p r : ℤ) (q s : ℕ) → 0 < q → 0 < s
        → (over p q ≡ over r s) ↔ (p *ℤ pos s ≡ r *ℤ pos q) }
    ensures at_most { (p r : ℤ) (q s : ℕ) → 0 < q → 0 < s
        → (over p q ≤ℚ over r s) ↔ ((p *ℤ pos s) ≤ℤ (r *ℤ pos q)) }
    ensures sum { (p r : ℤ) (q s : ℕ) → 0 < q → 0 < s
        → over p q +ℚ over r s ≡ over (p *ℤ pos s +ℤ r *ℤ pos q) (q * s) }
    ensures product { (p r : ℤ) (q s : ℕ) → 0 < q → 0 < s
        → over p q *ℚ over r s ≡ over (p *ℤ r) (q * s) }
    ensures whole { (p : ℤ) (q : ℕ) → 0 < q → IsWhole (over p q) ↔ ((k : ℤ) × (p ≡ k *ℤ pos q)) }
    ensures parts { (x : ℚ) → over x.numer x.denom ≡ x }
    ensures positive { (x : ℚ) → 0 < x.denom }
{}

/// Each list of fractions is one of whole numerators over one denominator.
pub fn common_denominators()
    ensures { (xs : List ℚ)
        → (denom : ℕ) × (numers : List ℤ) × (0 < denom) × (xs ≡ map (λ n. over n denom) numers) }
{}
