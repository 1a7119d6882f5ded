//! Fractions, computed.

ghost use Rattle.std.specs.Prelude.{negsuc, pos, ◌-◌, ◌^◌, ◌≡◌};
ghost use Rattle.vipr_spec.specs.Fraction.{IsBounded, IsWhole, ProductFits, SumFits, most, neg_ℚ};
ghost use Rattle.vipr_spec.specs.Fraction.{over, whole, zero_ℚ, ◌*ℚ◌, ◌+ℚ◌, ◌≤ℚ◌};
ghost use Rattle.vipr_spec.specs.{Gcd.euclid, Gcd.gcd, Lowest.IsLowest};

/// Greatest common divisors.
pub fn divisors()
    ensures euclid_is { euclid 5 12 5 ≡ 1 }
    ensures gcd_is { (gcd 12 18 ≡ 6) × (gcd 0 5 ≡ 5) }
{}

/// Sums and products.
pub fn sums()
    ensures over_is { over (pos 4) 6 ≡ over (pos 2) 3 }
    ensures whole_is { whole (negsuc 2) ≡ over (negsuc 2) 1 }
    ensures zero_is { zero_ℚ ≡ over (pos 0) 1 }
    ensures sum_is { over (pos 1) 2 +ℚ over (pos 1) 3 ≡ over (pos 5) 6 }
    ensures product_is { over (pos 2) 3 *ℚ over (pos 3) 4 ≡ over (pos 1) 2 }
    ensures neg_is { neg_ℚ (over (pos 1) 2) ≡ over (negsuc 0) 2 }
    ensures most_is { most ≡ 170141183460469231731687303715884105727 }
{}

/// Order, whole numbers and bounds.
pub fn orders()
    ensures order_is { (over (pos 1) 3 ≤ℚ over (pos 1) 2) × ¬ (over (pos 1) 2 ≤ℚ over (pos 1) 3) }
    ensures lowest_is { IsLowest (pos 2) 3 }
    ensures IsWhole_is { IsWhole (over (pos 4) 2) }
    ensures IsBounded_is { IsBounded (over (pos (2 ^ 127 - 1)) 2) }
    ensures SumFits_is { SumFits (over (pos 1) 2) (over (pos 1) 3) }
    ensures ProductFits_is { ProductFits (whole (pos (2 ^ 126))) (over (pos 1) 2) }
{}
