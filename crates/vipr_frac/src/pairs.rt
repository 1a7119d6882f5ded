//! Fractions whose parts are words of 64 bits, and may have a common divisor.
ghost use Rattle.std.specs.Prelude.{◌≡◌, ◌↔◌, ◌*◌, ◌/◌, ◌<◌, ◌^◌, ℕ, pos, ◌+ℤ◌, ◌*ℤ◌, ◌≤ℤ◌};
ghost use Rattle.std.specs.Prelude.{IsTrue, IfSome, MatchOption, FitsSigned};
ghost use Rattle.std.specs.Int.{w64};
ghost use Rattle.vipr_spec.specs.Fraction.{over, ◌+ℚ◌};
ghost use Rattle.vipr_frac.specs.Parts.{AreWords, IsWordDenom};

use crate::gcd::word_quotient;
use crate::words::WHOLE;

const MOST: u64 = i64::MAX as u64;

/// Whether a number is a word of 64 bits with a sign.
#[inline(always)]
pub(crate) fn is_word(p: i128) -> bool
    ensures { IsTrue result ↔ FitsSigned w64 p }
{
    let bits = p.cast_unsigned();
    let (low, high) = ((bits % WHOLE) as u64, (bits / WHOLE) as u64);
    if low > MOST {
        high == u64::MAX
    } else {
        high == 0
    }
}

#[inline(always)]
fn are_words(p: i128, q: u128) -> bool
    ensures { IsTrue result ↔ AreWords p q }
{
    is_word(p) && q <= MOST as u128
}

/// The two parts of a fraction as words of 64 bits with a sign, if they are that small.
#[inline(always)]
pub(crate) fn words(p: i128, q: u128) -> Option<(i64, u64)>
    ensures { MatchOption result (¬ AreWords p q)
        (λ r. AreWords p q × (r.0 ≡ p) × (r.1 ≡ q)) }
{
    if are_words(p, q) {
        Some((p as i64, q as u64))
    } else {
        None
    }
}

// A product of denominators.
#[inline(always)]
fn denominator(q: u64, s: u64) -> Option<u64>
    ensures { IfSome result (λ t. (t ≡ q * s) × (t < 2 ^ 63)) }
{
    match q.checked_mul(s) {
        Some(t) if t <= MOST => Some(t),
        _ => None,
    }
}

// p * n.
#[inline(always)]
fn product(p: i64, n: u64) -> i128
    requires { n < 2 ^ 63 }
    ensures { result ≡ p *ℤ pos n }
{
    i128::from(p) * i128::from(n as i64)
}

// p * u + r * v.
#[inline(always)]
fn both(p: i64, u: u64, r: i64, v: u64) -> Option<i64>
    requires left { u < 2 ^ 63 }
    requires right { v < 2 ^ 63 }
    ensures { IfSome result (λ t. t ≡ p *ℤ pos u +ℤ r *ℤ pos v) }
{
    let sum = product(p, u) + product(r, v);
    if is_word(sum) { Some(sum as i64) } else { None }
}

/// Whether the cross products of two fractions are equal.
#[inline(always)]
pub(crate) fn are_equal(p: i64, q: u64, r: i64, s: u64) -> bool
    requires left { q < 2 ^ 63 }
    requires right { s < 2 ^ 63 }
    ensures { IsTrue result ↔ (p *ℤ pos s ≡ r *ℤ pos q) }
{
    product(p, s) == product(r, q)
}

/// Whether the first of two fractions is at most the second, by their cross products.
#[inline(always)]
pub(crate) fn are_ordered(p: i64, q: u64, r: i64, s: u64) -> bool
    requires left { q < 2 ^ 63 }
    requires right { s < 2 ^ 63 }
    ensures { IsTrue result ↔ ((p *ℤ pos s) ≤ℤ (r *ℤ pos q)) }
{
    product(p, s) <= product(r, q)
}

/// The sum of two fractions, the second of which has n times the denominator of the first.
#[inline(always)]
pub(crate) fn raised_sum(p: i64, n: u64, r: i64, s: u64) -> Option<(i64, u64)>
    requires times { n < 2 ^ 63 }
    requires below { s < 2 ^ 63 }
    requires some { 0 < s }
    ensures value { (q : ℕ) → 0 < q → s ≡ n * q
        → IfSome result (λ t. over t.0 t.1 ≡ over p q +ℚ over r s) }
    ensures some { IfSome result (λ t. 0 < t.1) }
    ensures below { IfSome result (λ t. t.1 < 2 ^ 63) }
{
    Some((both(p, n, r, 1)?, s))
}

/// The product of two fractions.
#[inline(always)]
pub(crate) fn pair_product(p: i64, q: u64, r: i64, s: u64) -> Option<(i64, u64)>
    requires left { 0 < q }
    requires right { 0 < s }
    ensures { IfSome result (λ t. (t.0 ≡ p *ℤ r) × (t.1 ≡ q * s) × (0 < t.1) × (t.1 < 2 ^ 63)) }
{
    Some((p.checked_mul(r)?, denominator(q, s)?))
}

/// The sum of two fractions, of whose denominators a common divisor is given.
#[inline(always)]
pub(crate) fn common_sum(p: i64, q: u64, r: i64, s: u64, g: u64) -> Option<(i64, u64)>
    requires left { IsWordDenom q }
    requires right { IsWordDenom s }
    requires some { 0 < g }
    requires divides_left { q ≡ q / g * g }
    requires divides_right { s ≡ s / g * g }
    ensures sum { IfSome result (λ t. over t.0 t.1 ≡ over p q +ℚ over r s) }
    ensures some { IfSome result (λ t. 0 < t.1) }
    ensures below { IfSome result (λ t. t.1 < 2 ^ 63) }
{
    let left = word_quotient(s, g);
    let sum = both(p, left, r, word_quotient(q, g))?;
    Some((sum, denominator(q, left)?))
}
