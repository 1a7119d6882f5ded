//! Fractions: their arithmetic, order and rounding.
//!
//! A [`Frac`] is in lowest terms, and both its parts are at most 2^127 - 1 in absolute value. So
//! there is one `Frac` for each number, and equality compares parts. A sum or a product is exact or
//! refused with [`Overflow`], and its contract says exactly when. Comparison, `floor` and `ceil`
//! are exact and never refused. In contracts a `Frac` is the fraction itself.
ghost use Rattle.std.specs.Prelude.{◌≡◌, ℤ, pos, ◌+◌, ◌*◌, ◌^◌, ◌<◌, ◌≤◌, ◌+ℤ◌, ◌*ℤ◌, ◌<ℤ◌};
ghost use Rattle.std.specs.Prelude.{unsigned_abs, int_div, ◌↔◌, ◌⊎◌, IsOk, IfOk, IsTrue, IsSome};
ghost use Rattle.std.specs.Prelude.{IfSome, FitsSigned};
ghost use Rattle.std.specs.{Int.w128, Ordering.nat_cmp, Ordering.int_cmp, Ordering.int_eq};
ghost use Rattle.vipr_spec.specs.Fraction.{most, over, whole, zero_ℚ, neg_ℚ, ◌+ℚ◌, ◌*ℚ◌, IsBounded};
ghost use Rattle.vipr_spec.specs.Fraction.{IsWhole, SumFits, ProductFits};
ghost use Rattle.vipr_spec.specs.FractionOrder.{IsFloor, IsCeil, eq_ℚ};
ghost use Rattle.vipr_spec.specs.Gcd.{gcd};
ghost use Rattle.vipr_frac.specs.Parts.{IsReduced, FitsParts, FitsSum, both_parts, IsSmall};
ghost use Rattle.vipr_frac.specs.Parts.{product_numer, product_denom};

use crate::gcd::{gcd_of, quotient, word_gcd, word_quotient, word_rest};
use crate::pairs::words;
use crate::words::{SignedWide, Wide};
use std::cmp::Ordering;
use std::hash::{Hash, Hasher};
use std::marker::Model;

/// Why a numerator and a denominator make no bounded fraction.
#[derive(Clone, Copy, Debug, PartialEq, Eq)]
pub enum FracError {
    /// One of them as given is out of bound, a negative denominator included.
    Range,
    /// The denominator is 0.
    ZeroDenominator,
}

/// The exact answer, or a number on the way to it, is out of bound.
#[derive(Clone, Copy, Debug, PartialEq, Eq)]
pub struct Overflow;

/// A fraction in lowest terms, whose numerator is at most 2^127 - 1 in absolute value, and whose
/// denominator is at least 1 and at most 2^127 - 1. Equality, order and hash are those of the
/// values.
#[derive(Clone, Copy, Debug)]
pub struct Frac {
    p: SignedWide,
    q: Wide,
}

impl Model for Frac {
    ghost use Rattle.vipr_spec.specs.Fraction.{ℚ, coded_ℚ, over};

    ghost Value = { ℚ };

    ghost coded = { coded_ℚ };

    ghost use Rattle.vipr_frac.specs.Parts.{IsReduced};
    ghost use Rattle.vipr_frac.specs.Fields.{inverse_is};

    ghost view = { λ f. over f.p f.q };

    ghost invariant = { λ f. IsReduced f.p f.q };

    ghost inverse = { λ x. record { p = x.numer; q = x.denom } };

    ghost inverse_ok = { λ a h. inverse_is a h };
}

impl PartialEq for Frac {
    ghost use Rattle.std.specs.Cmp.{partial_equiv_from_equiv, eq_by_cmp_equiv};
    ghost use Rattle.vipr_spec.specs.FractionOrder.{eq_ℚ};
    ghost use Rattle.vipr_spec.proofs.Laws.{cmp_total};

    ghost eq = { eq_ℚ };

    ghost laws = { partial_equiv_from_equiv (eq_by_cmp_equiv cmp_total) };

    fn eq(&self, other: &Frac) -> bool
        ensures tested { result ≡ eq_ℚ self.now other.now }
        ensures same { IsTrue result ↔ (self.now ≡ other.now) }
    {
        self.p.same(&other.p) && self.q.same(&other.q)
    }
}

impl Eq for Frac {
    ghost use Rattle.std.specs.Cmp.{eq_by_cmp_equiv};
    ghost use Rattle.vipr_spec.proofs.Laws.{cmp_total};

    ghost laws = { eq_by_cmp_equiv cmp_total };
}

impl Hash for Frac {
    ghost use Rattle.vipr_frac.specs.Fields.{hash_input_of, hash_input_respects};

    ghost hash_input = { hash_input_of };

    ghost respects_eq = { hash_input_respects };

    fn hash<H: Hasher>(&self, state: &mut H) {
        let (p, q) = self.parts();
        p.hash(state);
        q.hash(state);
    }
}

impl Ord for Frac {
    ghost use Rattle.std.specs.Prelude.{refl};
    ghost use Rattle.vipr_spec.specs.FractionOrder.{cmp_ℚ};
    ghost use Rattle.vipr_spec.proofs.Laws.{cmp_total};

    ghost cmp = { cmp_ℚ };

    ghost total = { cmp_total };

    ghost matches_partial_cmp = { λ x y. refl };

    ghost matches_eq = { λ x y. refl };

    fn cmp(&self, other: &Frac) -> Ordering {
        let (p, q) = self.parts();
        let (r, s) = other.parts();
        compare_fractions(p, q, r, s)
    }
}

impl PartialOrd for Frac {
    ghost use Rattle.std.specs.Ordering.{as_partial_cmp};
    ghost use Rattle.std.specs.Cmp.{partial_order_from_total};
    ghost use Rattle.vipr_spec.specs.FractionOrder.{cmp_ℚ};
    ghost use Rattle.vipr_spec.proofs.Laws.{cmp_total};

    ghost partial_cmp = { as_partial_cmp cmp_ℚ };

    ghost laws = { partial_order_from_total cmp_total };

    fn partial_cmp(&self, other: &Frac) -> Option<Ordering> {
        Some(self.cmp(other))
    }
}

// The order of p / q and r / s.
fn compare_fractions(p: i128, q: u128, r: i128, s: u128) -> Ordering
    requires q { 0 < q }
    requires s { 0 < s }
    ensures { result ≡ int_cmp (p *ℤ pos s) (r *ℤ pos q) }
{
    if q == s {
        return p.cmp(&r);
    }
    if p < 0 {
        if r < 0 {
            compare_products(r.unsigned_abs(), q, p.unsigned_abs(), s)
        } else {
            Ordering::Less
        }
    } else if r < 0 {
        Ordering::Greater
    } else {
        compare_products(p.unsigned_abs(), s, r.unsigned_abs(), q)
    }
}

// The order of a * b and c * d, which take two words.
fn compare_products(a: u128, b: u128, c: u128, d: u128) -> Ordering
    ensures { result ≡ nat_cmp (a * b) (c * d) }
{
    let (low, high) = a.carrying_mul(b, 0);
    let (other_low, other_high) = c.carrying_mul(d, 0);
    if high == other_high {
        low.cmp(&other_low)
    } else {
        high.cmp(&other_high)
    }
}

#[inline(always)]
fn bounded_sum(a: i128, b: i128) -> Result<i128, Overflow>
    ensures fits { IsOk result ↔ (unsigned_abs (a +ℤ b) ≤ most) }
    ensures value { IfOk result (λ t. t ≡ a +ℤ b) }
{
    match a.checked_add(b) {
        Some(t) if t != i128::MIN => Ok(t),
        _ => Err(Overflow),
    }
}

#[inline(always)]
fn bounded_product(a: i128, b: i128) -> Result<i128, Overflow>
    ensures fits { IsOk result ↔ (unsigned_abs (a *ℤ b) ≤ most) }
    ensures value { IfOk result (λ t. t ≡ a *ℤ b) }
{
    match a.checked_mul(b) {
        Some(t) if t != i128::MIN => Ok(t),
        _ => Err(Overflow),
    }
}

fn bounded_denominator(a: u128, b: u128) -> Result<u128, Overflow>
    ensures fits { IsOk result ↔ (a * b ≤ most) }
    ensures value { IfOk result (λ t. t ≡ a * b) }
{
    match a.checked_mul(b) {
        Some(t) if t <= i128::MAX as u128 => Ok(t),
        _ => Err(Overflow),
    }
}

// The division leaves no rest where it is used.
fn divided(p: i128, g: u128) -> i128
    requires some { 0 < g }
    requires small { g ≤ most }
    ensures { result ≡ int_div p (pos g) }
{
    if g == 1 {
        return p;
    }
    let size = quotient(p.unsigned_abs(), g) as i128;
    if p < 0 { -size } else { size }
}

// The quotient of the size, since a division with signs takes longer.
#[inline(always)]
fn divided_word(p: i64, g: u64) -> i64
    requires { 0 < g }
    ensures { result ≡ int_div p (pos g) }
{
    if g == 1 {
        return p;
    }
    let size = (p.unsigned_abs() / g) as i64;
    if p < 0 { -size } else { size }
}

#[inline(always)]
pub(crate) fn of_parts(p: i128, q: u128) -> Frac
    requires { IsReduced p q }
    ensures { result ≡ over p q }
{
    Frac {
        p: SignedWide::of(p),
        q: Wide::of(q),
    }
}

pub(crate) fn reduced(p: i128, q: u128) -> Frac
    requires numer { unsigned_abs p ≤ most }
    requires some { 0 < q }
    requires denom { q ≤ most }
    ensures { result ≡ over p q }
{
    let g = gcd_of(p.unsigned_abs(), q);
    of_parts(divided(p, g), quotient(q, g))
}

pub(crate) fn reduced_words(p: i64, q: u64) -> Frac
    requires some { 0 < q }
    requires denom { q < 2 ^ 63 }
    ensures { result ≡ over p q }
{
    if q == 1 {
        return of_whole(i128::from(p));
    }
    let g = word_gcd(word_rest(p.unsigned_abs(), q), q);
    of_parts(
        i128::from(divided_word(p, g)),
        u128::from(word_quotient(q, g)),
    )
}

#[inline(always)]
pub(crate) fn of_whole(p: i128) -> Frac
    requires { unsigned_abs p ≤ most }
    ensures { result ≡ whole p }
{
    of_parts(p, 1)
}

#[inline(always)]
fn whole_sum(a: i128, b: i128) -> Result<Frac, Overflow>
    ensures fits { IsOk result ↔ (unsigned_abs (a +ℤ b) ≤ most) }
    ensures value { IfOk result (λ f. f ≡ whole (a +ℤ b)) }
{
    match bounded_sum(a, b) {
        Ok(p) => Ok(of_whole(p)),
        Err(refused) => Err(refused),
    }
}

#[inline(always)]
fn whole_product(a: i128, b: i128) -> Result<Frac, Overflow>
    ensures fits { IsOk result ↔ (unsigned_abs (a *ℤ b) ≤ most) }
    ensures value { IfOk result (λ f. f ≡ whole (a *ℤ b)) }
{
    match bounded_product(a, b) {
        Ok(p) => Ok(of_whole(p)),
        Err(refused) => Err(refused),
    }
}

fn scaled(p: i128, n: u128) -> Result<i128, Overflow>
    requires { n ≤ most }
    ensures fits { IsOk result ↔ (unsigned_abs (p *ℤ pos n) ≤ most) }
    ensures value { IfOk result (λ t. t ≡ p *ℤ pos n) }
{
    bounded_product(p, n as i128)
}

fn sum_of_parts(a: Frac, b: Frac, g: u128) -> Result<i128, Overflow>
    requires { g ≡ gcd a.denom b.denom }
    ensures fits { IsOk result ↔ FitsParts a b }
    ensures value { IfOk result (λ t. t ≡ both_parts a b) }
{
    let (p, q) = a.parts();
    let (r, s) = b.parts();
    let left = scaled(p, quotient(s, g))?;
    let right = scaled(r, quotient(q, g))?;
    bounded_sum(left, right)
}

fn sum_by_parts(a: Frac, b: Frac) -> Result<Frac, Overflow>
    ensures fits { IsOk result ↔ FitsSum a b }
    ensures value { IfOk result (λ f. f ≡ a +ℚ b) }
{
    let (_, q) = a.parts();
    let (_, s) = b.parts();
    let g = gcd_of(q, s);
    let both = sum_of_parts(a, b, g)?;
    let h = gcd_of(both.unsigned_abs(), g);
    let below = bounded_denominator(quotient(q, g), quotient(s, h))?;
    Ok(of_parts(divided(both, h), below))
}

// The parts of two fractions, without what divides a numerator and the other denominator.
#[inline(always)]
fn crossed(a: Frac, b: Frac) -> (i128, i128, u128, u128)
    ensures above { result.0 *ℤ result.1 ≡ product_numer a b }
    ensures below { result.2 * result.3 ≡ product_denom a b }
    ensures left { FitsSigned w128 result.0 }
    ensures right { FitsSigned w128 result.1 }
{
    let (p, q) = a.parts();
    let (r, s) = b.parts();
    let g = gcd_of(p.unsigned_abs(), s);
    let h = gcd_of(r.unsigned_abs(), q);
    (divided(p, g), divided(r, h), quotient(q, h), quotient(s, g))
}

fn product_by_parts(a: Frac, b: Frac) -> Result<Frac, Overflow>
    ensures fits { IsOk result ↔ ProductFits a b }
    ensures value { IfOk result (λ f. f ≡ a *ℚ b) }
{
    let (p, r, q, s) = crossed(a, b);
    let above = bounded_product(p, r)?;
    let below = bounded_denominator(q, s)?;
    Ok(of_parts(above, below))
}

// The sum of p / q and r / s, whose parts need not lie in memory for a call.
#[inline(never)]
fn exact_sum(p: i128, q: u128, r: i128, s: u128) -> Result<Frac, Overflow>
    requires left { IsReduced p q }
    requires right { IsReduced r s }
    ensures fits { IsOk result ↔ FitsSum (over p q) (over r s) }
    ensures value { IfOk result (λ f. f ≡ over p q +ℚ over r s) }
{
    sum_by_parts(of_parts(p, q), of_parts(r, s))
}

// Their product.
#[inline(never)]
fn exact_product(p: i128, q: u128, r: i128, s: u128) -> Result<Frac, Overflow>
    requires left { IsReduced p q }
    requires right { IsReduced r s }
    ensures fits { IsOk result ↔ ProductFits (over p q) (over r s) }
    ensures value { IfOk result (λ f. f ≡ over p q *ℚ over r s) }
{
    product_by_parts(of_parts(p, q), of_parts(r, s))
}

#[inline(always)]
fn is_small(a: Frac) -> bool
    ensures { IsTrue result → IsSmall a }
{
    a.words().is_some()
}

// The sum of small fractions.
#[inline(always)]
fn small_sum(a: Frac, b: Frac) -> Frac
    requires left { IsSmall a }
    requires right { IsSmall b }
    ensures fits { FitsSum a b }
    ensures value { result ≡ a +ℚ b }
{
    let (p, q) = a.parts();
    let (r, s) = b.parts();
    let g = gcd_of(q, s);
    let left = p * quotient(s, g) as i128;
    let right = r * quotient(q, g) as i128;
    let both = left + right;
    let h = gcd_of(both.unsigned_abs(), g);
    of_parts(divided(both, h), quotient(q, g) * quotient(s, h))
}

// The product of small fractions.
#[inline(always)]
fn small_product(a: Frac, b: Frac) -> Frac
    requires left { IsSmall a }
    requires right { IsSmall b }
    ensures fits { ProductFits a b }
    ensures value { result ≡ a *ℚ b }
{
    let (p, r, q, s) = crossed(a, b);
    of_parts(p * r, q * s)
}

impl Frac {
    /// p / q. The parts are tested as they are given, before common divisors are removed.
    pub fn new(p: i128, q: i128) -> Result<Frac, FracError>
        ensures range { (result ≡ Err FracError.Range) ↔ ((most < unsigned_abs p) ⊎ (q <ℤ pos 0)) }
        ensures zero { (result ≡ Err FracError.ZeroDenominator)
            ↔ ((unsigned_abs p ≤ most) × (q ≡ pos 0)) }
        ensures value { IfOk result (λ f. f ≡ over p (unsigned_abs q)) }
    {
        if p == i128::MIN || q < 0 {
            return Err(FracError::Range);
        }
        if q == 0 {
            return Err(FracError::ZeroDenominator);
        }
        Ok(reduced(p, q as u128))
    }

    /// 0.
    pub fn zero() -> Frac
        ensures { result ≡ zero_ℚ }
    {
        of_whole(0)
    }

    /// 1.
    pub fn one() -> Frac
        ensures { result ≡ whole (pos 1) }
    {
        of_whole(1)
    }

    /// The numerator in lowest terms.
    pub fn numer(self) -> i128
        ensures value { result ≡ self.numer }
        ensures bounded { IsBounded self }
    {
        self.parts().0
    }

    /// The denominator in lowest terms, at least 1.
    pub fn denom(self) -> i128
        ensures value { result ≡ pos self.denom }
        ensures bounded { IsBounded self }
    {
        self.parts().1 as i128
    }

    /// Whether it is 0.
    pub fn is_zero(self) -> bool
        ensures zero { result ≡ int_eq self.numer (pos 0) }
        ensures bounded { IsBounded self }
    {
        self.numer() == 0
    }

    /// The fraction with the other sign.
    pub fn neg(self) -> Frac
        ensures { result ≡ neg_ℚ self }
    {
        let (p, q) = self.parts();
        of_parts(-p, q)
    }

    /// Whether it is a whole number.
    pub fn is_whole(self) -> bool
        ensures denominator { IsTrue result ↔ (self.denom ≡ 1) }
        ensures value { IsTrue result ↔ IsWhole self }
    {
        self.parts().1 == 1
    }

    /// The greatest whole number that is not above it.
    pub fn floor(self) -> i128
        ensures floor { IsFloor self result }
        ensures bounded { unsigned_abs result ≤ most }
    {
        self.numer().div_euclid(self.denom())
    }

    /// The least whole number that is not below it.
    pub fn ceil(self) -> i128
        ensures ceil { IsCeil self result }
        ensures bounded { unsigned_abs result ≤ most }
    {
        -self.neg().floor()
    }

    // The numerator and the denominator.
    #[inline(always)]
    pub(crate) fn parts(self) -> (i128, u128)
        ensures numer { result.0 ≡ self.numer }
        ensures denom { result.1 ≡ self.denom }
        ensures reduced { IsReduced result.0 result.1 }
    {
        (self.p.value(), self.q.value())
    }

    // The parts as words of 64 bits with a sign, if they are that small.
    #[inline(always)]
    pub(crate) fn words(self) -> Option<(i64, u64)>
        ensures numer { IfSome result (λ r. r.0 ≡ self.numer) }
        ensures denom { IfSome result (λ r. r.1 ≡ self.denom) }
        ensures small { IsSome result → IsSmall self }
    {
        let (p, q) = self.parts();
        words(p, q)
    }

    /// The exact sum, in lowest terms. It is refused if one of the two parts over the least
    /// common denominator, their sum, or the denominator of the answer is out of bound.
    #[inline(always)]
    pub fn add(self, other: Frac) -> Result<Frac, Overflow>
        ensures fits { IsOk result ↔ SumFits self other }
        ensures value { IfOk result (λ f. f ≡ self +ℚ other) }
    {
        let (p, q) = self.parts();
        let (r, s) = other.parts();
        if q == 1 && s == 1 {
            return whole_sum(p, r);
        }
        if is_small(self) && is_small(other) {
            return Ok(small_sum(self, other));
        }
        exact_sum(p, q, r, s)
    }

    /// The exact product, in lowest terms. It is refused if that is out of bound.
    #[inline(always)]
    pub fn mul(self, other: Frac) -> Result<Frac, Overflow>
        ensures fits { IsOk result ↔ ProductFits self other }
        ensures value { IfOk result (λ f. f ≡ self *ℚ other) }
    {
        let (p, q) = self.parts();
        let (r, s) = other.parts();
        if q == 1 && s == 1 {
            return whole_product(p, r);
        }
        if is_small(self) && is_small(other) {
            return Ok(small_product(self, other));
        }
        exact_product(p, q, r, s)
    }
}
