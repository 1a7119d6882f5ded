//! Partial sums of products, which are reduced at the end alone.
ghost use Rattle.std.specs.Prelude.{◌≡◌, ◌↔◌, ◌<◌, ◌≤◌, ◌%◌, ◌^◌, IsTrue, IsOk, IfOk, IfSome};
ghost use Rattle.std.specs.Prelude.{IsSome, IsFalse, MatchOption, OnOk, OnErr, unsigned_abs};
ghost use Rattle.std.specs.{Prelude.FitsSigned, Int.w64};
ghost use Rattle.vipr_spec.specs.Fraction.{over, zero_ℚ, ◌+ℚ◌, ◌*ℚ◌, ◌≤ℚ◌, SumFits};
ghost use Rattle.vipr_spec.specs.Fraction.{ProductFits};
ghost use Rattle.vipr_frac.specs.Parts.{AddsProduct, AreReduced, IsPartial, IsWordDenom};
ghost use Rattle.vipr_frac.specs.Parts.{PutsOrKeeps};

use crate::frac::{Frac, Overflow, of_parts, reduced_words};
use crate::gcd::word_gcd;
use crate::pairs::{are_equal, are_ordered, common_sum, is_word, pair_product, raised_sum, words};
use std::alloc::AllocError;
use std::marker::Model;

/// A partial sum of products: a bounded fraction whose numerator and denominator may have a common
/// divisor while both are words of 64 bits. So long a sum needs few divisions.
#[derive(Debug, Drop)]
pub struct Partial {
    p: i128,
    q: u128,
}

impl Model for Partial {
    ghost use Rattle.vipr_spec.specs.Fraction.{ℚ, coded_ℚ, over};

    ghost Value = { ℚ };

    ghost coded = { coded_ℚ };

    ghost use Rattle.vipr_frac.specs.Parts.{IsPartial};

    ghost view = { λ f. over f.p f.q };

    ghost invariant = { λ f. IsPartial f.p f.q };
}

impl Clone for Partial {
    ghost use Rattle.std.specs.Prelude.{◌≡◌, ⊤};

    ghost is_clone = { λ sum copy. copy ≡ sum };

    ghost is_infallible = { λ _. ⊤ };

    fn clone(&self) -> Result<Partial, AllocError> {
        Ok(Partial {
            p: self.p,
            q: self.q,
        })
    }
}

// A denominator of so many bits makes with another one a product that is a word.
const SHORT: u128 = 0x7fff_ffff;

// Whether the numerator is a word of 64 bits, and the denominator has at most 31 bits.
#[inline(always)]
fn are_short(p: i128, q: u128) -> bool
    ensures { IsTrue result ↔ (FitsSigned w64 p × (q < 2 ^ 31)) }
{
    is_word(p) && q <= SHORT
}

// Gives a sum these parts, if there are any. Else it stays as it was.
#[inline(always)]
fn put(sum: &mut Partial, parts: Option<(i64, u64)>) -> bool
    requires some { IfSome parts (λ t. 0 < t.1) }
    requires below { IfSome parts (λ t. t.1 < 2 ^ 63) }
    ensures { MatchOption parts (IsFalse result × (sum.new ≡ sum.old))
        (λ t. IsTrue result × (sum.new ≡ over t.0 t.1)) }
{
    match parts {
        Some((p, q)) => {
            *sum = Partial {
                p: i128::from(p),
                q: u128::from(q),
            };
            true
        }
        None => false,
    }
}

// Adds p / q, if all numbers on the way are words of 64 bits. Else the sum stays as it was.
#[inline(always)]
fn add_short(sum: &mut Partial, p: i128, q: u64) -> bool
    requires numer { unsigned_abs p ≤ 2 ^ 126 }
    requires some { 0 < q }
    requires denom { q < 2 ^ 63 }
    ensures fits { IsTrue result → SumFits sum.old (over p q) }
    ensures sum { IsTrue result → sum.new ≡ sum.old +ℚ over p q }
    ensures kept { IsFalse result → sum.new ≡ sum.old }
{
    if sum.q == u128::from(q) {
        let both = sum.p.wrapping_add(p);
        if is_word(both) {
            sum.p = both;
            return true;
        }
        return false;
    }
    if !is_word(p) {
        return false;
    }
    if sum.p == 0 {
        *sum = Partial {
            p,
            q: u128::from(q),
        };
        return true;
    }
    add_words(sum, p as i64, q)
}

// Adds a fraction of words to a sum, if all numbers on the way are words of 64 bits.
#[inline(always)]
fn add_words(sum: &mut Partial, r: i64, s: u64) -> bool
    requires some { 0 < s }
    requires denom { s < 2 ^ 63 }
    ensures fits { IsTrue result → SumFits sum.old (over r s) }
    ensures sum { IsTrue result → sum.new ≡ sum.old +ℚ over r s }
    ensures kept { IsFalse result → sum.new ≡ sum.old }
{
    match words(sum.p, sum.q) {
        Some((p, q)) => put_sum(sum, p, q, r, s),
        None => false,
    }
}

// Puts the sum of two fractions, if all numbers on the way are words of 64 bits.
#[inline(always)]
fn put_sum(sum: &mut Partial, p: i64, q: u64, r: i64, s: u64) -> bool
    requires left { IsWordDenom q }
    requires right { IsWordDenom s }
    ensures { PutsOrKeeps (over p q +ℚ over r s) sum.old sum.new result }
{
    if q == 1 {
        return put(sum, raised_sum(p, s, r, s));
    }
    if s == 1 {
        return put(sum, raised_sum(r, q, p, q));
    }
    if q < s {
        put_ordered(sum, p, q, r, s)
    } else {
        put_ordered(sum, r, s, p, q)
    }
}

// Puts the sum of two fractions. The first denominator divides the other more often than not.
#[inline(always)]
fn put_ordered(sum: &mut Partial, p: i64, q: u64, r: i64, s: u64) -> bool
    requires left { IsWordDenom q }
    requires right { IsWordDenom s }
    ensures { PutsOrKeeps (over p q +ℚ over r s) sum.old sum.new result }
{
    let rest = s % q;
    if rest == 0 {
        return put(sum, raised_sum(p, s / q, r, s));
    }
    put_mixed(sum, p, q, r, s, rest)
}

// Puts the sum of two fractions, of whose denominators the remainder is given.
#[inline(never)]
fn put_mixed(sum: &mut Partial, p: i64, q: u64, r: i64, s: u64, rest: u64) -> bool
    requires left { IsWordDenom q }
    requires right { IsWordDenom s }
    requires rest { rest ≡ s % q }
    ensures { PutsOrKeeps (over p q +ℚ over r s) sum.old sum.new result }
{
    put(sum, common_sum(p, q, r, s, word_gcd(rest, q)))
}

// The product of two fractions, if its parts are words of 64 bits.
#[inline(always)]
fn word_product(p: i128, q: u128, r: i128, s: u128) -> Option<(i64, u64)>
    requires { AreReduced p q r s }
    ensures fits { IsSome result → ProductFits (over p q) (over r s) }
    ensures product { IfSome result (λ t. over t.0 t.1 ≡ over p q *ℚ over r s) }
    ensures some { IfSome result (λ t. 0 < t.1) }
    ensures below { IfSome result (λ t. t.1 < 2 ^ 63) }
{
    let (p, q) = words(p, q)?;
    let (r, s) = words(r, s)?;
    pair_product(p, q, r, s)
}

// Adds the product of p / q and r / s, if all numbers on the way are words of 64 bits. Else the sum
// stays as it was.
#[inline(always)]
fn add_word_product(sum: &mut Partial, p: i128, q: u128, r: i128, s: u128) -> bool
    requires { AreReduced p q r s }
    ensures product_fits { IsTrue result → ProductFits (over p q) (over r s) }
    ensures sum_fits { IsTrue result → SumFits sum.old (over p q *ℚ over r s) }
    ensures sum { IsTrue result → sum.new ≡ sum.old +ℚ over p q *ℚ over r s }
    ensures kept { IsFalse result → sum.new ≡ sum.old }
{
    match word_product(p, q, r, s) {
        Some((numer, denom)) => add_words(sum, numer, denom),
        None => false,
    }
}

impl Partial {
    /// 0.
    pub fn zero() -> Partial
        ensures { result ≡ zero_ℚ }
    {
        Partial { p: 0, q: 1 }
    }

    /// The fraction as a partial sum.
    pub fn of(fraction: Frac) -> Partial
        ensures { result ≡ fraction }
    {
        Partial {
            p: fraction.numer(),
            q: fraction.denom() as u128,
        }
    }

    /// Its value in lowest terms.
    #[inline(always)]
    pub fn value(&self) -> Frac
        ensures { result ≡ self.now }
    {
        match words(self.p, self.q) {
            Some((p, q)) => reduced_words(p, q),
            None => of_parts(self.p, self.q),
        }
    }

    /// Whether it is 0.
    #[inline(always)]
    pub fn is_zero(&self) -> bool
        ensures { IsTrue result ↔ (self.now ≡ zero_ℚ) }
    {
        self.p == 0
    }

    /// Whether it is this fraction.
    #[inline(always)]
    pub fn is(&self, fraction: Frac) -> bool
        ensures { IsTrue result ↔ (self.now ≡ fraction) }
    {
        let (r, s) = fraction.parts();
        if self.p == r && self.q == s {
            return true;
        }
        match (words(self.p, self.q), words(r, s)) {
            (Some((p, q)), Some((r, s))) => are_equal(p, q, r, s),
            _ => self.value() == fraction,
        }
    }

    /// Whether it is at most this fraction.
    pub fn is_at_most(&self, fraction: Frac) -> bool
        ensures { IsTrue result ↔ self.now ≤ℚ fraction }
    {
        let (r, s) = fraction.parts();
        match (words(self.p, self.q), words(r, s)) {
            (Some((p, q)), Some((r, s))) => are_ordered(p, q, r, s),
            _ => self.value() <= fraction,
        }
    }

    /// Whether it is at least this fraction.
    pub fn is_at_least(&self, fraction: Frac) -> bool
        ensures { IsTrue result ↔ fraction ≤ℚ self.now }
    {
        let (r, s) = fraction.parts();
        match (words(self.p, self.q), words(r, s)) {
            (Some((p, q)), Some((r, s))) => are_ordered(r, s, p, q),
            _ => fraction <= self.value(),
        }
    }

    /// Adds the product of a multiplier and a coefficient. It is refused if the product or the
    /// sum is refused in lowest terms, and then it stays as it was.
    #[inline(always)]
    pub fn add_product(&mut self, multiplier: Frac, coefficient: Frac) -> Result<(), Overflow>
        ensures fits { IsOk result ↔ (ProductFits multiplier coefficient
            × SumFits self.old (multiplier *ℚ coefficient)) }
        ensures sum { OnOk result (self.new ≡ self.old +ℚ multiplier *ℚ coefficient) }
        ensures kept { OnErr result (self.new ≡ self.old) }
    {
        let (p, q) = multiplier.parts();
        let (r, s) = coefficient.parts();
        if are_short(p, q) && are_short(r, s) {
            let numer = i128::from(p as i64) * i128::from(r as i64);
            let denom = q as u64 * s as u64;
            if add_short(self, numer, denom) {
                return Ok(());
            }
            add_exact(self, p, q, r, s)
        } else {
            add_long(self, p, q, r, s)
        }
    }

    /// Adds the product of a multiplier and a number that often is 0.
    #[inline(always)]
    pub fn add_product_or_zero(&mut self, multiplier: Frac, number: Frac) -> Result<(), Overflow>
        ensures fits { IsOk result ↔ (ProductFits multiplier number
            × SumFits self.old (multiplier *ℚ number)) }
        ensures sum { OnOk result (self.new ≡ self.old +ℚ multiplier *ℚ number) }
        ensures kept { OnErr result (self.new ≡ self.old) }
    {
        if number.is_zero() {
            // (what is known of its parts says that a sum is in bound, so 0 can be added)
            prove!(self.q > 0);
            return Ok(());
        }
        self.add_product(multiplier, number)
    }
}

// Adds the product of p / q and r / s, by words of 64 bits if they hold it.
#[inline(never)]
fn add_long(sum: &mut Partial, p: i128, q: u128, r: i128, s: u128) -> Result<(), Overflow>
    requires { AreReduced p q r s }
    ensures { AddsProduct (over p q) (over r s) sum.old sum.new result }
{
    if add_word_product(sum, p, q, r, s) {
        return Ok(());
    }
    add_exact(sum, p, q, r, s)
}

// Adds the product of p / q and r / s, in lowest terms all the way.
#[inline(never)]
fn add_exact(sum: &mut Partial, p: i128, q: u128, r: i128, s: u128) -> Result<(), Overflow>
    requires { AreReduced p q r s }
    ensures { AddsProduct (over p q) (over r s) sum.old sum.new result }
{
    let exact = exact_sum(sum.value(), of_parts(p, q), of_parts(r, s))?;
    *sum = Partial::of(exact);
    Ok(())
}

// The sum with a product, in lowest terms.
fn exact_sum(sum: Frac, multiplier: Frac, coefficient: Frac) -> Result<Frac, Overflow>
    ensures fits { IsOk result ↔ (ProductFits multiplier coefficient
        × SumFits sum (multiplier *ℚ coefficient)) }
    ensures value { IfOk result (λ f. f ≡ sum +ℚ multiplier *ℚ coefficient) }
{
    sum.add(multiplier.mul(coefficient)?)
}
