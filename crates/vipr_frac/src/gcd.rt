//! The greatest common divisor, and division by it, with short ways for words of 64 bits.
ghost use Rattle.std.specs.Prelude.{◌≡◌, ◌<◌, ◌≤◌, ◌/◌, ◌%◌};
ghost use Rattle.vipr_spec.specs.Gcd.{gcd};

const WORD: u128 = u64::MAX as u128;

// The greatest common divisor of an odd word and one that isn't 0.
#[inline(always)]
fn odd_gcd(a: u64, b: u64) -> u64
    requires { a % 2 ≡ 1 }
    ensures { result ≡ gcd a b }
{
    let mut x = a;
    let mut y = b;
    while y != 0 && x != 1 {
        let odd = y >> y.trailing_zeros();
        y = x.abs_diff(odd);
        x = x.min(odd);
    }
    x
}

/// The greatest common divisor of two words, by halving: it is fast if they are of like size.
pub(crate) fn word_gcd(a: u64, b: u64) -> u64
    requires { 0 < b }
    ensures value { result ≡ gcd a b }
    ensures some { 0 < result }
    ensures at_most { result ≤ b }
{
    if a == 0 {
        return b;
    }
    if a == 1 {
        return 1;
    }
    let twos = b.trailing_zeros();
    odd_gcd(b >> twos, a) << twos.min(a.trailing_zeros())
}

/// The remainder of two words, which is mostly the first.
#[inline(always)]
pub(crate) fn word_rest(a: u64, b: u64) -> u64
    requires { 0 < b }
    ensures { result ≡ a % b }
{
    if a < b { a } else { a % b }
}

/// The whole quotient of two words. Nothing is divided by 1.
#[inline(always)]
pub(crate) fn word_quotient(n: u64, g: u64) -> u64
    requires { 0 < g }
    ensures { result ≡ n / g }
{
    if g == 1 { n } else { n / g }
}

fn remainder(a: u128, b: u128) -> u128
    requires { 0 < b }
    ensures { result ≡ a % b }
{
    if a <= WORD && b <= WORD {
        (a as u64 % b as u64) as u128
    } else {
        a % b
    }
}

pub(crate) fn gcd_of(a: u128, b: u128) -> u128
    requires { 0 < b }
    ensures value { result ≡ gcd a b }
    ensures some { 0 < result }
    ensures at_most { result ≤ b }
{
    if a == 1 || b == 1 {
        1
    } else if b <= WORD {
        gcd_with_word(a, b as u64)
    } else if a <= WORD {
        gcd_with_word(b, a as u64)
    } else {
        wide_gcd(a, b)
    }
}

fn gcd_with_word(n: u128, word: u64) -> u128
    ensures { result ≡ gcd n word }
{
    if word == 0 {
        return n;
    }
    let rest = remainder(n, u128::from(word));
    u128::from(word_gcd(rest as u64, word))
}

// By halving, until one of the two is a word.
#[inline(never)]
fn wide_gcd(a: u128, b: u128) -> u128
    requires first { 0 < a }
    requires second { 0 < b }
    ensures { result ≡ gcd a b }
{
    let twos = b.trailing_zeros();
    let mut x = b >> twos;
    let mut y = a;
    while y > WORD {
        let odd = y >> y.trailing_zeros();
        y = x.abs_diff(odd);
        x = x.min(odd);
    }
    gcd_with_word(x, y as u64) << twos.min(a.trailing_zeros())
}

// The whole quotient.
pub(crate) fn quotient(n: u128, g: u128) -> u128
    requires { 0 < g }
    ensures { result ≡ n / g }
{
    if g == 1 {
        n
    } else if n <= WORD && g <= WORD {
        (n as u64 / g as u64) as u128
    } else {
        n / g
    }
}
