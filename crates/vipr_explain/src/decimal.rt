//! Numbers with a decimal point, which aren't in the format.

use crate::token::{DIGITS, are_all, parted};
use crate::wanted::count_of;
use std::fmt::{self, Display, Formatter, Write};
use vipr_frac::Frac;

/// Digits are read up to here, and numbers from here on are long.
const LIMIT: u64 = 1_000_000_000_000_000_000;

/// The largest exponent of a number that is shown as a fraction.
const MOST_EXPONENT: u32 = 36;

/// How many places a decimal has at most that a number is shown as.
const MOST_PLACES: u32 = 18;

/// What was read of a decimal behind its sign: its digits as a number, and the power of ten below
/// them, 0 before the point.
#[derive(Clone, Copy)]
struct Decimal {
    above: u64,
    below: u64,
}

/// The value of a decimal, `None` for other bytes. Only the first one may be a sign.
pub(crate) fn fraction_of(word: &[u8]) -> Option<Frac> {
    match word {
        [b'-', size @ ..] => size_of(size).map(|size| size.neg()),
        [b'+', size @ ..] => size_of(size),
        _ => size_of(word),
    }
}

/// The value of a number with an exponent, `None` for other bytes or a large exponent.
pub(crate) fn exponent_value(word: &[u8]) -> Option<Frac> {
    let (front, behind) = parted(word, b"eE")?;
    let (is_small, digits) = match behind {
        [b'-', digits @ ..] => (true, digits),
        [b'+', digits @ ..] | digits => (false, digits),
    };
    let is_exponent = !digits.is_empty() && digits.len() <= 3 && are_all(digits, DIGITS);
    let size = count_of(digits);
    if !is_exponent || size > MOST_EXPONENT || front.contains(&b'/') {
        return None;
    }
    let scale = i128::try_from(10u128.saturating_pow(size)).ok()?;
    let factor = if is_small {
        Frac::new(1, scale)
    } else {
        Frac::new(scale, 1)
    };
    let number = match fraction_of(front) {
        Some(decimal) => decimal,
        None => Frac::parse(front).ok()?,
    };
    number.mul(factor.ok()?).ok()
}

// The value of a decimal without a sign.
fn size_of(word: &[u8]) -> Option<Frac> {
    if word.len() < 2 {
        return None;
    }
    let start = Some(Decimal { above: 0, below: 0 });
    value(word.iter().copied().fold(start, next))
}

// What was read behind one more byte.
fn next(decimal: Option<Decimal>, byte: u8) -> Option<Decimal> {
    let Decimal { above, below } = decimal?;
    match byte {
        b'0'..=b'9' if above.max(below) < LIMIT => Some(Decimal {
            above: above * 10 + u64::from(byte - b'0'),
            below: below * 10,
        }),
        b'.' if below == 0 => Some(Decimal { above, below: 1 }),
        _ => None,
    }
}

// The value of what was read, if the point was.
fn value(decimal: Option<Decimal>) -> Option<Frac> {
    let Decimal { above, below } = decimal?;
    Frac::new(i128::from(above), i128::from(below)).ok()
}

/// A number, and about what it is if its numerator or denominator has more than 18 digits.
#[derive(Clone, Copy)]
pub(crate) struct Measured(pub(crate) Frac);

/// About what a number is that isn't 0: six digits, rounded, with a power of ten if it is large or
/// small.
#[derive(Clone, Copy)]
pub(crate) struct About(pub(crate) Frac);

/// A decimal that ends: its digits as a number, and how many of them are behind the point.
#[derive(Clone, Copy)]
pub(crate) struct ExactDecimal {
    is_negative: bool,
    digits: u128,
    places: u32,
}

/// The decimal that a number is, if it has at most 18 places.
pub(crate) fn exact_decimal(number: Frac) -> Option<ExactDecimal> {
    let below = number.denom().unsigned_abs().max(1);
    for places in 0..=MOST_PLACES {
        let scale = 10u128.saturating_pow(places);
        if scale % below == 0 {
            return Some(ExactDecimal {
                is_negative: number.numer() < 0,
                digits: number.numer().unsigned_abs().checked_mul(scale / below)?,
                places,
            });
        }
    }
    None
}

impl Display for ExactDecimal {
    fn fmt<W: Write>(&self, f: &mut Formatter<W>) -> fmt::Result {
        let mut place = 10u128.saturating_pow(self.places).max(1);
        let sign = if self.is_negative { "-" } else { "" };
        write!(f, "{sign}{}", self.digits / place)?;
        if self.places > 0 {
            f.write_str(".")?;
        }
        for _ in 0..self.places {
            place = (place / 10).max(1);
            write!(f, "{}", self.digits / place % 10)?;
        }
        Ok(())
    }
}

impl Display for Measured {
    fn fmt<W: Write>(&self, f: &mut Formatter<W>) -> fmt::Result {
        let number = self.0;
        let most = number
            .numer()
            .unsigned_abs()
            .max(number.denom().unsigned_abs());
        write!(f, "{number}")?;
        if most >= u128::from(LIMIT) {
            write!(f, " (about {})", About(number))?;
        }
        Ok(())
    }
}

impl Display for About {
    fn fmt<W: Write>(&self, f: &mut Formatter<W>) -> fmt::Result {
        let (digits, power) = first_digits(self.0);
        let is_plain = (-9..0).contains(&power);
        let behind = if is_plain { power.unsigned_abs() } else { 5 };
        let mut place = 10u128.saturating_pow(behind).max(1);
        let sign = if self.0.numer() < 0 { "-" } else { "" };
        write!(f, "{sign}{}.", digits / place)?;
        for _ in 0..behind {
            place = (place / 10).max(1);
            write!(f, "{}", digits / place % 10)?;
        }
        if !is_plain {
            write!(f, "e{}", power.saturating_add(5))?;
        }
        Ok(())
    }
}

// The first six digits of a number, rounded, and the power of ten of the sixth.
fn first_digits(number: Frac) -> (u128, i32) {
    let mut above = number.numer().unsigned_abs();
    let mut below = number.denom().unsigned_abs();
    let mut power: i32 = 0;
    for _ in 0..50 {
        match above / below.max(1) {
            0..100_000 if above < u128::MAX / 32 => above = above.saturating_mul(10),
            0..100_000 => below /= 10,
            100_000..1_000_000 => continue,
            _ => {
                power = power.saturating_add(2);
                below = below.saturating_mul(10);
            }
        }
        power = power.saturating_sub(1);
    }
    (above.saturating_add(below / 2) / below.max(1), power)
}
