//! Fractions as they are written: an optional sign, digits, and optionally a slash and digits.
ghost use Rattle.std.specs.Prelude.{◌≡◌, ℕ, ◌+◌, ◌-◌, ◌^◌, ◌<◌, ◌≤◌, ◌⊎◌, ◌↔◌, min, MatchOption};
ghost use Rattle.std.specs.Prelude.{IfSome, IsOk, OnOk, OnErr, length, ◌++◌, vec_len, vec_capacity};
ghost use Rattle.std.specs.Prelude.{take, true, false, Some, Ok, None, slice_index};
ghost use Rattle.std.specs.Str.Parse.{without_leading_sign, starts_with_minus};
ghost use Rattle.std.specs.{List.position, Option.option_map};
ghost use Rattle.vipr_spec.specs.Digits.{natural_of, natural_after, is_digit};
ghost use Rattle.vipr_spec.specs.Number.{SpellsNumber, is_slash, slash_place, top_of, bottom_of};
ghost use Rattle.vipr_spec.specs.Number.{signed_integer, written_fraction, of_parts, number_read};
ghost use Rattle.vipr_spec.specs.Number.{number_text};
ghost use Rattle.vipr_spec.specs.{Fraction.ℚ, Fraction.most, Tokens.is_white};
ghost use Rattle.vipr_frac.specs.Reading.{as_read, IsLoneDigit};

use crate::frac::{Frac, of_whole, reduced, reduced_words};
use itoa::Buffer;
use std::alloc::AllocError;

/// Why bytes are not the spelling of a bounded fraction, in the order in which it is tested.
#[derive(Clone, Copy, Debug, PartialEq, Eq)]
pub enum NumberError {
    /// They are not spelled as a number.
    Bad,
    /// The numerator or the denominator as written is over 2^127 - 1.
    TooLarge,
    /// The denominator is 0.
    ZeroDenominator,
}

const MOST: u128 = i128::MAX as u128;

// So many digits fit a 64-bit word.
const SHORT: usize = 18;

// The number that a few digits write.
fn short_natural(s: &[u8]) -> Option<u64>
    requires { length s.now ≤ SHORT }
    ensures value { result ≡ natural_of s.now }
    ensures small { IfSome result (λ n. n < 10 ^ 18) }
{
    if s.is_empty() {
        return None;
    }
    let (value, len) = front_natural(s);
    if len == s.len() { Some(value) } else { None }
}

// The number that digits write, or one more than the bound where it is over the bound. As many
// digits as fit a 64-bit word are read at a time.
fn long_natural(s: &[u8]) -> Option<u128>
    ensures { result ≡ option_map (min (most + 1)) (natural_of s.now) }
{
    if s.is_empty() {
        return None;
    }
    let mut value: u128 = 0;
    let mut from = 0;
    while from < s.len() && value <= MOST / 1_000_000_000_000_000_000 {
        let (part, len) = front_natural(&s[from..]);
        if len == 0 {
            return None;
        }
        let power = 10u64.pow(len as u32);
        value = (value * u128::from(power) + u128::from(part)).min(MOST + 1);
        from += len;
    }
    for i in from..s.len() {
        let b = s[i];
        if b < b'0' || b > b'9' {
            return None;
        }
        value = if value > MOST / 10 {
            MOST + 1
        } else {
            (value * 10 + u128::from(b - b'0')).min(MOST + 1)
        };
    }
    Some(value)
}

fn natural(s: &[u8]) -> Option<u128>
    ensures { result ≡ option_map (min (most + 1)) (natural_of s.now) }
{
    if s.len() > SHORT {
        return long_natural(s);
    }
    match short_natural(s) {
        Some(n) => Some(u128::from(n)),
        None => None,
    }
}

fn starts_negative(s: &[u8]) -> bool
    ensures { result ≡ starts_with_minus s.now }
{
    !s.is_empty() && s[0] == b'-'
}

fn unsigned(s: &[u8]) -> &[u8]
    ensures { result.now ≡ without_leading_sign s.now }
{
    if !s.is_empty() && (s[0] == b'-' || s[0] == b'+') {
        &s[1..]
    } else {
        s
    }
}

fn find_slash(s: &[u8]) -> Option<usize>
    ensures { result ≡ position is_slash s.now }
{
    s.iter().position(|b| *b == b'/')
}

fn slash(s: &[u8]) -> usize
    ensures value { result ≡ slash_place s.now }
    ensures bound { result ≤ length s.now }
{
    find_slash(s).unwrap_or(s.len())
}

fn bottom(s: &[u8], place: usize) -> &[u8]
    requires { place ≡ slash_place s.now }
    ensures { result.now ≡ bottom_of s.now }
{
    if place < s.len() {
        &s[place + 1..]
    } else {
        b"1"
    }
}

fn with_sign(is_negative: bool, size: u128) -> i128
    requires { size ≤ most }
    ensures { result ≡ signed_integer is_negative size }
{
    let size = size as i128;
    if is_negative { -size } else { size }
}

// The fraction of a numerator's size and a denominator as they are written.
fn fraction(is_negative: bool, top: u128, bottom: u128) -> Result<Frac, NumberError>
    ensures { as_read result ≡ written_fraction is_negative top bottom }
{
    if top > MOST || bottom > MOST {
        return Err(NumberError::TooLarge);
    }
    if bottom == 0 {
        return Err(NumberError::ZeroDenominator);
    }
    Ok(reduced(with_sign(is_negative, top), bottom))
}

// A number without its sign.
fn unsigned_fraction(is_negative: bool, text: &[u8]) -> Result<Frac, NumberError>
    ensures { as_read result
        ≡ of_parts is_negative (natural_of (top_of text.now)) (natural_of (bottom_of text.now)) }
{
    let place = slash(text);
    match (natural(&text[..place]), natural(bottom(text, place))) {
        (Some(p), Some(q)) => fraction(is_negative, p, q),
        _ => Err(NumberError::Bad),
    }
}

// A whole number of a few digits: most numbers of most certificates.
fn short_whole(is_negative: bool, text: &[u8]) -> Option<Frac>
    ensures { MatchOption result ((SHORT < length text.now) ⊎ (natural_of text.now ≡ None))
        (λ x. Ok x ≡ of_parts is_negative (natural_of (top_of text.now))
        (natural_of (bottom_of text.now))) }
{
    if text.len() > SHORT {
        return None;
    }
    match short_natural(text) {
        Some(n) => Some(of_whole(with_sign(is_negative, u128::from(n)))),
        None => None,
    }
}

// The digit that a byte is, or a number above 9.
#[inline(always)]
fn digit_of(b: u8) -> u8
    ensures digit { result ≤ 9 → (48 ≤ b) × (b ≤ 57) × (result ≡ b - 48) }
    ensures other { 9 < result → is_digit b ≡ false }
{
    b.wrapping_sub(b'0')
}

/// The digit at the front, if a space follows it.
#[inline(always)]
pub fn lone_digit(s: &[u8]) -> Option<u8>
    ensures { IfSome result (IsLoneDigit s.now) }
{
    if s.len() < 2 || s[1] != b' ' {
        return None;
    }
    let digit = digit_of(s[0]);
    if digit > 9 { None } else { Some(digit) }
}

/// The number that the digits at the front write, 18 of them at most, and how many they are.
#[inline(always)]
pub fn front_natural(s: &[u8]) -> (u64, usize)
    ensures within { result.1 ≤ length s.now }
    ensures few { result.1 ≤ SHORT }
    ensures digits { (k : ℕ) → k < result.1 → is_digit (slice_index s.now k) ≡ true }
    ensures longest { result.1 < SHORT → result.1 < length s.now →
        is_digit (slice_index s.now result.1) ≡ false }
    ensures value { natural_after 0 (take result.1 s.now) ≡ Some result.0 }
    ensures small { result.0 < 10 ^ 18 }
{
    let end = s.len().min(SHORT);
    let mut value: u64 = 0;
    for i in 0..end {
        let digit = digit_of(s[i]);
        if digit > 9 {
            return (value, i);
        }
        value = value * 10 + u64::from(digit);
    }
    (value, end)
}

// A number of 18 digits at most with its sign.
#[inline(always)]
fn short_signed(is_negative: bool, size: u64) -> i64
    requires { size < 10 ^ 18 }
    ensures { result ≡ signed_integer is_negative size }
{
    let size = size as i64;
    if is_negative { -size } else { size }
}

// The fraction of a numerator and the denominator at the front, and that one's length. Both fit a
// word, so their common divisor needs no step of 128 bits.
fn front_fraction(is_negative: bool, top: u64, s: &[u8]) -> Option<(Frac, usize)>
    requires { top < 10 ^ 18 }
    ensures within { IfSome result (λ r. r.1 ≤ length s.now) }
    ensures digits { IfSome result
        (λ r. (k : ℕ) → k < r.1 → is_digit (slice_index s.now k) ≡ true) }
    ensures value { IfSome result
        (λ r. Ok r.0 ≡ of_parts is_negative (Some top) (natural_of (take r.1 s.now))) }
{
    let (bottom, len) = front_natural(s);
    if len == 0 || bottom == 0 {
        return None;
    }
    let value = reduced_words(short_signed(is_negative, top), bottom);
    Some((value, len))
}

// A number without its sign at the front, and its length.
#[inline(always)]
fn front_unsigned(is_negative: bool, s: &[u8]) -> Option<(Frac, usize)>
    ensures within { IfSome result (λ r. r.1 ≤ length s.now) }
    ensures digit { IfSome result
        (λ r. (0 < r.1) × (is_digit (slice_index s.now 0) ≡ true)) }
    ensures solid { IfSome result
        (λ r. (k : ℕ) → k < r.1 → is_white (slice_index s.now k) ≡ false) }
    ensures value { IfSome result
        (λ r. Ok r.0 ≡ of_parts is_negative (natural_of (top_of (take r.1 s.now)))
        (natural_of (bottom_of (take r.1 s.now)))) }
{
    // most numbers of most certificates
    if let Some(digit) = lone_digit(s) {
        let whole = short_signed(is_negative, u64::from(digit));
        return Some((of_whole(i128::from(whole)), 1));
    }
    let (top, len) = front_natural(s);
    if len == 0 {
        return None;
    }
    if len < s.len() && s[len] == b'/' {
        let Some((value, more)) = front_fraction(is_negative, top, &s[len + 1..]) else {
            return None;
        };
        return Some((value, len + 1 + more));
    }
    Some((of_whole(i128::from(short_signed(is_negative, top))), len))
}

impl Frac {
    /// The fraction that the bytes at the front spell, and how many they are, if it begins with
    /// a digit or a minus, and neither part has more than 18 digits. What follows them isn't
    /// looked at. `None` says nothing of the bytes.
    #[inline(always)]
    pub fn parse_front(s: &[u8]) -> Option<(Frac, usize)>
        ensures within { IfSome result (λ r. (0 < r.1) × (r.1 ≤ length s.now)) }
        ensures solid { IfSome result
            (λ r. (k : ℕ) → k < r.1 → is_white (slice_index s.now k) ≡ false) }
        ensures read { IfSome result (λ r. number_read (take r.1 s.now) ≡ Ok r.0) }
    {
        let is_negative = starts_negative(s);
        let sign = usize::from(is_negative);
        let Some((value, len)) = front_unsigned(is_negative, &s[sign..]) else {
            return None;
        };
        Some((value, sign + len))
    }

    /// The fraction that the bytes spell. Leading zeros and parts with a common divisor are
    /// accepted.
    pub fn parse(b: &[u8]) -> Result<Frac, NumberError>
        ensures read { as_read result ≡ number_read b.now }
        ensures spelled { (x : ℚ) → (result ≡ Ok x) ↔ SpellsNumber b.now x }
    {
        let is_negative = starts_negative(b);
        let text = unsigned(b);
        match short_whole(is_negative, text) {
            Some(whole) => Ok(whole),
            None => unsigned_fraction(is_negative, text),
        }
    }

    /// Appends the numerator, and if the denominator is not 1 a slash and the denominator: at
    /// most 80 bytes. It is refused only if the room was missing and could not be had, and then
    /// nothing is appended.
    pub fn write_to(&self, out: &mut Vec<u8>) -> Result<(), AllocError>
        ensures ok { OnOk result (out.new.items ≡ out.old.items ++ number_text self.now) }
        ensures err { OnErr result (out.new.items ≡ out.old.items) }
        ensures room { vec_len out.old + length (number_text self.now) ≤ vec_capacity out.old
            → IsOk result }
        ensures short { length (number_text self.now) ≤ 80 }
    {
        let mut top = Buffer::new();
        let numer = top.format(self.numer()).as_bytes();
        if self.denom() == 1 {
            return out.extend_from_slice(numer);
        }
        let mut bottom = Buffer::new();
        let denom = bottom.format(self.denom()).as_bytes();
        out.reserve(numer.len() + 1 + denom.len())?;
        out.extend_from_slice(numer)?;
        out.push(b'/')?;
        out.extend_from_slice(denom)
    }
}
