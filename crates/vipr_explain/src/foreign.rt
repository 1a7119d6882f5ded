//! Numbers and signs as other programs write them: the dates that a spreadsheet makes of fractions,
//! exponents, separators between digits, and bytes that no text has.

use crate::algebra::size_of;
use crate::decimal::exponent_value;
use crate::page::Page;
use crate::stranger::StrangeBytes;
use crate::syntax::TextFault;
use crate::token::{DIGITS, are_all, is_spelled, parted};
use crate::wanted::Wanted::*;
use crate::wanted::{Section, Wanted, count_of};
use vipr_frac::Frac;

/// Asks whether a token is such a one, and answers whether it did.
pub(crate) fn ask_about_foreign(page: &mut Page, fault: &TextFault<'_>) -> bool {
    let word = fault.word;
    let is_begun = !matches!(fault.found.progress.section, Section::Version);
    if is_begun && has_control(word) {
        let shown = StrangeBytes(word);
        write!(
            page,
            "a byte of `{shown}` is no part of a text: is the file damaged, "
        );
        page.put("or was more of a buffer written than its text?");
        return true;
    }
    if !is_number(fault.found.progress.wanted) {
        return false;
    }
    if is_date(word) {
        let shown = StrangeBytes(word);
        write!(
            page,
            "is `{shown}` a date? A spreadsheet makes one of a fraction as 1/2: "
        );
        page.put("import the column as text");
        return true;
    }
    if let [0xe2, 0x88, 0x92, size @ ..] = word {
        let size = StrangeBytes(size);
        write!(
            page,
            "is `-{size}` meant? The sign here is U+2212, a minus of typesetting: "
        );
        page.put("write the `-` of ASCII");
        return true;
    }
    ask_about_exponent(page, word) || ask_about_digits(page, word)
}

// Whether a number or an index is wanted.
fn is_number(wanted: Wanted) -> bool {
    matches!(
        wanted,
        RightHandSide
            | RowCoefficient
            | EntryMultiplier
            | LowerBound
            | UpperBound
            | Count
            | BoundCount
            | RowCount
            | RowIndex
            | EntryCount
            | EntryIndex
            | Branch
    )
}

// Whether a byte of a token is a control.
fn has_control(word: &[u8]) -> bool {
    word.iter().any(|byte| *byte < b' ' || *byte == 127)
}

// Whether a token looks like a date: a number and a month, or a day, a month and a year.
fn is_date(word: &[u8]) -> bool {
    let Some((first, behind)) = parted(word, b"-/") else {
        return false;
    };
    if is_month(first) {
        return is_short_number(behind);
    }
    let is_day = is_short_number(first);
    match parted(behind, b"-/") {
        Some((middle, year)) => {
            is_day && is_short_number(year) && (is_month(middle) || is_short_number(middle))
        }
        None => is_day && is_month(behind),
    }
}

fn is_month(word: &[u8]) -> bool {
    is_spelled(first_letters(word), &MONTHS) && word.iter().all(|byte| byte.is_ascii_alphabetic())
}

// The first three bytes of a token.
fn first_letters(word: &[u8]) -> &[u8] {
    &word[..word.len().min(3)]
}

fn is_short_number(word: &[u8]) -> bool {
    !word.is_empty() && word.len() <= 4 && are_all(word, DIGITS)
}

#[rattlefmt::skip]
const MONTHS: [&[u8]; 12] = [
    b"jan", b"feb", b"mar", b"apr", b"may", b"jun", b"jul", b"aug", b"sep", b"oct", b"nov", b"dec",
];

// Writes what a number with an exponent is, unless it is as large as an infinite bound.
fn ask_about_exponent(page: &mut Page, word: &[u8]) -> bool {
    let Some(value) = exponent_value(word) else {
        return false;
    };
    let size = size_of(value);
    if size.numer() >= LEAST_INFINITE {
        return false;
    }
    write!(page, "exponents are not in the format: write {value}");
    if !size.is_zero() && size.denom() / PARTS >= size.numer() {
        page.put("; or is it the error of a rounding, and 0 meant?");
    }
    true
}

// A number of this size or more may be an infinite bound.
const LEAST_INFINITE: i128 = 1_000_000_000_000_000;

// A number that is at most one of so many parts of 1 may be 0.
const PARTS: i128 = 1_000_000;

// Writes what a number is whose digits are in groups of three.
fn ask_about_digits(page: &mut Page, word: &[u8]) -> bool {
    let ([b'+' | b'-', digits @ ..] | digits) = word;
    let Some(value) = grouped(digits) else {
        return false;
    };
    let value = if word.starts_with(b"-") {
        value.neg()
    } else {
        value
    };
    let separator = if digits.contains(&b',') {
        ", or a decimal with a comma?"
    } else {
        "?"
    };
    write!(
        page,
        "a number is digits without separators: is {value} meant{separator}"
    );
    true
}

// The value of digits in groups of three, the first of which may be shorter.
fn grouped(digits: &[u8]) -> Option<Frac> {
    let (first, mut rest) = parted(digits, SEPARATORS)?;
    if first.is_empty() || first.len() > 3 || !are_all(first, DIGITS) {
        return None;
    }
    let mut value = i128::from(count_of(first));
    for _ in 0..MOST_GROUPS {
        let (group, behind) = match parted(rest, SEPARATORS) {
            Some((group, behind)) => (group, Some(behind)),
            None => (rest, None),
        };
        if group.len() != 3 || !are_all(group, DIGITS) {
            return None;
        }
        value = value
            .checked_mul(1_000)?
            .checked_add(i128::from(count_of(group)))?;
        match behind {
            Some(behind) => rest = behind,
            None => return Frac::new(value, 1).ok(),
        }
    }
    None
}

const SEPARATORS: &[u8] = b",'_";

// How many groups of three digits a number has at most.
const MOST_GROUPS: u32 = 8;
