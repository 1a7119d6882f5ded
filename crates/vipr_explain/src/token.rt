//! What a token looks like, for those who have to guess what was meant by it.

use crate::decimal::fraction_of;
use crate::wanted::{KEYWORDS, is_word};
use vipr_frac::Frac;

/// What a token looks like.
#[derive(Clone, Copy)]
pub(crate) enum Look {
    /// It is the keyword of a section.
    Heading,
    /// It is one but for capitals.
    SmallHeading,
    NotAscii,
    /// It ends with a comma or a semicolon.
    Separated,
    Infinity,
    Decimal(Frac),
    Exponent,
    Comma,
    Fraction,
    /// It begins as a number does.
    Number,
    Word,
}

const INFINITIES: [&[u8]; 3] = [b"inf", b"infinity", b"infty"];

pub(crate) const DIGITS: &[u8] = b"0123456789";

impl Look {
    /// What these bytes look like.
    pub(crate) fn of(word: &[u8]) -> Look {
        let ([b'+' | b'-', number @ ..] | number) = word;
        match (keyword_of(word), fraction_of(word)) {
            (Some(keyword), _) if is_word(word, keyword) => Look::Heading,
            (Some(_), _) => Look::SmallHeading,
            _ if !word.is_ascii() => Look::NotAscii,
            _ if matches!(word, [_, .., b',' | b';']) => Look::Separated,
            _ if is_spelled(number, &INFINITIES) => Look::Infinity,
            (_, Some(fraction)) => Look::Decimal(fraction),
            _ if !matches!(number, [b'0'..=b'9' | b'.', ..]) => Look::Word,
            _ if number.contains(&b'/') => Look::Fraction,
            _ if number.contains(&b',') => Look::Comma,
            _ if is_exponent(number) => Look::Exponent,
            _ => Look::Number,
        }
    }
}

// Whether bytes are digits, with a point or without, a letter e, and an exponent.
fn is_exponent(number: &[u8]) -> bool {
    match parted(number, b"eE") {
        Some((front, [b'+' | b'-', size @ ..] | size)) => {
            are_all(front, b"0123456789.") && !size.is_empty() && are_all(size, DIGITS)
        }
        None => false,
    }
}

/// What is before the first byte that is one of these, and behind it.
pub(crate) fn parted<'a>(word: &'a [u8], at: &[u8]) -> Option<(&'a [u8], &'a [u8])> {
    for (position, byte) in word.iter().enumerate() {
        if at.contains(byte) {
            return Some((&word[..position], &word[position + 1..]));
        }
    }
    None
}

/// Whether a token looks like the begin of a comment, by the signs of some language.
pub(crate) fn is_comment(word: &[u8]) -> bool {
    matches!(
        word,
        [b'%' | b'#', ..] | [b'/', b'/' | b'*', ..] | [b';' | b'!'] | [b'-', b'-']
    )
}

/// Whether each byte is one of these.
pub(crate) fn are_all(word: &[u8], allowed: &[u8]) -> bool {
    for byte in word {
        if !allowed.contains(byte) {
            return false;
        }
    }
    true
}

/// Whether a token is one of these words, but for capitals.
pub(crate) fn is_spelled(word: &[u8], words: &[&[u8]]) -> bool {
    for other in words {
        if word.eq_ignore_ascii_case(other) {
            return true;
        }
    }
    false
}

/// Whether a token is one of these words.
pub(crate) fn is_any(word: &[u8], words: &[&[u8]]) -> bool {
    for other in words {
        if word == *other {
            return true;
        }
    }
    false
}

/// The keyword that these bytes are, but for capitals.
pub(crate) fn keyword_of(word: &[u8]) -> Option<&'static str> {
    for keyword in KEYWORDS {
        if word.eq_ignore_ascii_case(keyword.as_bytes()) {
            return Some(keyword);
        }
    }
    None
}
