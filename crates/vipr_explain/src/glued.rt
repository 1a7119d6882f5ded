//! Tokens that are two, since a space or a line break is missing between them, and numbers that are
//! two tokens and should be one.

use crate::algebra::ShownName;
use crate::excerpt::first;
use crate::meant::is_accepted;
use crate::page::Page;
use crate::stranger::StrangeBytes;
use crate::syntax::TextFault;
use crate::token::{DIGITS, Look, are_all, is_any, keyword_of};
use crate::wanted::Section::*;
use crate::wanted::Wanted::*;
use crate::wanted::{Section, TextProgress, Wanted, is_word};
use crate::words::Words;
use vipr_frac::Frac;

/// Asks whether a space, or more, is lost in the token at a fault, and answers whether it did.
pub(crate) fn ask_about_space(page: &mut Page, fault: &TextFault<'_>) -> bool {
    let Some((front, rest)) = parts_of(fault) else {
        return false;
    };
    let mut next = fault.found.progress;
    next.pass(front);
    let (shown_front, shown_rest) = (ShownName(front), ShownName(rest));
    if continues(&next, rest, fault.after) {
        write!(page, "did a space or a line break get lost ");
        write!(page, "between `{shown_front}` and `{shown_rest}`?");
        return true;
    }
    if begins_as_number(front) && begins_line(rest, fault.after) {
        write!(page, "is a part of the text lost ");
        write!(page, "between `{shown_front}` and `{shown_rest}`?");
        return true;
    }
    false
}

/// Asks whether two tokens are a mixed number, and answers whether it did.
pub(crate) fn ask_about_mixed(page: &mut Page, fault: &TextFault<'_>) -> bool {
    let Some(value) = mixed_number(fault) else {
        return false;
    };
    let (whole, part) = (StrangeBytes(fault.before), StrangeBytes(fault.word));
    write!(
        page,
        "is `{whole} {part}` a mixed number? Then write {value}"
    );
    true
}

// The front of a token that is what is wanted, and the rest, if that isn't a part of it.
fn parts_of<'a>(fault: &TextFault<'a>) -> Option<(&'a [u8], &'a [u8])> {
    let progress = &fault.found.progress;
    let word = fault.word;
    match words_of(progress) {
        [] => {
            let rest = after_number(word);
            let front = &word[..word.len().saturating_sub(rest.len())];
            let is_other = is_accepted(progress, front) && begins_token(rest);
            (is_other && !matches!(Look::of(word), Look::Exponent)).then_some((front, rest))
        }
        words => {
            for other in words {
                if word.starts_with(other) && word.len() > other.len() {
                    let size = other.len().min(word.len());
                    return Some((&word[..size], &word[size..]));
                }
            }
            None
        }
    }
}

// The words of which one is wanted, none if that is a number.
fn words_of(progress: &TextProgress) -> &'static [&'static [u8]] {
    match progress.wanted {
        Keyword => match progress.section {
            Section::Version => &[b"VER"],
            Variables => &[b"VAR"],
            Integers => &[b"INT"],
            Objective => &[b"OBJ"],
            Constraints => &[b"CON"],
            Section::Claim => &[b"RTP"],
            Solutions => &[b"SOL"],
            Derivations => &[b"DER"],
        },
        Wanted::Version => &[b"1.0"],
        Direction => &[b"min", b"max"],
        Sense => &[b"E", b"L", b"G"],
        Wanted::Claim => &[b"infeas", b"range"],
        Reason => &[b"asm", b"lin", b"rnd", b"uns", b"sol"],
        _ => &[],
    }
}

// What is after the number, with or without a sign, that a token begins with.
fn after_number(word: &[u8]) -> &[u8] {
    let ([b'+' | b'-', size @ ..] | size) = word;
    let rest = after_digits(size);
    match rest {
        [b'/', below @ ..] if begins_with_digit(below) => after_digits(below),
        _ => rest,
    }
}

fn after_digits(bytes: &[u8]) -> &[u8] {
    let count = bytes
        .iter()
        .take_while(|byte| DIGITS.contains(*byte))
        .count();
    &bytes[count.min(bytes.len())..]
}

fn begins_with_digit(bytes: &[u8]) -> bool {
    matches!(bytes, [b'0'..=b'9', ..])
}

fn begins_as_number(word: &[u8]) -> bool {
    matches!(word, [b'0'..=b'9' | b'+' | b'-', ..])
}

// Whether bytes after a number look like another token, and not like a part of a number. (A brace
// alone has a hint of its own.)
fn begins_token(rest: &[u8]) -> bool {
    match rest {
        [b'}'] => false,
        [b'a'..=b'z' | b'A'..=b'Z' | b'_' | b'{' | b'}', ..] => true,
        [b'+' | b'-', digits @ ..] => begins_with_digit(digits),
        _ => false,
    }
}

// Whether a token may be the next one, with this one after it.
fn continues(next: &TextProgress, token: &[u8], after: &[u8]) -> bool {
    match (next.wanted, next.section) {
        (Name, _) if matches!(token, [b'{' | b'}', ..]) => false,
        (Name, Constraints | Derivations) => is_sense(after),
        (Name, Solutions) => !after.is_empty() && are_all(after, DIGITS),
        (Name, _) => true,
        (OpenBrace, _) => is_word(token, "{"),
        (CloseBrace, _) => is_word(token, "}"),
        (RightHandSide, _) if is_sense(after) => false,
        // (`20-25` is how some write a range)
        (UpperBound, _) if matches!(token, [b'+' | b'-', ..]) => false,
        _ => is_accepted(next, token),
    }
}

// Whether a token looks like one at the begin of a line, or of a reason, with this one after it.
fn begins_line(token: &[u8], after: &[u8]) -> bool {
    keyword_of(token).is_some()
        || is_sense(after)
        || is_word(after, "{")
        || matches!(token, [b'{' | b'}', ..])
}

fn is_sense(word: &[u8]) -> bool {
    is_any(word, &[b"E", b"L", b"G"])
}

// The value of the token before the fault, which is whole, and the one at it, a fraction below 1.
fn mixed_number(fault: &TextFault<'_>) -> Option<Frac> {
    if fault.is_end() || !is_after_number(fault) || !begins_with_digit(fault.word) {
        return None;
    }
    let whole = Frac::parse(fault.before).ok()?;
    let part = Frac::parse(fault.word).ok()?;
    let is_part = 0 < part.numer() && part.numer() < part.denom();
    if whole.is_zero() || !is_part || fault.before.contains(&b'/') {
        return None;
    }
    let part = if whole.numer() < 0 { part.neg() } else { part };
    whole.add(part).ok()
}

// Whether the token before the fault is a coefficient, a value, a multiplier or a right-hand side.
fn is_after_number(fault: &TextFault<'_>) -> bool {
    let progress = &fault.found.progress;
    match (progress.wanted, progress.section) {
        (RowIndex | EntryIndex, _) => progress.part > 0,
        (RowCount, Constraints | Derivations) => true,
        (Keyword, Constraints | Section::Claim | Derivations) | (OpenBrace, _) => {
            progress.parts > 0
        }
        (CloseBrace, _) => progress.parts > 0 && is_in_sum(fault),
        _ => false,
    }
}

// Whether the reason that a token is in is a sum.
fn is_in_sum(fault: &TextFault<'_>) -> bool {
    let front = first(fault.text, fault.found.word.offset);
    let size = front.iter().rev().take_while(|byte| **byte != b'{').count();
    let reason = &front[front.len().saturating_sub(size)..];
    match Words::of(reason).next() {
        Some(word) => is_any(word.bytes, &[b"lin", b"rnd"]),
        None => false,
    }
}
