//! The token that is likely to be meant by one that isn't accepted: without quotes, brackets or
//! other characters round it, or a word of the format in place of another spelling.

use crate::page::Page;
use crate::stranger::StrangeBytes;
use crate::token::{DIGITS, are_all, is_any, is_spelled, parted};
use crate::wanted::Section::{Constraints, Derivations};
use crate::wanted::Wanted::*;
use crate::wanted::{TextProgress, Wanted, count_of, is_word};
use vipr_frac::Frac;

/// What a token may have round it that is no part of it.
const ROUND: &[u8] = b"\"'`()[]<>=,;:";

/// Words of the format, each with other spellings of it.
#[rattlefmt::skip]
const SPELLINGS: [(Wanted, &str, &[&[u8]]); 10] = [
    (Direction, "min", &[b"min", b"minimize", b"minimise", b"minimum", b"minimization"]),
    (Direction, "max", &[b"max", b"maximize", b"maximise", b"maximum", b"maximization"]),
    (Claim, "infeas", &[b"infeas", b"infeasible", b"infeasibility"]),
    (Claim, "range", &[b"range", b"optimal", b"optimum", b"bounds"]),
    (Reason, "asm", &[b"assumed", b"assumption"]),
    (Reason, "lin", &[b"linear", b"lincomb", b"sum", b"farkas"]),
    (Reason, "rnd", &[b"round", b"rounded", b"rounding", b"cg", b"chvatal"]),
    (Reason, "uns", &[b"unsplit", b"split", b"join", b"branch"]),
    (Reason, "sol", &[b"solution", b"cutoff", b"obj"]),
    (RowCount, "OBJ", &[b"obj", b"objective"]),
];

// The keywords of the sections.
#[rattlefmt::skip]
const KEYWORD_BYTES: [&[u8]; 8] =
    [b"VER", b"VAR", b"INT", b"OBJ", b"CON", b"RTP", b"SOL", b"DER"];

/// Asks whether a token was meant that is accepted here, if one is likely, and answers whether it
/// did.
pub(crate) fn ask_whether_meant(page: &mut Page, progress: &TextProgress, word: &[u8]) -> bool {
    let token = bare(word);
    let is_whole = is_bound(progress.wanted) || !opens_only(word);
    if token.len() < word.len() && is_whole && is_accepted(progress, token) {
        let token = StrangeBytes(token);
        write!(page, "is `{token}` meant? Nothing else may be in its token");
        return true;
    }
    for (wanted, meant, spellings) in SPELLINGS {
        let is_here = wanted as usize == progress.wanted as usize && has_rows(progress, wanted);
        if is_here && is_spelled(token, spellings) {
            write!(page, "is `{meant}` meant?");
            return true;
        }
    }
    false
}

// Whether a row may be the objective's here, if that is wanted.
fn has_rows(progress: &TextProgress, wanted: Wanted) -> bool {
    !matches!(wanted, RowCount) || matches!(progress.section, Constraints | Derivations)
}

fn is_bound(wanted: Wanted) -> bool {
    matches!(wanted, LowerBound | UpperBound)
}

// Whether a bracket opens in a token and none closes, as in the first token of a list of pairs.
fn opens_only(word: &[u8]) -> bool {
    parted(word, b"([").is_some() && parted(word, b")]").is_none()
}

// What is left of a token without what it may have round it.
fn bare(word: &[u8]) -> &[u8] {
    let front = word.iter().take_while(|byte| ROUND.contains(*byte)).count();
    let rest = &word[front.min(word.len())..];
    let end = rest
        .iter()
        .rev()
        .take_while(|byte| ROUND.contains(*byte))
        .count();
    &rest[..rest.len().saturating_sub(end)]
}

/// Whether a token may be the next one: a name is no keyword.
pub(crate) fn may_be(progress: &TextProgress, token: &[u8]) -> bool {
    match progress.wanted {
        Name => !is_any(token, &KEYWORD_BYTES),
        OpenBrace => is_word(token, "{"),
        CloseBrace => is_word(token, "}"),
        RowCount if matches!(progress.section, Constraints | Derivations) => {
            is_word(token, "OBJ") || is_accepted(progress, token)
        }
        _ => is_accepted(progress, token),
    }
}

/// Whether a token has the form that is wanted. A name may be any token.
pub(crate) fn is_accepted(progress: &TextProgress, token: &[u8]) -> bool {
    let is_natural = !token.is_empty() && are_all(token, DIGITS);
    match progress.wanted {
        Keyword => is_word(token, progress.section.keyword()),
        Wanted::Version => is_word(token, "1.0"),
        Count | BoundCount | RowCount | EntryCount | EntryIndex | Branch => is_natural,
        IntegerIndex | RowIndex => is_natural && count_of(token) < progress.variables,
        LastReference => is_natural || is_word(token, "-1"),
        Direction => is_any(token, &[b"min", b"max"]),
        Sense => is_any(token, &[b"E", b"L", b"G"]),
        RightHandSide | RowCoefficient | EntryMultiplier => Frac::parse(token).is_ok(),
        LowerBound => is_word(token, "-inf") || Frac::parse(token).is_ok(),
        UpperBound => is_word(token, "inf") || Frac::parse(token).is_ok(),
        Claim => is_any(token, &[b"infeas", b"range"]),
        Reason => is_any(token, &[b"asm", b"lin", b"rnd", b"uns", b"sol"]),
        Name | OpenBrace | CloseBrace | Nothing => false,
    }
}
