//! How many items or pairs a text has, if a count says another number.

use crate::excerpt::{first, from, line_at, line_of, part_of};
use crate::meant::may_be;
use crate::page::Page;
use crate::syntax::TextFault;
use crate::token::{DIGITS, are_all, is_comment};
use crate::wanted::Section::*;
use crate::wanted::Wanted::*;
use crate::wanted::{Section, count_of, is_word};
use crate::words::Words;
use vipr_check::cause::{TRAILING_TEXT, WRONG_KEYWORD};
use vipr_frac::Frac;

/// How many bytes behind a fault are looked at, if a part of the text's bytes isn't more.
const MOST_AHEAD: usize = 1_536;

/// The items of a section that are in front of the next keyword, or in front of the end.
#[derive(Clone, Copy)]
struct ItemCount {
    counted: u32,
    stated: u32,
}

/// Numbers in a line after a count of pairs.
#[derive(Clone, Copy)]
struct PairCount {
    numbers: usize,
    stated: u32,
}

/// The bytes of a text from a fault on that are looked at.
pub(crate) fn ahead<'a>(fault: &TextFault<'a>) -> &'a [u8] {
    let most = MOST_AHEAD.max(fault.text.len() / 32);
    first(from(fault.text, fault.found.word.offset), most as u64)
}

/// Asks whether the count of a section's items is wrong, if more are there than it says, and
/// answers whether it did.
pub(crate) fn ask_about_items(page: &mut Page, cause: u8, fault: &TextFault<'_>) -> bool {
    let (section, next, item, items) = match (cause, fault.found.progress.section) {
        (WRONG_KEYWORD, Integers) => (Variables, "INT", "name", "names"),
        (WRONG_KEYWORD, Objective) => (Integers, "OBJ", "index", "indices"),
        (WRONG_KEYWORD, Section::Claim) => (Constraints, "RTP", "constraint", "constraints"),
        (WRONG_KEYWORD, Derivations) => (Solutions, "DER", "solution", "solutions"),
        (TRAILING_TEXT, _) => (Derivations, "", "derivation", "derivations"),
        _ => return false,
    };
    if is_comment(fault.word) {
        return false;
    }
    let Some(ItemCount { counted, stated }) = items_to(fault, section, next) else {
        return false;
    };
    let keyword = section.keyword();
    let items = if counted == 1 { item } else { items };
    write!(
        page,
        "`{keyword}` has {counted} {items}, and its count is {stated}: "
    );
    match section {
        Variables => page.put("is that wrong, or is a space in a name?"),
        Constraints => {
            write!(
                page,
                "is {counted} meant? It counts all constraints, bounds included"
            );
        }
        _ => write!(page, "is {counted} meant?"),
    }
    true
}

// How many items a section has up to this keyword, or up to the end without one, if the fault is
// behind the last one that it counts.
fn items_to(fault: &TextFault<'_>, section: Section, keyword: &str) -> Option<ItemCount> {
    let stated = fault.found.progress.items;
    let rest = ahead(fault);
    let is_whole = rest.len() == from(fault.text, fault.found.word.offset).len();
    let mut words = Words::of(rest);
    let mut progress = fault.found.progress;
    progress.section = section;
    progress.items = u32::MAX;
    progress.begin_item(stated);
    for _ in 0..rest.len() {
        let is_first = matches!(progress.wanted, Name | IntegerIndex);
        let counted = progress.item;
        let Some(word) = words.next() else {
            let is_end = is_first && is_whole && keyword.is_empty();
            return (is_end && counted > stated).then_some(ItemCount { counted, stated });
        };
        if is_first && is_word(word.bytes, keyword) {
            return (counted > stated).then_some(ItemCount { counted, stated });
        }
        if !may_be(&progress, word.bytes) {
            return None;
        }
        progress.pass(word.bytes);
    }
    None
}

/// Asks whether the count of the pairs of a vector or a sum is wrong, if its line has another
/// number of them, and answers whether it did.
pub(crate) fn ask_about_pairs(page: &mut Page, fault: &TextFault<'_>) -> bool {
    let found = &fault.found;
    let Some(pairs) = pairs_of(fault) else {
        return false;
    };
    let PairCount { numbers, stated } = pairs;
    let line = line_at(fault.text, found.count.offset);
    let whole = numbers / 2;
    let (what, pair) = match found.counted {
        (Objective, _) => ("coefficients", "INDEX COEFFICIENT"),
        (Solutions, _) => ("values", "INDEX VALUE"),
        (_, EntryCount) => ("entries", "INDEX MULTIPLIER"),
        _ => ("coefficients", "INDEX COEFFICIENT"),
    };
    let plural = if whole == 1 { "" } else { "s" };
    if numbers % 2 == 0 && numbers != stated as usize {
        write!(
            page,
            "{whole} pair{plural} in line {line} after the count of {what}, {stated}: "
        );
        write!(page, "is {whole} meant, or is a part of the line lost?");
        return true;
    }
    write!(
        page,
        "{numbers} numbers in line {line} after the count of {what}, {stated}: "
    );
    if numbers != stated as usize {
        write!(
            page,
            "is a number lost or one too many, or the count left out? A pair is {pair}"
        );
    } else if numbers % 2 == 0 {
        write!(
            page,
            "is {whole} meant? A count is of pairs, {pair}; or are the indices left out?"
        );
    } else {
        write!(page, "are the indices left out? A pair is {pair}");
    }
    true
}

// The numbers in the line of the last count of pairs, if they aren't so many pairs, and the fault
// comes of that: it is in the line, or it is the first token after the line.
fn pairs_of(fault: &TextFault<'_>) -> Option<PairCount> {
    let found = &fault.found;
    let span = found.count;
    let stated = count_of(part_of(fault.text, span));
    let start = span.offset.saturating_add(span.size as u64);
    let line = line_of(from(fault.text, start));
    let (numbers, end) = numbers_in(line)?;
    let is_closed = end < line.len() as u64;
    let wanted = (stated as usize).saturating_mul(2);
    let is_behind = found.word.offset >= start.saturating_add(end);
    let is_next = is_behind && is_first_after(fault, start.saturating_add(end));
    let is_in_vector = matches!(
        found.progress.wanted,
        RowIndex | RowCoefficient | EntryIndex | EntryMultiplier
    );
    // (in a derivation a brace is after the last pair)
    let is_ended = is_closed || !matches!(found.counted.0, Derivations);
    let is_too_many = span.size > 0 && is_ended && numbers > wanted.max(1) && !is_behind;
    let is_dense = numbers == stated as usize && (is_next || !is_behind);
    let is_too_few = numbers > 1 && is_in_vector && (is_dense || (numbers < wanted && is_next));
    (is_too_many || is_too_few).then_some(PairCount { numbers, stated })
}

// How many numbers a line begins with, and where what is behind them begins, if that is nothing
// or a brace.
fn numbers_in(line: &[u8]) -> Option<(usize, u64)> {
    let mut words = Words::of(line);
    let mut numbers: usize = 0;
    for _ in 0..line.len() {
        let Some(word) = words.next() else {
            break;
        };
        if let [b'{' | b'}', ..] = word.bytes {
            return Some((numbers, word.span.offset));
        }
        let is_index = numbers % 2 == 0 && are_all(word.bytes, DIGITS);
        if !is_index && Frac::parse(word.bytes).is_err() {
            return None;
        }
        numbers = numbers.saturating_add(1);
    }
    Some((numbers, line.len() as u64))
}

// Whether nothing but white space is between a byte and the token at the fault.
fn is_first_after(fault: &TextFault<'_>, offset: u64) -> bool {
    let size = fault.found.word.offset.saturating_sub(offset);
    Words::of(first(from(fault.text, offset), size))
        .next()
        .is_none()
}
