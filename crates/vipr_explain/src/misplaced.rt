//! Lines and sections that are in another place, and lines that are cut. A text with two lines
//! exchanged is read to see whether it can be.

use crate::algebra::ShownName;
use crate::counted::ahead;
use crate::excerpt::{first, from, line_at, line_of};
use crate::meant::may_be;
use crate::page::Page;
use crate::syntax::{LineBegin, TextFault, begins_line};
use crate::token::{is_any, is_comment, keyword_of};
use crate::wanted::Section::*;
use crate::wanted::Wanted::*;
use crate::wanted::{Section, TextProgress, Wanted, is_word};
use crate::words::Words;
use vipr_check::cause::{REPEATED_INDEX, TRUNCATED, WRONG_KEYWORD};

/// How many bytes a line has at most that is read in another place.
const MOST_OF_LINE: u64 = 1_024;

// A line of a text: the offset of its first token, and what is from there on in the line.
#[derive(Clone, Copy)]
struct PlacedLine<'a> {
    offset: u64,
    bytes: &'a [u8],
}

/// Asks whether a line or a section is in another place, or cut, and answers whether it did.
pub(crate) fn ask_about_place(page: &mut Page, cause: u8, fault: &TextFault<'_>) -> bool {
    ask_about_section(page, cause, fault)
        || ask_about_sort(page, cause, fault)
        || ask_about_cut(page, fault)
}

// Asks whether a section is to be in front of the one that was found, if its keyword is further
// down.
fn ask_about_section(page: &mut Page, cause: u8, fault: &TextFault<'_>) -> bool {
    let section = fault.found.progress.section;
    let keyword = section.keyword();
    if cause != WRONG_KEYWORD {
        return false;
    }
    let Some(line) = line_of_keyword(fault, keyword) else {
        return false;
    };
    match keyword_of(fault.word) {
        Some(found) if is_word(fault.word, found) && !section.is_behind(found) => {
            write!(
                page,
                "`{keyword}` is in line {line}: is it to be in front of `{found}`? "
            );
            page.put("The order is VER, VAR, INT, OBJ, CON, RTP, SOL, DER");
            true
        }
        _ if is_other_text(fault) => {
            write!(page, "`VER` is in line {line}: ");
            page.put("a certificate begins there, but for comments, which begin with `%`");
            true
        }
        _ => false,
    }
}

// Whether another text is in front of the first section, and no comment or mark of an encoding.
fn is_other_text(fault: &TextFault<'_>) -> bool {
    let is_first = matches!(fault.found.progress.section, Section::Version);
    is_first && fault.word.is_ascii() && !is_comment(fault.word)
}

// The line that begins with a keyword, if one is behind the fault.
fn line_of_keyword(fault: &TextFault<'_>, keyword: &str) -> Option<u64> {
    let rest = ahead(fault);
    let mut words = Words::of(rest);
    for _ in 0..rest.len() {
        let word = words.next()?;
        let offset = word.span.offset;
        if is_word(word.bytes, keyword) && offset > 0 && begins_line(rest, offset) {
            return Some(line_at(fault.text, fault.found.word.offset.saturating_add(offset)));
        }
    }
    None
}

/// Asks whether two lines are exchanged, if the text can be read the other way round, and answers
/// whether it did.
pub(crate) fn ask_about_exchange(page: &mut Page, cause: u8, fault: &TextFault<'_>) -> bool {
    let found = &fault.found;
    if matches!(cause, TRUNCATED | REPEATED_INDEX) {
        return false;
    }
    for begin in [found.line_before, found.line] {
        if let Some(second) = exchanged_with(fault.text, begin) {
            let first = line_at(fault.text, begin.offset);
            let second = line_at(fault.text, second);
            write!(
                page,
                "with lines {first} and {second} exchanged the text can be read on: "
            );
            page.put("are they in the wrong order?");
            return true;
        }
    }
    false
}

// Where the line after one begins, if both and the one after them can be read with the two
// exchanged.
fn exchanged_with(text: &[u8], begin: LineBegin) -> Option<u64> {
    let one = placed_line(text, begin.offset)?;
    let two = placed_line(text, one.end())?;
    let mut progress = begin.progress;
    let can_be_read = reads(&mut progress, two.bytes) && reads(&mut progress, one.bytes);
    let reads_on = match placed_line(text, two.end()) {
        Some(three) => reads(&mut progress, three.bytes),
        None => true,
    };
    (can_be_read && reads_on).then_some(two.offset)
}

// The first line with tokens from an offset on, if it is short.
fn placed_line(text: &[u8], offset: u64) -> Option<PlacedLine<'_>> {
    let rest = first(from(text, offset), MOST_OF_LINE);
    let mut words = Words::of(rest);
    let offset = offset.saturating_add(words.next()?.span.offset);
    let bytes = line_of(first(from(text, offset), MOST_OF_LINE));
    ((bytes.len() as u64) < MOST_OF_LINE).then_some(PlacedLine { offset, bytes })
}

impl PlacedLine<'_> {
    // The offset after it.
    fn end(&self) -> u64 {
        self.offset.saturating_add(self.bytes.len() as u64)
    }
}

// Whether the tokens of a line are such as are wanted.
fn reads(progress: &mut TextProgress, line: &[u8]) -> bool {
    let mut words = Words::of(line);
    for _ in 0..line.len() {
        let Some(word) = words.next() else {
            break;
        };
        if !may_be(progress, word.bytes) {
            return false;
        }
        progress.pass(word.bytes);
    }
    true
}

// Asks whether a line is of another section, if it can be read as an item of that.
fn ask_about_sort(page: &mut Page, cause: u8, fault: &TextFault<'_>) -> bool {
    let progress = &fault.found.progress;
    let is_begin = fault.found.word.offset == fault.found.line.offset;
    let begin = match progress.wanted {
        OpenBrace if is_begin => fault.found.line_before,
        _ => fault.found.line,
    };
    let Some(line) = placed_line(fault.text, begin.offset) else {
        return false;
    };
    if keyword_of(fault.word).is_some() {
        return false;
    }
    for section in [Constraints, Solutions, Derivations] {
        if !is_of(section, &begin.progress)
            && !is_next(section, progress)
            && reads_as(progress, section, line.bytes)
        {
            let (item, _) = section.words();
            let keyword = section.keyword();
            let number = line_at(fault.text, line.offset);
            write!(page, "line {number} has the form of a {item}: ");
            if cause == WRONG_KEYWORD && progress.section as usize == section as usize {
                write!(
                    page,
                    "is `{keyword}` with its count missing in front of it?"
                );
            } else {
                write!(page, "is its place after `{keyword}`?");
            }
            if matches!((section, progress.wanted), (Solutions, Sense)) {
                page.put(" Or are its sense and right-hand side missing?");
            }
            return true;
        }
    }
    false
}

// Whether what is read so far is in this section.
fn is_of(section: Section, progress: &TextProgress) -> bool {
    !matches!(progress.wanted, Keyword) && section as usize == progress.section as usize
}

// Whether the section after this one is wanted: then the count of this one may be too small.
fn is_next(section: Section, progress: &TextProgress) -> bool {
    matches!(progress.wanted, Keyword)
        && progress.section as usize == (section as usize).saturating_add(1)
}

// Whether a line can be read as an item of a section.
fn reads_as(progress: &TextProgress, section: Section, line: &[u8]) -> bool {
    let mut item = *progress;
    item.section = section;
    item.items = u32::MAX;
    item.begin_item(0);
    reads(&mut item, line) && item.item == 1 && matches!(item.wanted, Name)
}

// Asks whether a line is cut, if the next one begins in the middle of its item.
fn ask_about_cut(page: &mut Page, fault: &TextFault<'_>) -> bool {
    let found = &fault.found;
    let is_begin = found.word.offset == found.line.offset;
    let is_item = is_any(fault.after, &[b"E", b"L", b"G"]) || keyword_of(fault.word).is_some();
    let is_part = fault.name.starts_with(b"/") || is_comment(fault.name);
    if !is_begin || !is_item || is_part || !is_in_item(found.progress.wanted) {
        return false;
    }
    let line = line_at(fault.text, found.line_before.offset);
    let name = ShownName(fault.name);
    write!(
        page,
        "line {line} ends in the middle of `{name}`: is a part of it lost?"
    );
    true
}

// Whether what is wanted is in the middle of a constraint, a solution or a derivation.
fn is_in_item(wanted: Wanted) -> bool {
    matches!(
        wanted,
        Sense
            | RightHandSide
            | RowCount
            | Reason
            | EntryCount
            | EntryIndex
            | EntryMultiplier
            | Branch
            | CloseBrace
    )
}
