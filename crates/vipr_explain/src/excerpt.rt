//! A part of a line with carets below a place in it.

use crate::page::Page;
use crate::stranger::StrangeBytes;
use crate::text::Span;
use itoa::Buffer;
use std::fmt::Display;

/// How many bytes of a line are shown before a place, and from it on.
const MOST_SHOWN: u64 = 60;

/// How many carets or dashes are shown below a place.
const MOST_MARKS: usize = 40;

/// How many bytes are counted at once.
const BLOCK: usize = 224;

/// A place in the text: its line and column, counted from 1, and how many bytes belong to it; what
/// is before it in its line, what is there, and whether more is behind that.
#[derive(Clone, Copy)]
pub(crate) struct Excerpt<'a> {
    line: u64,
    column: u64,
    size: usize,
    before: &'a [u8],
    behind: &'a [u8],
    is_cut: bool,
}

impl<'a> Excerpt<'a> {
    /// The part of the line round a place.
    pub(crate) fn of(text: &'a [u8], span: Span) -> Excerpt<'a> {
        let front = first(text, span.offset);
        let column = column_behind(front);
        let count = column.saturating_sub(1).min(MOST_SHOWN);
        let line = line_of(from(text, span.offset));
        Excerpt {
            line: line_at(text, span.offset),
            column,
            size: span.size,
            before: first(from(text, span.offset.saturating_sub(count)), count),
            behind: first(line, MOST_SHOWN),
            is_cut: line.len() as u64 > MOST_SHOWN,
        }
    }

    /// Writes the place in a file of this name, with carets and a label below it.
    pub(crate) fn write<L: Display + Drop>(&self, page: &mut Page, file: &[u8], label: L) {
        let line = self.line;
        let column = self.column;
        let margin = digits_of(line);
        write_copies(page, " ", margin, "--> ");
        let file = StrangeBytes(file);
        write!(page, "{file}:{line}:{column}\n");
        write_copies(page, " ", margin, " |\n");
        self.write_marked(page, margin, "^", label);
    }

    /// Writes another place below this one, which is not in a later line.
    pub(crate) fn write_other(&self, page: &mut Page, other: Excerpt<'_>, label: &str) {
        other.write_marked(page, digits_of(self.line), "-", label);
    }

    // Writes the line of the place, with marks and a label below it.
    fn write_marked<L: Display + Drop>(
        &self,
        page: &mut Page,
        margin: usize,
        mark: &str,
        label: L,
    ) {
        let indent = margin.saturating_sub(digits_of(self.line));
        write_copies(page, " ", indent, "");
        let token = &self.behind[..self.size.min(self.behind.len())];
        self.write_front(page, "|");
        write!(page, "{}", StrangeBytes(token));
        self.write_rest(page);
        let front = if self.column > MOST_SHOWN + 1 { 2 } else { 0 };
        let width = width_of_all(self.before).saturating_add(front);
        let marks = width_of_all(token);
        write_copies(page, " ", margin, " | ");
        write_copies(page, " ", width, "");
        write_copies(page, mark, marks.max(1).min(MOST_MARKS), " ");
        write!(page, "{label}\n");
        write_copies(page, " ", margin, " |\n");
    }

    /// Writes what is before the place in its line.
    pub(crate) fn write_front(&self, page: &mut Page, mark: &str) {
        let line = self.line;
        let is_behind = self.column > MOST_SHOWN + 1;
        let front = if is_behind { ".." } else { "" };
        let before = StrangeBytes(self.before);
        write!(page, "{line} {mark} {front}{before}");
    }

    /// Writes what is behind the place in its line.
    pub(crate) fn write_rest(&self, page: &mut Page) {
        let rest = StrangeBytes(&self.behind[self.size.min(self.behind.len())..]);
        let end = if self.is_cut { ".." } else { "" };
        write!(page, "{rest}{end}\n");
    }
}

/// The bytes of a text that a token has.
pub(crate) fn part_of(text: &[u8], span: Span) -> &[u8] {
    first(from(text, span.offset), span.size as u64)
}

/// The line of a byte of a text, counted from 1.
pub(crate) fn line_at(text: &[u8], offset: u64) -> u64 {
    feeds_in(first(text, offset)).saturating_add(1)
}

// How many line feeds bytes have. They are counted in blocks, for which the compiler uses vector
// instructions.
fn feeds_in(bytes: &[u8]) -> u64 {
    let mut count: u64 = 0;
    let mut rest = bytes;
    while !rest.is_empty() {
        let (block, behind) = rest.split_at(rest.len().min(BLOCK));
        count = count.saturating_add(u64::from(few_feeds(block)));
        rest = behind;
    }
    count
}

// How many line feeds a block has: at most 255, so that a `u8` can count them.
fn few_feeds(block: &[u8]) -> u8 {
    let mut count: u8 = 0;
    for byte in block {
        if *byte == b'\n' {
            count = count.wrapping_add(1);
        }
    }
    count
}

// The column of the byte behind these, counted from 1.
fn column_behind(bytes: &[u8]) -> u64 {
    let before = bytes
        .iter()
        .rev()
        .take_while(|byte| **byte != b'\n')
        .count();
    (before as u64).saturating_add(1)
}

/// The bytes of a text from an offset on.
pub(crate) fn from(text: &[u8], offset: u64) -> &[u8] {
    &text[offset.min(text.len() as u64) as usize..]
}

/// The first bytes: so many, if there are.
pub(crate) fn first(bytes: &[u8], count: u64) -> &[u8] {
    &bytes[..count.min(bytes.len() as u64) as usize]
}

/// What is before the end of the line.
pub(crate) fn line_of(bytes: &[u8]) -> &[u8] {
    for at in 0..bytes.len() {
        if !is_in_line(bytes[at]) {
            return &bytes[..at];
        }
    }
    bytes
}

// Whether a byte doesn't end a line.
fn is_in_line(byte: u8) -> bool {
    byte != b'\n' && byte != b'\r'
}

// Writes a text so many times, and another one behind it.
fn write_copies(page: &mut Page, text: &str, count: usize, behind: &str) {
    for _ in 0..count {
        page.put(text);
    }
    page.put(behind);
}

// How many columns bytes take on a page.
fn width_of_all(bytes: &[u8]) -> usize {
    let mut width: usize = 0;
    for byte in bytes {
        width = width.saturating_add(width_of(*byte));
    }
    width
}

// How many columns a byte takes on a page.
fn width_of(byte: u8) -> usize {
    match byte {
        92 => 2,
        9 | 32..=126 => 1,
        _ => 4,
    }
}

// How many digits a number has.
fn digits_of(number: u64) -> usize {
    let mut buffer = Buffer::new();
    buffer.format(number).len()
}
