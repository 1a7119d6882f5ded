//! A fault of a text: its place, and what is wanted there.

use crate::algebra::ShownName;
use crate::excerpt::{Excerpt, first, part_of};
use crate::hints::write_hint;
use crate::page::Page;
use crate::text::Span;
use crate::wanted::{Section, TextProgress, Wanted, count_of, is_word};
use crate::wanted_words::write_wanted;
use crate::words::{TextWord, Words};
use vipr_check::cause;

/// How far a text was read before the token at a fault, and that token.
#[derive(Clone, Copy)]
pub(crate) struct FaultToken {
    pub(crate) progress: TextProgress,
    /// The name of the item that the token is in, empty before that is read.
    name: Span,
    pub(crate) word: Span,
    /// The token before that one.
    before: Span,
    /// The last variable with the name `INT`.
    pub(crate) name_int: Option<u32>,
    /// Whether the first variable is an integer one.
    pub(crate) has_first_integer: bool,
    /// The last number of pairs, or of entries, and the section and what it is.
    pub(crate) count: Span,
    pub(crate) counted: (Section, Wanted),
    /// The begin of the line of `word`, and that of the line before it, if both have tokens.
    pub(crate) line: LineBegin,
    pub(crate) line_before: LineBegin,
    /// Whether the text ends before the token. Then `word` is the last one.
    is_end: bool,
}

/// The first token of a line: its offset, and how far the text was read before it.
#[derive(Clone, Copy)]
pub(crate) struct LineBegin {
    pub(crate) offset: u64,
    pub(crate) progress: TextProgress,
}

impl LineBegin {
    // The first token of a text.
    fn start() -> LineBegin {
        LineBegin {
            offset: 0,
            progress: TextProgress::start(),
        }
    }
}

impl FaultToken {
    // Nothing was read.
    fn start() -> FaultToken {
        let nothing = Span { offset: 0, size: 0 };
        FaultToken {
            progress: TextProgress::start(),
            name: nothing,
            word: nothing,
            before: nothing,
            name_int: None,
            has_first_integer: false,
            count: nothing,
            counted: (Section::Version, Wanted::Keyword),
            line: LineBegin::start(),
            line_before: LineBegin::start(),
            is_end: true,
        }
    }

    // Takes the next token, which is passed if it is before this byte.
    fn take(&mut self, text: &[u8], word: TextWord<'_>, offset: u64) {
        self.before = self.word;
        self.word = word.span;
        if begins_line(text, word.span.offset) {
            self.line_before = self.line;
            self.line = LineBegin {
                offset: word.span.offset,
                progress: self.progress,
            };
        }
        if word.span.offset >= offset {
            self.is_end = false;
            return;
        }
        if let Wanted::Name = self.progress.wanted {
            self.name = self.word;
            if is_word(word.bytes, "INT") && matches!(self.progress.section, Section::Variables) {
                self.name_int = Some(self.progress.item);
            }
        }
        if matches!(self.progress.wanted, Wanted::RowCount | Wanted::EntryCount) {
            self.count = self.word;
            self.counted = (self.progress.section, self.progress.wanted);
        }
        if matches!(self.progress.wanted, Wanted::IntegerIndex) && count_of(word.bytes) == 0 {
            self.has_first_integer = true;
        }
        self.progress.pass(word.bytes);
    }
}

/// A fault of a text: the token at it, and its place.
#[derive(Clone, Copy)]
pub(crate) struct TextFault<'a> {
    pub(crate) found: FaultToken,
    pub(crate) name: &'a [u8],
    pub(crate) word: &'a [u8],
    /// The tokens before that one and after it.
    pub(crate) before: &'a [u8],
    pub(crate) after: &'a [u8],
    pub(crate) text: &'a [u8],
    /// Whether the text ends with the token's last byte.
    is_last: bool,
    place: Excerpt<'a>,
}

impl<'a> TextFault<'a> {
    /// The token at a byte of a text.
    pub(crate) fn find(text: &'a [u8], offset: u64) -> TextFault<'a> {
        let mut words = Words::of(text);
        let mut found = FaultToken::start();
        while found.is_end {
            let Some(word) = words.next() else {
                break;
            };
            found.take(text, word, offset);
        }
        TextFault {
            found,
            name: part_of(text, found.name),
            word: part_of(text, found.word),
            before: part_of(text, found.before),
            after: token_after(text, found.word),
            text,
            is_last: ends_text(found.word, text),
            place: Excerpt::of(text, found.word),
        }
    }

    /// Whether the text ends before the token that is wanted.
    pub(crate) fn is_end(&self) -> bool {
        self.found.is_end
    }

    /// Writes the page of a fault of this cause.
    pub(crate) fn write(&self, page: &mut Page, cause: u8, file: &[u8]) {
        let progress = &self.found.progress;
        let fault = cause::name(cause);
        let (wanted, label) = if self.found.is_end {
            let label = if self.word.is_empty() {
                "no token is here"
            } else {
                "the text ends after this"
            };
            ("the text ends where this is wanted: ", label)
        } else {
            ("wanted ", "this was found")
        };
        write!(page, "error: {fault}: ");
        if cause == cause::TRAILING_TEXT {
            page.put("text after the last derivation");
        } else {
            page.put(wanted);
            write_wanted(page, progress);
        }
        page.put("\n");
        self.place.write(page, file, label);
        write_context(page, progress, self.name);
        let is_begun = !matches!(progress.section, Section::Version) && !self.found.is_end;
        if is_begun && self.is_last && cause != cause::TRAILING_TEXT {
            page.put("  = help: the text ends with this token: is the file cut?\n");
        }
        page.put("  = help: ");
        write_hint(page, cause, self);
        page.put("\n");
    }
}

/// Whether a line feed is between a token and the one before it, or nothing is before it.
pub(crate) fn begins_line(text: &[u8], offset: u64) -> bool {
    let front = first(text, offset);
    let blanks = front
        .iter()
        .rev()
        .take_while(|byte| is_blank(**byte) && **byte != b'\n')
        .count();
    let end = front.len().saturating_sub(blanks);
    matches!(&front[..end], [] | [.., b'\n'])
}

// The token after a place, empty if there is none.
fn token_after(text: &[u8], span: Span) -> &[u8] {
    let start = span.offset.saturating_add(span.size as u64);
    let rest = &text[start.min(text.len() as u64) as usize..];
    let blanks = rest.iter().take_while(|byte| is_blank(**byte)).count();
    let token = &rest[blanks.min(rest.len())..];
    let size = token.iter().take_while(|byte| !is_blank(**byte)).count();
    &token[..size.min(token.len())]
}

// Whether a byte is white space.
fn is_blank(byte: u8) -> bool {
    matches!(byte, b'\t'..=b'\r' | b' ')
}

// Whether a text ends with the last byte of a token.
fn ends_text(span: Span, text: &[u8]) -> bool {
    span.offset.checked_add(span.size as u64) == Some(text.len() as u64)
}

// Writes which part of which item was being read.
fn write_context(page: &mut Page, progress: &TextProgress, name: &[u8]) {
    let keyword = progress.section.keyword();
    let (item, _) = progress.section.words();
    write!(page, "  = reading: {keyword}");
    match progress.wanted {
        Wanted::Keyword | Wanted::Count | Wanted::BoundCount | Wanted::Nothing => {}
        _ if item.is_empty() => {}
        wanted => {
            let index = progress.index();
            let number = progress.item.saturating_add(1);
            let items = progress.items;
            write!(page, ", {item} {index} ({number} of {items})");
            if !matches!(wanted, Wanted::IntegerIndex | Wanted::Name) {
                let name = ShownName(name);
                write!(page, ", `{name}`");
            }
        }
    }
    page.put("\n");
}
