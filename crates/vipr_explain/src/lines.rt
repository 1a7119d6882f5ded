//! Lines that came into a text after it was written: by a mail, by two versions that were put into
//! one, by another program, or by writing a line twice.

use crate::algebra::ShownName;
use crate::excerpt::{first, from, line_of};
use crate::marks::ItemPlace;
use crate::page::Page;
use crate::syntax::TextFault;
use crate::text::Span;
use crate::token::{are_all, is_any, is_comment, parted};
use crate::wanted::Section::*;
use crate::wanted::Wanted::*;
use crate::wanted::{KEYWORDS, Section, is_word};
use crate::words::Words;
use vipr_check::cause::{TRAILING_TEXT, WRONG_KEYWORD};

// A line of a text, without its end.
#[derive(Clone, Copy)]
struct TextLine<'a> {
    /// Counted from 1, 0 for none.
    number: u64,
    bytes: &'a [u8],
}

// Reads the lines of a text one by one.
#[derive(Clone, Copy)]
struct TextLines<'a> {
    rest: &'a [u8],
    number: u64,
}

impl<'a> TextLines<'a> {
    // The next line, `None` if there is none.
    fn next(&mut self) -> Option<TextLine<'a>> {
        if self.rest.is_empty() {
            return None;
        }
        let rest = self.rest;
        let size = rest.iter().take_while(|byte| **byte != b'\n').count();
        let bytes = first(rest, size as u64);
        self.rest = from(rest, (size as u64).saturating_add(1));
        self.number = self.number.saturating_add(1);
        let number = self.number;
        Some(TextLine { number, bytes })
    }
}

/// What is found in the lines of a text up to a place in it. Lines are counted from 1.
#[derive(Clone, Copy)]
pub(crate) struct LinesBefore {
    /// The line of the place.
    last: u64,
    /// The first line with a mark of a merge conflict.
    conflict: Option<u64>,
    /// The last line that ends with `=`.
    broken: Option<u64>,
    /// The last line that repeats the one before it.
    repeated: Option<u64>,
}

impl LinesBefore {
    /// Finds it in the lines up to that of a token, with that line.
    pub(crate) fn find(text: &[u8], span: Span) -> LinesBefore {
        let rest = from(text, span.offset);
        let size = rest.iter().take_while(|byte| **byte != b'\n').count();
        let front = first(text, span.offset.saturating_add(size as u64));
        let mut lines = TextLines {
            rest: front,
            number: 0,
        };
        let mut before: &[u8] = &[];
        let mut found = LinesBefore {
            last: 0,
            conflict: None,
            broken: None,
            repeated: None,
        };
        for _ in 0..front.len() {
            let Some(line) = lines.next() else {
                break;
            };
            found.take(line, before);
            before = line.bytes;
        }
        found
    }

    // Takes the next line, which is after another one.
    fn take(&mut self, line: TextLine<'_>, before: &[u8]) {
        self.last = line.number;
        if self.conflict.is_none() && is_conflict(line.bytes) {
            self.conflict = Some(line.number);
        }
        if ends_with_equal(line.bytes) {
            self.broken = Some(line.number);
        }
        let is_third = self.repeated == Some(line.number.saturating_sub(1));
        if line.bytes == before && (is_third || has_tokens(line.bytes)) {
            self.repeated = Some(line.number);
        }
    }

    // Whether a line is that of the place, or the one before it.
    fn is_near(&self, line: u64) -> bool {
        line.saturating_add(1) >= self.last
    }
}

// Whether a line is a mark of a merge conflict: seven signs, and nothing or a space after them.
fn is_conflict(line: &[u8]) -> bool {
    match line {
        [sign @ (b'<' | b'>' | b'|' | b'='), ..] => {
            let count = line.iter().take_while(|byte| **byte == *sign).count();
            let behind = from(line, count as u64);
            count == CONFLICT_SIGNS && matches!(behind, [] | [b' ' | b'\r', ..])
        }
        _ => false,
    }
}

fn ends_with_equal(line: &[u8]) -> bool {
    matches!(line, [.., b'='] | [.., b'=', b'\r'])
}

// Whether a line has two tokens or more, and is no comment.
fn has_tokens(line: &[u8]) -> bool {
    let mut words = Words::of(line);
    words.next().is_some() && words.next().is_some()
}

/// Asks whether the lines up to a fault have something that came into them after they were
/// written, and answers whether it did.
pub(crate) fn ask_about_lines(page: &mut Page, cause: u8, fault: &TextFault<'_>) -> bool {
    if fault.is_end() {
        return false;
    }
    let found = LinesBefore::find(fault.text, fault.found.word);
    if let Some(line) = found.conflict {
        write!(
            page,
            "line {line} looks like a conflict marker of a merge: "
        );
        page.put("were two versions of the file put into one?");
        return true;
    }
    if let Some(line) = line_of_mail(&found, fault) {
        write!(page, "mail breaks a long line with `=` at its end, ");
        write!(
            page,
            "as in line {line}: was the file sent as the text of a mail?"
        );
        return true;
    }
    if let Some((code, sign)) = code_of_mail(fault) {
        write!(page, "mail writes `{code}` for {sign}: ");
        page.put("was the file sent as the text of a mail?");
        return true;
    }
    match found.repeated {
        Some(line) if found.is_near(line) || is_one_too_many(cause, fault) => {
            write_repeated(page, line);
            true
        }
        _ => ask_about_output(page, fault),
    }
}

/// Asks whether a line was written twice, if one is before a derivation, or is its own.
pub(crate) fn write_repeated_line(page: &mut Page, text: &[u8], place: Option<ItemPlace>) {
    if let Some(place) = place {
        if let Some(line) = LinesBefore::find(text, place.name).repeated {
            page.put("  = help: ");
            write_repeated(page, line);
            page.put("\n");
        }
    }
}

// Writes that a line repeats the one before it.
fn write_repeated(page: &mut Page, line: u64) {
    let before = line.saturating_sub(1);
    write!(
        page,
        "line {line} repeats line {before}: was it written twice?"
    );
}

// Whether something is where the items of a section should have ended.
fn is_one_too_many(cause: u8, fault: &TextFault<'_>) -> bool {
    let is_keyword = KEYWORDS.iter().any(|keyword| is_word(fault.word, keyword));
    cause == TRAILING_TEXT || (cause == WRONG_KEYWORD && !is_keyword)
}

// The line in front of the fault that a mail broke: the token at the fault, or the name before it,
// is in two parts. A name of a variable may be further above.
fn line_of_mail(found: &LinesBefore, fault: &TextFault<'_>) -> Option<u64> {
    let line = found.broken?;
    let progress = &fault.found.progress;
    let is_broken = match fault.found.progress.wanted {
        Sense if is_word(fault.word, "=") => false,
        Keyword if matches!(progress.section, Integers) => true,
        _ if line == found.last => ends_with_equal(fault.word) && is_last_in_line(fault),
        _ => found.is_near(line) && tokens_before(fault) == 0,
    };
    is_broken.then_some(line)
}

// What a token has that mail writes in place of a sign, and what it stands for.
fn code_of_mail(fault: &TextFault<'_>) -> Option<(&'static str, &'static str)> {
    match (fault.word, fault.found.progress.wanted) {
        (word, _) if has_code(word, b"3D") => Some(("=3D", "`=`")),
        (_, RowIndex | EntryIndex) => None,
        ([.., b'=', b'2', b'0'], _) if is_last_in_line(fault) => Some(("=20", "a space")),
        _ => None,
    }
}

// Whether a token has these bytes after a `=`.
fn has_code(word: &[u8], code: &[u8]) -> bool {
    match parted(word, b"=") {
        Some((_, behind)) => behind.starts_with(code),
        None => false,
    }
}

// Whether nothing is in its line after the token at the fault, and another line is.
fn is_last_in_line(fault: &TextFault<'_>) -> bool {
    let size = fault.word.len() as u64;
    let rest = from(fault.text, fault.found.word.offset.saturating_add(size));
    matches!(rest, [b'\n', ..] | [b'\r', b'\n', ..])
}

// How many tokens are before the one at the fault in its line, 2 for more.
fn tokens_before(fault: &TextFault<'_>) -> usize {
    let front = first(fault.text, fault.found.word.offset);
    let size = front
        .iter()
        .rev()
        .take_while(|byte| **byte != b'\n')
        .count();
    let line = from(front, front.len().saturating_sub(size) as u64);
    let mut words = Words::of(line);
    match (words.next(), words.next()) {
        (None, _) => 0,
        (Some(_), None) => 1,
        _ => 2,
    }
}

// Asks whether the line at a fault is a tag, or what another program wrote.
fn ask_about_output(page: &mut Page, fault: &TextFault<'_>) -> bool {
    let section = fault.found.progress.section;
    if matches!(section, Section::Version) {
        return false;
    }
    let before = tokens_before(fault);
    let has_name = has_name_before(fault);
    if let Some(tag) = tag_at(fault, has_name && before == 0) {
        let tag = ShownName(tag);
        write!(
            page,
            "is `{tag}` a tag of HTML? A certificate is plain text"
        );
        return true;
    }
    let is_own = match fault.found.progress.wanted {
        Sense | RowCount => has_name && before == 1,
        IntegerIndex | RowIndex | EntryIndex | Branch => false,
        Keyword if matches!(section, Integers) => false,
        _ => before == 0,
    };
    if is_own && looks_like_output(fault, before) {
        page.put("is this line what another program printed, and no part of the certificate?");
        return true;
    }
    false
}

// Whether the token before the one at the fault was read as a name.
fn has_name_before(fault: &TextFault<'_>) -> bool {
    match (fault.found.progress.wanted, fault.found.progress.section) {
        (Sense, _) | (RowCount, Solutions) => true,
        _ => false,
    }
}

// The token at the fault, or the name that is alone in the line before it, if that is a tag.
fn tag_at<'a>(fault: &TextFault<'a>, is_alone: bool) -> Option<&'a [u8]> {
    if is_tag(fault.word) {
        Some(fault.word)
    } else if is_alone && is_tag(fault.name) && fault.name.ends_with(b">") {
        Some(fault.name)
    } else {
        None
    }
}

// Whether a token has a tag, as `<pre>` or `</pre>`.
fn is_tag(word: &[u8]) -> bool {
    match parted(word, b"<") {
        Some((front, [b'/', name @ ..] | name)) => match name {
            [b'a'..=b'z' | b'A'..=b'Z', ..] => front.is_empty() || name.contains(&b'>'),
            _ => false,
        },
        None => false,
    }
}

// Whether the line of a fault has words of a language from the fault on, and nothing of an item:
// no sense, no brace, and in a solution no number at the end.
fn looks_like_output(fault: &TextFault<'_>, before: usize) -> bool {
    if is_comment(fault.word) || is_comment(fault.name) {
        return false;
    }
    let line = line_of(from(fault.text, fault.found.word.offset));
    let mut words = Words::of(line);
    let mut count: usize = 0;
    let mut is_number = false;
    for _ in 0..line.len() {
        let Some(word) = words.next() else {
            break;
        };
        if is_any(word.bytes, &ITEM_TOKENS) {
            return false;
        }
        is_number = are_all(word.bytes, NUMBER_BYTES);
        if is_plain_word(word.bytes) {
            count = count.saturating_add(1);
        }
    }
    let least = if before == 0 { 3 } else { 2 };
    let is_solution = matches!(fault.found.progress.section, Solutions);
    count >= least && !(is_solution && is_number)
}

// Whether a token is two letters or more, with or without marks of a sentence round it, and no
// word of the format.
fn is_plain_word(word: &[u8]) -> bool {
    let ([b'(' | b'"' | b'\'', inner @ ..] | inner) = word;
    let ([
        letters @ ..,
        b'.' | b',' | b':' | b';' | b'!' | b')' | b'"' | b'\'',
    ]
    | letters) = inner;
    let is_letters = letters.iter().all(|byte| byte.is_ascii_alphabetic());
    letters.len() > 1 && is_letters && !is_any(letters, &FORMAT_WORDS)
}

// How many signs a mark of a merge conflict has.
const CONFLICT_SIGNS: usize = 7;

const NUMBER_BYTES: &[u8] = b"+-/0123456789";

// Tokens that a line of another program seldom has.
const ITEM_TOKENS: [&[u8]; 9] = [b"E", b"L", b"G", b"<=", b">=", b"=", b"==", b"{", b"}"];

// Words that are part of an item or of a section.
#[rattlefmt::skip]
const FORMAT_WORDS: [&[u8]; 19] = [
    b"VER", b"VAR", b"INT", b"OBJ", b"CON", b"RTP", b"SOL", b"DER", b"min", b"max", b"infeas",
    b"range", b"inf", b"asm", b"lin", b"rnd", b"uns", b"sol", b"weak",
];
