//! The tokens of a text with their places.
ghost use Rattle.std.specs.Prelude.{◌≡◌, ◌<◌, ◌≤◌, ◌+◌, length, IfSome};

use crate::text::Span;
use vipr_scan::{Position, gap, run_end};

/// A token of a text: its bytes, and its place.
#[derive(Clone, Copy)]
pub(crate) struct TextWord<'a> {
    pub(crate) bytes: &'a [u8],
    pub(crate) span: Span,
}

/// Reads the tokens of a text one by one.
#[derive(Clone, Copy)]
pub(crate) struct Words<'a> {
    rest: &'a [u8],
    /// How many bytes are before the rest.
    offset: u64,
    position: Position,
}

impl<'a> Words<'a> {
    /// A reader at the start of a text.
    pub(crate) fn of(text: &'a [u8]) -> Words<'a> {
        Words {
            rest: text,
            offset: 0,
            position: Position::Front,
        }
    }

    /// The next token, `None` if there is none.
    pub(crate) fn next(&mut self) -> Option<TextWord<'a>>
        ensures { IfSome result
            (λ _. length self.new.rest.now < length self.old.rest.now) }
    {
        let (blanks, position) = gap(self.position, self.rest);
        self.position = position;
        self.pass(blanks);
        let size = run_end(self.rest, 0);
        if size == 0 {
            return None;
        }
        let offset = self.offset;
        let word = TextWord {
            bytes: &self.rest[..size],
            span: Span { offset, size },
        };
        self.pass(size);
        Some(word)
    }

    /// Passes what is in front of the next byte that is this one, or all if there is none.
    pub(crate) fn pass_to(&mut self, byte: u8)
        ensures { length self.new.rest.now ≤ length self.old.rest.now }
    {
        let rest = self.rest;
        let count = rest.iter().take_while(|other| **other != byte).count();
        self.pass(count);
    }

    // Passes so many bytes.
    fn pass(&mut self, count: usize)
        requires { count ≤ length self.old.rest.now }
        ensures { length self.new.rest.now + count ≡ length self.old.rest.now }
    {
        self.offset = self.offset.saturating_add(count as u64);
        self.rest = &self.rest[count..];
    }
}
