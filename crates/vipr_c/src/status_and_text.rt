//! A status with a text, and how a text gets into a buffer.

ghost use Rattle.std.specs.Prelude.{◌≡◌, [], MatchResult, Ok, length};
ghost use Rattle.vipr_c.specs.AnswerOf.{status_of};
ghost use Rattle.vipr_c.specs.Handed.{Fills, HasNoMemory, ended, profile_numbered};

use std::alloc::Global;
use vipr_check::{Fault, Verdict};
use vipr_rules::Profile;

/// The status of a text that is verified.
pub(crate) const VERIFIED: i32 = 0;
/// The status of a text that is refused.
pub(crate) const REFUSED: i32 = 1;
/// The status of a profile that there isn't.
pub(crate) const NO_PROFILE: i32 = 2;
/// The status without memory.
pub(crate) const NO_MEMORY: i32 = 3;

/// A status, and the text that comes with it.
#[derive(Drop)]
pub(crate) struct StatusAndText {
    pub(crate) status: i32,
    pub(crate) text: Vec<u8>,
}

impl StatusAndText {
    /// A status without a text.
    pub(crate) fn nothing(alloc: Global, status: i32) -> StatusAndText
        ensures status { result.status ≡ status }
        ensures text { result.text.items ≡ [] }
    {
        StatusAndText {
            status,
            text: Vec::new(alloc),
        }
    }

    /// Lines on a verdict, with its status.
    pub(crate) fn of_verdict(verdict: &Verdict, text: Vec<u8>) -> StatusAndText
        ensures status { result.status ≡ status_of (Ok verdict.now) }
        ensures text { result.text.items ≡ text.items }
    {
        StatusAndText {
            status: i32::from(verdict.status()),
            text,
        }
    }

    /// What was made, or a status alone if there was no memory for it.
    pub(crate) fn or_no_memory(alloc: Global, made: Result<StatusAndText, Fault>) -> StatusAndText
        ensures { MatchResult made (λ handed. result ≡ handed)
            (λ _. HasNoMemory result.status result.text.items) }
    {
        match made {
            Ok(handed) => handed,
            Err(_) => StatusAndText::nothing(alloc, NO_MEMORY),
        }
    }

    /// Writes the text to a buffer as `fill` does, its length to `length`, and returns the status.
    pub(crate) fn hand_over(self, room: &mut [u8], length: &mut usize) -> i32
        ensures status { result ≡ self.status }
        ensures text { Fills self.text.items room.old room.new length.new }
    {
        *length = fill(room, self.text.as_slice());
        self.status
    }
}

/// Writes the first bytes of a text to the front of a buffer, as many as there is room for, and
/// returns how many the whole text has.
pub(crate) fn fill(room: &mut [u8], text: &[u8]) -> usize
    ensures { Fills text.now room.old room.new result }
{
    let n = text.len().min(room.len());
    room[..n].copy_from_slice(&text[..n]);
    text.len()
}

/// Writes a word as `fill` does, and a 0 behind it if there is room for that, too.
pub(crate) fn end(room: &mut [u8], word: &[u8]) -> usize
    ensures word { room.new ≡ ended room.old word.now }
    ensures count { result ≡ length word.now }
{
    let n = fill(room, word);
    if n < room.len() {
        room[n] = 0;
    }
    n
}

/// The profile with a number.
pub(crate) fn profile_numbered(number: u32) -> Option<Profile>
    ensures { result ≡ profile_numbered number }
{
    match number {
        1 => Some(Profile::One),
        2 => Some(Profile::Two),
        _ => None,
    }
}
