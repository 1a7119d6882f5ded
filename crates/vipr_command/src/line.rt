//! Lines on standard error.
ghost use Rattle.std.specs.Prelude.{◌≡◌, ◌+◌, ◌≤◌, ◌++◌, codes, decimal, length};
ghost use Rattle.arrayvec.specs.ArrayString.{array_string_len};
ghost use Rattle.vipr_check.specs.Text.{place_text, refusal_text};
ghost use Rattle.vipr_tighten.specs.Text.{outcome_text};
ghost use Rattle.vipr_command.specs.{Output.TellsLine, Text.fault_text};

use crate::fault::CommandFault;
use arrayvec::ArrayString;
use itoa::Buffer;
use std::alloc::Global;
use std::fmt::{Display, Write as _};
use std::{fmt, io};
use vipr_bytes::{Sink, write_bytes};
use vipr_check::{Place, Refusal};
use vipr_explain::StrangeBytes;
use vipr_tighten::Outcome;

/// A line, which is made in place.
pub(crate) type Line = ArrayString<128>;

/// Writes a line in one piece. A failed write is ignored.
pub(crate) fn say<E: Sink>(err: &mut E, line: &Line)
    ensures { TellsLine (E.output err.old) (E.output err.new) line.now.bytes }
{
    let _ = write_bytes(err, line.as_str().as_bytes());
}

/// The line of a fault.
pub(crate) fn fault_line(fault: CommandFault) -> Line
    ensures { result.bytes ≡ fault_text fault ++ codes "\n" }
{
    let mut line = Line::new();
    match fault {
        CommandFault::Read => line.push_str("fault read\n"),
        CommandFault::Memory => line.push_str("fault memory\n"),
        CommandFault::Write { taken: count } => {
            put(&mut line, "fault write after ", count);
            line.push_str("\n");
        }
    }
    line
}

/// The line of a refusal.
pub(crate) fn refusal_line(refusal: &Refusal) -> Line
    ensures { result.bytes ≡ refusal_text refusal.now ++ codes "\n" }
{
    let mut line = Line::new();
    put(&mut line, "refused ", u64::from(refusal.cause));
    put_place(&mut line, refusal.place);
    line.push_str("\n");
    line
}

/// The line of an outcome.
pub(crate) fn outcome_line(outcome: &Outcome) -> Line
    ensures { result.bytes ≡ outcome_text outcome.now ++ codes "\n" }
{
    match outcome {
        Outcome::Tightened {
            kept,
            removed,
            peak_before,
            peak_after,
        } => {
            let mut line = Line::new();
            put(&mut line, "kept ", u64::from(*kept));
            put(&mut line, " removed ", u64::from(*removed));
            put(&mut line, " peak ", *peak_before as u64);
            put(&mut line, " ", *peak_after as u64);
            line.push_str("\n");
            line
        }
        Outcome::Refused(refusal) => refusal_line(refusal),
    }
}

// Adds a place.
fn put_place(line: &mut Line, place: Place)
    requires { array_string_len line.old + 29 ≤ 128 }
    ensures bytes { line.new.bytes ≡ line.old.bytes ++ (codes " at " ++ place_text place) }
    ensures room { array_string_len line.new ≤ array_string_len line.old + 29 }
{
    match place {
        Place::Byte(offset) => put(line, " at byte ", offset),
        Place::Sol(number) => put(line, " at SOL ", u64::from(number)),
        Place::Der(index) => put(line, " at DER ", u64::from(index)),
        Place::End => line.push_str(" at end"),
    }
}

// Adds words and a number.
fn put(line: &mut Line, words: &str, number: u64)
    requires { array_string_len line.old + length words.now + 20 ≤ 128 }
    ensures bytes { line.new.bytes ≡ line.old.bytes ++ (words.now ++ decimal number) }
    ensures room { array_string_len line.new ≤ array_string_len line.old + length words.now + 20 }
{
    let mut buffer = Buffer::new();
    line.push_str(words);
    line.push_str(buffer.format(number));
}

// Writes a text piece by piece, up to the first write that fails.
#[derive(Drop)]
struct Pieces<'a, E> {
    err: &'a mut E,
}

impl<E: Sink> fmt::Write for Pieces<'_, E> {
    fn write_str(&mut self, text: &str) -> fmt::Result {
        match write_bytes(self.err, text.as_bytes()) {
            Ok(()) => Ok(()),
            Err(_) => Err(fmt::Error),
        }
    }
}

/// Writes a text of any length, in one piece if there is memory for it. A failed write is
/// ignored.
pub(crate) fn say_at_length<T: Display, E: Sink>(alloc: Global, err: &mut E, text: &T) {
    match text.to_string(alloc) {
        Ok(text) => {
            let _ = write_bytes(err, text.as_bytes());
        }
        Err(_) => {
            let _ = write!(Pieces { err }, "{text}");
        }
    }
}

/// Writes a line with the name of a file that can't be opened, and the system's reason.
pub(crate) fn say_why_unread<E: Sink>(alloc: Global, path: &str, reason: &io::Error, err: &mut E) {
    let name = StrangeBytes(path.as_bytes());
    say_at_length(alloc, err, &format_args!("{name}: {reason}\n"));
}
