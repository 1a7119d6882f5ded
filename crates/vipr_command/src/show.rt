//! Shows a certificate: writes its text in a form.
ghost use Rattle.vipr_bytes.specs.Known.{IfWhole};
ghost use Rattle.vipr_command.specs.Show.{ShowsText, WritesText, text_spelling};
ghost use Rattle.vipr_command.specs.{Known.OfInput, Output.CountsWriteFaults, Run.PrintsText};

use crate::ending::Ending;
use crate::fault::CommandFault;
use std::alloc::Global;
use vipr_bytes::{Sink, Source};
use vipr_check::{Place, Refusal};
use vipr_scan::TextError;
use vipr_text::respell;
use vipr_write::{FoldedText, Form, WriteError};

/// What became of a certificate that was to be shown.
#[derive(Clone, Copy, Debug, PartialEq, Eq)]
pub enum Shown {
    /// Its text was written.
    Whole,
    /// The text spells none. Nothing was written.
    Refused(Refusal),
}

/// Reads a certificate to the end of its text, and then writes its text in a form, which is made
/// while it is read. What it means isn't tested.
///
/// # Errors
///
/// If a read fails and if a growth is refused: nothing was written. If a write fails.
pub fn show<R: Source + Drop, W: Sink>(
    alloc: Global,
    form: Form,
    source: R,
    writer: &mut W,
) -> Result<Shown, CommandFault>
    // Nothing is written but a certificate's text. The certificate, or the refusal, is that of the
    // definitions for the bytes that the source gives, in whatever pieces.
    ensures exact { OfInput (R.input source) (λ k. ShowsText form k.kind (W.output writer.old)
        (W.output writer.new) result) }
    // The certificate is what the text spells, and it is refused where it spells none.
    ensures spelled { IfWhole (R.input source) (λ bytes. ShowsText form (text_spelling bytes)
        (W.output writer.old) (W.output writer.new) result) }
    // A write that fails or takes nothing is the last one.
    ensures failures { CountsWriteFaults (W.failures writer.old) (W.failures writer.new) result }
{
    match respell(alloc, form, source) {
        Ok(text) => write_text(alloc, &text, writer),
        Err(TextError::Refused { cause, offset }) => Ok(Shown::Refused(Refusal {
            cause,
            place: Place::Byte(offset),
        })),
        Err(TextError::Read) => Err(CommandFault::Read),
        Err(TextError::Memory) => Err(CommandFault::Memory),
        Err(TextError::Spent) => unreachable!(),
    }
}

// Writes a text.
fn write_text<W: Sink>(
    alloc: Global,
    text: &FoldedText,
    writer: &mut W,
) -> Result<Shown, CommandFault>
    ensures text { WritesText (W.output writer.old) (W.output writer.new) text.now.bytes result }
    ensures failures { CountsWriteFaults (W.failures writer.old) (W.failures writer.new) result }
{
    match text.write_to(alloc, writer) {
        Ok(()) => Ok(Shown::Whole),
        Err(WriteError::Write { taken }) => Err(CommandFault::Write { taken }),
        Err(WriteError::Memory { taken: _ }) => Err(CommandFault::Memory),
    }
}

/// Prints a certificate's text in a form, and answers how that ends.
///
/// # Errors
///
/// As [`show`].
pub(crate) fn print_text<R: Source + Drop, O: Sink>(
    alloc: Global,
    form: Form,
    source: R,
    out: &mut O,
) -> Result<Ending, CommandFault>
    ensures { OfInput (R.input source) (λ k. PrintsText form k (O.output out.old)
        (O.output out.new) result) }
{
    match show(alloc, form, source, out)? {
        Shown::Whole => Ok(Ending::silent(0)),
        Shown::Refused(refusal) => Ok(Ending::of_refusal(&refusal)),
    }
}
