//! Writes the canonical text of a certificate.
ghost use Rattle.std.specs.Prelude.{◌≡◌, ◌^◌, ◌<◌, [], length, IfErr, IfSome};
ghost use Rattle.vipr_spec.specs.Grammar.{SpellsOnly};
ghost use Rattle.vipr_write.specs.Canonical.{canonical_text};
ghost use Rattle.vipr_write.specs.WrittenText.{WroteText, IsWithin, LeavesFailures, write_error};
ghost use Rattle.vipr_write.specs.{Forms.text_in, declared.form.Form.Form};
ghost use Rattle.vipr_bytes.specs.{Hands.Start, Hands.start_of, Hands.IsEnd, Sent.Carries};

use crate::countable::is_countable;
use crate::form::Form;
use crate::sections::put_certificate;
use std::alloc::Global;
use thiserror::Error;
use vipr_bytes::{Sink, SinkBuffer, ToSink, WriteFailed};
use vipr_cert::Certificate;

/// Why a certificate was not written whole. The count says how many bytes of its text, the first
/// ones, were accepted.
///
/// A text that might have 2^64 bytes or more isn't begun, so the number is exact.
#[derive(Clone, Copy, Debug, PartialEq, Eq, Error)]
pub enum WriteError {
    /// A write failed or took nothing.
    #[error("a write failed after {taken} bytes")]
    Write { taken: u64 },

    /// A growth was refused. Nothing was written, and the count is 0.
    #[error("out of memory after {taken} bytes")]
    Memory { taken: u64 },
}

impl From<WriteFailed> for WriteError {
    ghost from_gives = { λ failed error. error ≡ write_error failed };

    fn from(failed: WriteFailed) -> WriteError {
        WriteError::Write {
            taken: failed.accepted,
        }
    }
}

/// Writes the canonical text of a certificate, which spells that certificate and no other.
///
/// It is handed over in pieces of at most 65,536 bytes, from one buffer that is made before the
/// first byte, so memory doesn't grow with the text.
///
/// # Errors
///
/// `Memory` if that buffer is refused, or if there are 2^48 words and lines or more: nothing
/// was written. `Write` if a write fails or takes nothing, and the sink is asked no more.
///
/// # Example
///
/// ```rust crates/vipr_example/src/text.rt
/// let mut out = Vec::new(alloc);
/// match write_certificate(alloc, &certificate, &mut out) {
///     Ok(()) => Ok(out),
///     // A vector takes each write whole, or has no memory for it.
///     Err(WriteError::Write { .. } | WriteError::Memory { .. }) => Err(TextError::Memory),
/// }
/// ```
pub fn write_certificate<W: Sink>(
    alloc: Global,
    certificate: &Certificate,
    sink: &mut W,
) -> Result<(), WriteError>
    ensures output { IfSome (W.output sink.old)
        (λ o. WroteText o (W.output sink.new) (canonical_text certificate.now) result) }
    ensures part { IfErr result (IsWithin (canonical_text certificate.now)) }
    ensures failures { IfSome (W.failures sink.old)
        (λ n. LeavesFailures n (W.failures sink.new) result) }
    ensures law { SpellsOnly (canonical_text certificate.now) certificate.now }
{
    write_certificate_in(alloc, Form::Canonical, certificate, sink)
}

/// Writes the text of a certificate in `form`.
///
/// # Errors
///
/// `Memory` if that buffer is refused, or if there are 2^48 words and lines or more: nothing
/// was written. `Write` if a write fails or takes nothing, and the sink is asked no more.
pub fn write_certificate_in<W: Sink>(
    alloc: Global,
    form: Form,
    certificate: &Certificate,
    sink: &mut W,
) -> Result<(), WriteError>
    ensures output { IfSome (W.output sink.old)
        (λ o. WroteText o (W.output sink.new) (text_in form certificate.now) result) }
    ensures part { IfErr result (IsWithin (text_in form certificate.now)) }
    ensures failures { IfSome (W.failures sink.old)
        (λ n. LeavesFailures n (W.failures sink.new) result) }
    // Of every form.
    ensures law { (f : Form) → SpellsOnly (text_in f certificate.now) certificate.now }
{
    if !is_countable(certificate) {
        return Err(WriteError::Memory { taken: 0 });
    }
    match SinkBuffer::new(alloc) {
        Ok(buffer) => Ok(write_text(buffer, form, certificate, sink)?),
        Err(_) => Err(WriteError::Memory { taken: 0 }),
    }
}

// Writes the text of a certificate, of which nothing is written yet.
fn write_text<W: Sink>(
    mut buffer: SinkBuffer,
    form: Form,
    certificate: &Certificate,
    sink: &mut W,
) -> Result<(), WriteFailed>
    requires nothing { (start : Start) → Carries start start buffer [] }
    requires short { length (text_in form certificate.now) < 2 ^ 64 }
    ensures { IsEnd (start_of W.output W.failures sink.old) (start_of W.output W.failures sink.new)
        (text_in form certificate.now) result }
{
    let mut out = ToSink {
        sink,
        buffer: &mut buffer,
    };
    put_certificate(&mut out, form, certificate);
    out.finish()
}
