//! Writes the text of a certificate, of whose derivations steps are kept.
ghost use Rattle.std.specs.Prelude.{◌^◌, ◌<◌, [], length, IfErr, IfSome};
ghost use Rattle.vipr_spec.specs.{Certificate.Certificate as CertificateMeant, Grammar.SpellsOnly};
ghost use Rattle.vipr_write.specs.WrittenText.{WroteText, IsWithin, LeavesFailures};
ghost use Rattle.vipr_write.specs.{Forms.text_in, Steps.AreStepsOf, declared.form.Form.Form};
ghost use Rattle.vipr_bytes.specs.{Hands.Start, Hands.start_of, Hands.IsEnd, Sent.Carries};

use crate::countable::are_countable;
use crate::sections::put_problem;
use crate::statements::{Statements, Step};
use crate::steps::put_steps;
use crate::write::WriteError;
use std::alloc::Global;
use vipr_bytes::{Out, Sink, SinkBuffer, ToSink, WriteFailed};
use vipr_cert::Problem;

/// Writes the text of the certificate of this problem, of which these lines of the solutions and
/// these steps are kept. The text is in the form of the statements.
///
/// # Errors
///
/// `Memory` if the buffer is refused, or if there are 2^48 words and bytes that are kept or more:
/// nothing was written. `Write` if a write fails or takes nothing, and the sink is asked no more.
pub fn write_steps<W: Sink>(
    alloc: Global,
    problem: &Problem,
    solutions: &[u8],
    statements: &Statements,
    steps: &[Step],
    sink: &mut W,
) -> Result<(), WriteError>
    ensures output { (c : CertificateMeant)
        → AreStepsOf c problem.now solutions.now statements.now steps.now
        → IfSome (W.output sink.old)
        (λ o. WroteText o (W.output sink.new) (text_in statements.now.form c) result) }
    ensures part { (c : CertificateMeant)
        → AreStepsOf c problem.now solutions.now statements.now steps.now
        → IfErr result (IsWithin (text_in statements.now.form c)) }
    ensures failures { (c : CertificateMeant)
        → AreStepsOf c problem.now solutions.now statements.now steps.now
        → IfSome (W.failures sink.old) (λ n. LeavesFailures n (W.failures sink.new) result) }
    ensures law { (c : CertificateMeant)
        → AreStepsOf c problem.now solutions.now statements.now steps.now
        → (f : Form) → SpellsOnly (text_in f c) c }
{
    if !are_countable(problem, solutions, statements, steps) {
        return Err(WriteError::Memory { taken: 0 });
    }
    match SinkBuffer::new(alloc) {
        Ok(buffer) => Ok(write_parts(buffer, problem, solutions, statements, steps, sink)?),
        Err(_) => Err(WriteError::Memory { taken: 0 }),
    }
}

// Writes that text, of which nothing is written yet.
fn write_parts<W: Sink>(
    mut buffer: SinkBuffer,
    problem: &Problem,
    solutions: &[u8],
    statements: &Statements,
    steps: &[Step],
    sink: &mut W,
) -> Result<(), WriteFailed>
    requires { (start : Start) → Carries start start buffer [] }
    ensures { (c : CertificateMeant)
        → AreStepsOf c problem.now solutions.now statements.now steps.now
        → length (text_in statements.now.form c) < 2 ^ 64
        → IsEnd (start_of W.output W.failures sink.old) (start_of W.output W.failures sink.new)
        (text_in statements.now.form c) result }
{
    let mut out = ToSink {
        sink,
        buffer: &mut buffer,
    };
    put_problem(&mut out, statements.form, problem);
    out.put(solutions);
    put_steps(&mut out, statements, steps);
    out.finish()
}
