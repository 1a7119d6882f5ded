//! Tightens a whole certificate, from a source to a sink.
//!
//! [`tighten`] checks the certificate while it is read. Only once it is verified does it remove
//! what the goal doesn't need, and write the rest. What is written is a proof of the same claim,
//! with the same problem and the same solutions. [`tighten_in`] does so by the rules of a profile.
ghost use Rattle.std.specs.Prelude.{◌≡◌};
ghost use Rattle.vipr_spec.specs.Constraint.{Profile as ProfileMeant};
ghost use Rattle.vipr_spec.specs.Certificate.{Certificate as CertificateMeant};
ghost use Rattle.vipr_rules.specs.Profile.{profile_of};
ghost use Rattle.vipr_write.specs.declared.form.Form.{Form as FormMeant};
ghost use Rattle.vipr_tighten.specs.Keeping.{IsKeptOf};
ghost use Rattle.vipr_tighten.specs.Tightens.{Tightens, TightensAs, TightensIn, TightensText};
ghost use Rattle.vipr_tighten.specs.Tightens.{CountsFailures, kind_of, unproved_answer};

use crate::certificate::tighten_derived;
use crate::outcome::{Outcome, TightenFault};
use crate::peak::peak;
use crate::proof_reader::{KeptProof, read_proof};
use std::alloc::Global;
use vipr_bytes::{Sink, Source};
use vipr_check::NoProof;
use vipr_rules::Profile;
use vipr_write::{Form, WriteError, write_steps};

/// Reads a certificate to its end and checks it while it is read. If it is a proof, writes the
/// canonical text of what its goal needs: the proof without the derivations that nothing needs.
///
/// Each item is tested before more is read than it takes, and all memory is allocated before the
/// first byte is written. Time and memory are at most in proportion to those of a check and to the
/// size of the certificate.
///
/// # Errors
///
/// `Read` if a read fails, and `Memory` if a growth is refused: nothing was written. `Write`
/// if a write fails or takes nothing, and the sink is asked no more.
///
/// # Example
///
/// ```rust crates/vipr_example/src/tighten.rt
/// let mut out = Vec::new(alloc);
/// match tighten(alloc, Bytes::new(text), &mut out)? {
///     Outcome::Tightened { .. } => Ok(Some(out)),
///     Outcome::Refused(_) => Ok(None),
/// }
/// ```
pub fn tighten<R: Source + Drop, W: Sink>(
    alloc: Global,
    source: R,
    sink: &mut W,
) -> Result<Outcome, TightenFault>
    ensures tightens { Tightens (R.input source) (W.output sink.old) (W.output sink.new) result }
    ensures failures { CountsFailures (W.failures sink.old) (W.failures sink.new) result }
{
    tighten_in(alloc, Profile::One, source, sink)
}

/// Tightens the certificate that is read from `source` by the rules of `profile`.
///
/// # Errors
///
/// `Read` if a read fails, and `Memory` if a growth is refused: nothing was written. `Write`
/// if a write fails or takes nothing, and the sink is asked no more.
pub fn tighten_in<R: Source + Drop, W: Sink>(
    alloc: Global,
    profile: Profile,
    source: R,
    sink: &mut W,
) -> Result<Outcome, TightenFault>
    ensures tightens { TightensIn (profile_of profile) (R.input source) (W.output sink.old)
        (W.output sink.new) result }
    ensures failures { CountsFailures (W.failures sink.old) (W.failures sink.new) result }
{
    tighten_as(alloc, profile, Form::Canonical, source, sink)
}

/// Tightens the certificate that is read from `source` by the rules of `profile`, and writes the
/// text in `form`.
///
/// # Errors
///
/// `Read` if a read fails, and `Memory` if a growth is refused: nothing was written. `Write`
/// if a write fails or takes nothing, and the sink is asked no more.
pub fn tighten_as<R: Source + Drop, W: Sink>(
    alloc: Global,
    profile: Profile,
    form: Form,
    source: R,
    sink: &mut W,
) -> Result<Outcome, TightenFault>
    ensures tightens { TightensAs (profile_of profile) form (R.input source) (W.output sink.old)
        (W.output sink.new) result }
    ensures failures { CountsFailures (W.failures sink.old) (W.failures sink.new) result }
{
    match read_proof(alloc, profile, form, source) {
        Ok(mut proof) => {
            let written = write_tightened(alloc, &mut proof, sink);
            drop(proof);
            written
        }
        Err(reason) => without_proof(reason),
    }
}

// The answer where no proof was read.
fn without_proof(reason: NoProof) -> Result<Outcome, TightenFault>
    ensures { result ≡ unproved_answer reason }
{
    match reason {
        NoProof::Refused(refusal) => Ok(Outcome::Refused(refusal)),
        NoProof::Read => Err(TightenFault::Read),
        NoProof::Memory => Err(TightenFault::Memory { taken: 0 }),
    }
}

// Writes the tightened certificate of the proof of which this is kept. Only its steps stay.
fn write_tightened<W: Sink>(
    alloc: Global,
    proof: &mut KeptProof,
    sink: &mut W,
) -> Result<Outcome, TightenFault>
    requires { (P : ProfileMeant) × (F : FormMeant) × (c : CertificateMeant)
        × IsKeptOf P F c proof.old }
    ensures text { (P : ProfileMeant) (F : FormMeant) (c : CertificateMeant)
        → IsKeptOf P F c proof.old
        → TightensText P F (kind_of c) (W.output sink.old) (W.output sink.new) result }
    ensures failures { CountsFailures (W.failures sink.old) (W.failures sink.new) result }
{
    let first = proof.problem.cons().len();
    tighten_derived(alloc, &mut proof.steps, first as u32, proof.report.goal)?;
    let KeptProof {
        problem,
        solutions,
        statements,
        steps,
        report,
    } = &*proof;
    let peak_after = peak(alloc, first, steps)?;
    let kept = steps.len() as u32;
    let lines = solutions.as_slice();
    match write_steps(alloc, problem, lines, statements, steps, sink) {
        Ok(()) => Ok(Outcome::Tightened {
            kept,
            removed: report.derived - kept,
            peak_before: report.peak,
            peak_after,
        }),
        Err(WriteError::Memory { taken }) => Err(TightenFault::Memory { taken }),
        Err(WriteError::Write { taken }) => Err(TightenFault::Write { taken }),
    }
}
