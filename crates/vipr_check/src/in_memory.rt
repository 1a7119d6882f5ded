//! The answer for bytes in memory, as yes or no.

ghost use Rattle.std.specs.Prelude.{◌≡◌, ◌↔◌, IfErr, IfOk, IsTrue, List};
ghost use Rattle.vipr_spec.specs.Short.{Holds, Problem, Row, States};
ghost use Rattle.vipr_check.specs.Promises.{SpellsProof, SpellsTruth};

use crate::checks::check;
use crate::verdict::{Fault, Verdict};
use std::alloc::Global;
use vipr_bytes::Bytes;
use vipr_spec::short::proofs_mean;

/// Whether the bytes are a certificate that is a proof.
///
/// # Errors
///
/// `Fault::Memory` if a growth is refused. A slice never fails, so `Fault::Read` doesn't come.
pub fn is_proof(alloc: Global, text: &[u8]) -> Result<bool, Fault>
    ensures proof { IfOk result (λ verified. IsTrue verified ↔ SpellsProof text.now) }
    ensures claim { IfOk result (λ verified. IsTrue verified → SpellsTruth text.now) }
    ensures error { IfErr result (λ fault. fault ≡ Fault.Memory) }
{
    match check(alloc, Bytes::new(text)) {
        Ok(Verdict::Verified(_)) => Ok(true),
        Ok(Verdict::Refused(_)) => Ok(false),
        Err(Fault::Memory) => Err(Fault::Memory),
        Err(Fault::Read) => unreachable!(),
    }
}

/// Whether the bytes are a certificate that is a proof, as [`is_proof`] says it. If they are, they
/// state a problem and listed solutions, and of whatever problem they state the claim is true.
///
/// # Errors
///
/// As for [`is_proof`].
pub fn is_verified(alloc: Global, text: &[u8]) -> Result<bool, Fault>
    ensures proof { IfOk result (λ verified. IsTrue verified ↔ SpellsProof text.now) }
    ensures states { IfOk result (λ verified. IsTrue verified
        → (p : Problem) × (ss : List Row) × States text.now p ss) }
    ensures holds { IfOk result (λ verified. IsTrue verified
        → (p : Problem) (ss : List Row) → States text.now p ss → Holds p ss p.bounds) }
    ensures error { IfErr result (λ fault. fault ≡ Fault.Memory) }
{
    proofs_mean();
    is_proof(alloc, text)
}
