//! How many derived constraints have to be held.
ghost use Rattle.std.specs.Prelude.{◌≡◌, ◌+◌, ◌<◌, ◌≤◌, ◌^◌, ℕ, cond, nat_eq, length, Some, IfOk};
ghost use Rattle.std.specs.Prelude.{map, slice_index_or};
ghost use Rattle.vipr_spec.specs.Certificate.{Certificate as CertificateMeant, peak};
ghost use Rattle.vipr_spec.specs.Reading.{most_count};
ghost use Rattle.vipr_write.specs.declared.statements.Statement.{Statement as StatementMeant};
ghost use Rattle.vipr_write.specs.{StepReasons.kept_reason_of, Steps.step_of};
ghost use Rattle.vipr_tighten.specs.Dropping.{dropped_after};
ghost use Rattle.vipr_tighten.specs.Passes.{NamedConstraint, AreDerivationsOf};

use std::alloc::{AllocError, Global};
use vipr_write::Step;

/// The largest number of derived constraints that have to be held at a time. The first step has
/// the index `first`.
pub(crate) fn peak(alloc: Global, first: usize, steps: &[Step]) -> Result<usize, AllocError>
    requires { first + length steps.now ≤ most_count }
    ensures { IfOk result (λ n. (view : StatementMeant → NamedConstraint) (c : CertificateMeant)
        → AreDerivationsOf c first (map (step_of view) steps.now) → n ≡ peak c) }
{
    let mut dropped = vec![in alloc; 0u32; steps.len()]?;
    let mut held = 0;
    let mut most = 0;
    for (place, step) in steps.iter().enumerate() {
        held = held + 1 - dropped[place] as usize;
        most = held.max(most);
        if let Some(at) = dropped_after(step, first + place) {
            count_at(&mut dropped, first, at);
        }
    }
    Ok(most)
}

// After the derivation of which index constraint `index` is dropped, none where it never is.
fn dropped_after(step: &Step, index: usize) -> Option<usize>
    requires { index < 2 ^ 32 }
    ensures { result ≡ dropped_after index (Some (kept_reason_of step.now.reason)) step.now.last }
{
    match step.last {
        Some(last) if !step.reason.is_assumption() => Some((last as usize).max(index + 1)),
        _ => None,
    }
}

// One more at this index, if it is there. The first count is that of index `first`.
fn count_at(counts: &mut [u32], first: usize, at: usize)
    requires from { first ≤ at }
    requires few { (k : ℕ) → k < length counts.old → slice_index_or counts.old k 0 + 1 < 2 ^ 32 }
    ensures { (k : ℕ) → k < length counts.old → slice_index_or counts.new k 0
        ≡ slice_index_or counts.old k 0 + cond (nat_eq at (first + k)) 1 0 }
{
    let place = at - first;
    if place < counts.len() {
        counts[place] += 1;
    }
}
