//! The tightened certificate.
ghost use Rattle.std.specs.Prelude.{◌≡◌, ◌+◌, ◌<◌, ◌≤◌, length, map, IfOk, IfSome, OnOk};
ghost use Rattle.vipr_spec.specs.Certificate.{Certificate as CertificateMeant, count};
ghost use Rattle.vipr_spec.specs.Tightened.{tightened_certificate};
ghost use Rattle.vipr_spec.specs.{Reading.most_count, Steps.RefersBack};
ghost use Rattle.vipr_tighten.specs.Passes.{AreDerivationsOf, CanTighten};

use crate::derived::Tightenable;
use crate::needed::needed;
use crate::renumber::renumber;
use std::alloc::{AllocError, Global};
use vipr_cert::Certificate;

/// The certificate with the derivations alone that a goal needs, in their order. They are
/// renumbered without gaps, entries with multiplier 0 are removed, and the last reference of each
/// is the greatest index that refers to it, none at the goal. All else stays. Without a goal, and
/// if the goal is a constraint of the problem, no derivation stays.
///
/// Time and memory are at most in proportion to the size of the certificate.
///
/// # Errors
///
/// `AllocError` if a growth was refused. The certificate is dropped.
pub fn tighten_certificate(
    alloc: Global,
    certificate: Certificate,
    goal: Option<u32>,
) -> Result<Certificate, AllocError>
    requires back { RefersBack certificate }
    requires goal { IfSome goal (λ g. g < count certificate) }
    ensures { IfOk result (λ t. t ≡ tightened_certificate certificate goal) }
{
    let (problem, solutions, derivations) = certificate.into_parts();
    let first = problem.cons().len() as u32;
    let mut tightened = derivations;
    match tighten_derived(alloc, &mut tightened, first, goal) {
        Ok(()) => Ok(Certificate::of_parts(problem, solutions, tightened)),
        Err(error) => {
            drop(problem);
            drop(solutions);
            drop(tightened);
            Err(error)
        }
    }
}

/// Keeps the derivations alone that a goal needs, as `tighten_certificate` does. The first one has
/// the index `first`.
///
/// # Errors
///
/// `AllocError` if a growth was refused. The derivations are good for nothing then.
pub(crate) fn tighten_derived<D: Tightenable>(
    alloc: Global,
    steps: &mut Vec<D>,
    first: u32,
    goal: Option<u32>,
) -> Result<(), AllocError>
    requires { first + length steps.old.items ≤ most_count }
    ensures { OnOk result ((view : D.View) (c : CertificateMeant)
        → AreDerivationsOf c first (map (D.derived view) steps.old.items) → CanTighten c goal
        → map (D.derived view) steps.new.items ≡ (tightened_certificate c goal).derivations) }
{
    let marks = needed(alloc, steps, first as usize, goal)?;
    renumber(alloc, steps, &marks, first)
}
