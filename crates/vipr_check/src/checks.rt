//! Checks a whole certificate, which is read from its first byte to its end or its first fault.
//!
//! [`check`] answers the verdict. [`explain`] answers the same verdict with a [`Detail`], which has
//! what shows it. Each item is tested and then dropped, but for the derived constraints that a
//! later derivation may refer to. [`check_in`] and [`explain_in`] take the rules of a profile, and
//! [`check_with`] takes the table that derived constraints are kept in.

ghost use Rattle.std.specs.Prelude.{◌≡◌, IfOk};
ghost use Rattle.vipr_spec.specs.{Constraint.one, Verdict.IsExplained};
ghost use Rattle.vipr_bytes.specs.Known.{text_of, IfKnown};
ghost use Rattle.vipr_rules.specs.Profile.{profile_of};
ghost use Rattle.vipr_check.specs.Run.{SaysInDetail, verdict_in};
ghost use Rattle.vipr_check.specs.Shown.{detail_of, last_shown};
ghost use Rattle.vipr_check.specs.{Checks.Checks, Checks.ChecksIn, Reasons.verdict_by};

use crate::Table;
use crate::checker::Checker;
use crate::detail::Detail;
use crate::no_proof::NoProof;
use crate::verdict::{Fault, Report, Verdict};
use crate::walk::run;
use std::alloc::{AllocError, Global};
use std::mem::forget;
use vipr_bytes::Source;
use vipr_rules::{Profile, Rows};

/// Checks the certificate that is read from `source`, and holds no more derived constraints than
/// may still be referred to.
///
/// Each item is tested before more is read than it takes.
///
/// # Errors
///
/// If a read fails, and if a growth is refused.
///
/// # Example
///
/// ```rust crates/vipr_check/src/in_memory.rt
/// match check(alloc, Bytes::new(text)) {
///     Ok(Verdict::Verified(_)) => Ok(true),
///     Ok(Verdict::Refused(_)) => Ok(false),
///     Err(Fault::Memory) => Err(Fault::Memory),
///     Err(Fault::Read) => unreachable!(),
/// }
/// ```
pub fn check<R: Source + Drop>(alloc: Global, source: R) -> Result<Verdict, Fault>
    ensures { Checks (R.input source) result }
{
    check_with::<R, Table>(alloc, source)
}

/// Checks the certificate that is read from `source`, over the table `S` of derived constraints.
///
/// # Errors
///
/// If a read fails, and if a growth is refused.
pub fn check_with<R: Source + Drop, S: Rows>(alloc: Global, source: R) -> Result<Verdict, Fault>
    ensures { Checks (R.input source) result }
{
    check_in::<R, S>(alloc, Profile::One, source)
}

/// Checks the certificate that is read from `source` by the rules of `profile`, over the table `S`.
///
/// # Errors
///
/// If a read fails, and if a growth is refused.
pub fn check_in<R: Source + Drop, S: Rows>(
    alloc: Global,
    profile: Profile,
    source: R,
) -> Result<Verdict, Fault>
    ensures { ChecksIn (profile_of profile) (R.input source) result }
{
    let (outcome, checker) = run::<R, S>(alloc, profile, source);
    drop(checker);
    verdict_of(outcome)
}

/// Checks as [`check_in`] does, and leaves what it holds then to the end of the program.
///
/// It is for a program that checks one certificate: no call frees that memory.
///
/// # Errors
///
/// If a read fails, and if a growth is refused.
pub fn check_last<R: Source + Drop, S: Rows>(
    alloc: Global,
    profile: Profile,
    source: R,
) -> Result<Verdict, Fault>
    ensures { ChecksIn (profile_of profile) (R.input source) result }
{
    let (outcome, left) = run::<R, S>(alloc, profile, source);
    forget(left);
    verdict_of(outcome)
}

/// Checks the certificate that is read from `source`, and gives the verdict with what shows it.
///
/// # Errors
///
/// If a read fails, and if a growth is refused.
///
/// # Example
///
/// ```rust crates/vipr_example/src/check.rt
/// let (verdict, detail) = explain(alloc, Bytes::new(text))?;
/// let explanation = Explanation {
///     verdict: &verdict,
///     detail: &detail,
/// };
/// Ok(explanation.to_string(alloc)?)
/// ```
pub fn explain<R: Source + Drop>(alloc: Global, source: R) -> Result<(Verdict, Detail), Fault>
    ensures verdict { Checks (R.input source) (verdict_in result) }
    // The verdict and the detail are those of the definitions for the bytes that the source gives.
    ensures detail { IfKnown (R.input source) (λ i. SaysInDetail (IsExplained one (text_of i))
        result) }
{
    explain_in(alloc, Profile::One, source)
}

/// Checks the certificate that is read from `source` by the rules of `profile`, and gives the
/// verdict with what shows it.
///
/// # Errors
///
/// If a read fails, and if a growth is refused.
pub fn explain_in<R: Source + Drop>(
    alloc: Global,
    profile: Profile,
    source: R,
) -> Result<(Verdict, Detail), Fault>
    ensures verdict { ChecksIn (profile_of profile) (R.input source) (verdict_in result) }
    ensures detail { IfKnown (R.input source)
        (λ i. SaysInDetail (IsExplained (profile_of profile) (text_of i)) result) }
{
    let (outcome, checker) = run::<R, Table>(alloc, profile, source);
    match verdict_of(outcome) {
        Ok(verdict) => Ok((verdict, last_detail(checker)?)),
        Err(fault) => {
            drop(checker);
            Err(fault)
        }
    }
}

// The verdict, or the fault if there is none.
fn verdict_of(outcome: Result<Report, NoProof>) -> Result<Verdict, Fault>
    ensures { result ≡ verdict_by outcome }
{
    match outcome {
        Ok(report) => Ok(Verdict::Verified(report)),
        Err(NoProof::Refused(refusal)) => Ok(Verdict::Refused(refusal)),
        Err(NoProof::Read) => Err(Fault::Read),
        Err(NoProof::Memory) => Err(Fault::Memory),
    }
}

// What the checker shows at the end, and nothing where no problem was read.
fn last_detail<S: Rows>(checker: Option<Checker<S>>) -> Result<Detail, AllocError>
    ensures { IfOk result (λ d. detail_of d ≡ last_shown checker) }
{
    match checker {
        Some(checker) => checker.detail(),
        None => Ok(Detail::None),
    }
}
