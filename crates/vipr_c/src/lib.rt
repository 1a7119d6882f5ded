//! The checker for programs in C: `include/vipr.h` declares what is exported here.
#![tactic(auto)]

mod answer;
mod name;
mod report;
mod shown;
mod status_and_text;
mod tightened;

ghost use Rattle.std.specs.Prelude.{◌≡◌, ◌⊎◌, ℕ, List, Result, Some, codes, false, length, pos};
ghost use Rattle.vipr_spec.specs.Causes.{cause_name};
ghost use Rattle.vipr_spec.specs.Short.{Holds, Problem, Row, States};
ghost use Rattle.vipr_check.specs.Promises.{SpellsProof};
ghost use Rattle.vipr_check.specs.declared.verdict.Verdict.{Verdict as Answered};
ghost use Rattle.vipr_check.specs.{Checks.Checks, declared.verdict.Fault.Fault as Failure};
ghost use Rattle.vipr_text.specs.Digest.{hex_digest};
ghost use Rattle.vipr_c.specs.AnswerOf.{answer_of_verdict, status_of};
ghost use Rattle.vipr_c.specs.Handed.{ExplainsAtLength, ExplainsBy, Fills, ReportsBy, ended};
ghost use Rattle.vipr_c.specs.Handed.{profile_numbered};
ghost use Rattle.vipr_c.specs.Written.{ReturnsText, TightensBy, form_flagged};

use crate::answer::{Answer, NOTHING, answer_of};
use crate::shown::form_flagged;
use crate::status_and_text::{NO_MEMORY, REFUSED, VERIFIED, end};
use crate::tightened::Figures;
use std::alloc::Global;
use vipr_bytes::Bytes;
use vipr_check::{Fault, Verdict, check, is_verified};
use vipr_text::hex_digest;

/// Returns 0 if the text is a certificate that is a proof, 1 if it isn't, and 3 if a growth was
/// refused and there is no answer. A text with the answer 0 states a problem and listed solutions,
/// and of whatever problem it states the claim is true.
#[unsafe(no_mangle)]
pub extern "C" fn vipr_is_verified(alloc: Global, text: &[u8]) -> i32
    ensures proof { (result ≡ pos 0) → SpellsProof text.now }
    ensures refused { (result ≡ pos 1) → ¬ SpellsProof text.now }
    ensures states { (result ≡ pos 0) → (p : Problem) × (ss : List Row) × States text.now p ss }
    ensures holds { (result ≡ pos 0)
        → (p : Problem) (ss : List Row) → States text.now p ss → Holds p ss p.bounds }
    ensures answers { (result ≡ pos 0) ⊎ (result ≡ pos 1) ⊎ (result ≡ pos 3) }
{
    match is_verified(alloc, text) {
        Ok(true) => VERIFIED,
        Ok(false) => REFUSED,
        Err(_) => NO_MEMORY,
    }
}

/// Checks the certificate in memory, writes the verdict to `answer`, and returns 0 if
/// it is verified, 1 if it is refused, and 3 if a growth was refused and there is no verdict.
#[unsafe(no_mangle)]
pub extern "C" fn vipr_check(alloc: Global, text: &[u8], answer: &mut Answer) -> i32
    ensures { (r : Result Answered Failure)
        × Checks (Some (record { bytes = text.now; fails = false })) r
        × (result ≡ status_of r) × (answer.new ≡ answer_of_verdict r) }
{
    match verdict_on(alloc, text) {
        Ok(verdict) => {
            *answer = answer_of(&verdict);
            i32::from(verdict.status())
        }
        Err(_) => {
            *answer = NOTHING;
            NO_MEMORY
        }
    }
}

fn verdict_on(alloc: Global, text: &[u8]) -> Result<Verdict, Fault>
    ensures { Checks (Some (record { bytes = text.now; fails = false })) result }
{
    check(alloc, Bytes::new(text))
}

/// Writes what `vipr check` prints of the text, by the rules of a profile, to `lines`: as many
/// bytes as there is room for. `length` gets how many there are, `answer` the numbers of the
/// verdict, and the status is that of `vipr_check`, or 2 and no line for a profile that is neither
/// 1 nor 2.
#[unsafe(no_mangle)]
pub extern "C" fn vipr_report(
    alloc: Global,
    profile: u32,
    text: &[u8],
    lines: &mut [u8],
    length: &mut usize,
    answer: &mut Answer,
) -> i32
    ensures { (made : List ℕ)
        × ReportsBy (profile_numbered profile) text.now result made answer.new
        × Fills made lines.old lines.new length.new }
{
    let (made, numbers) = report::report_on(alloc, profile, text);
    *answer = numbers;
    made.hand_over(lines, length)
}

/// Writes what `vipr explain` prints of the text, in the form of `vipr_report`.
#[unsafe(no_mangle)]
pub extern "C" fn vipr_explain(
    alloc: Global,
    profile: u32,
    text: &[u8],
    lines: &mut [u8],
    length: &mut usize,
) -> i32
    ensures { (made : List ℕ)
        × ExplainsBy (profile_numbered profile) text.now result made
        × Fills made lines.old lines.new length.new }
{
    report::explanation_on(alloc, profile, text).hand_over(lines, length)
}

/// Writes what `vipr explain --long` prints of the text, which has this name, in the form of
/// `vipr_report`.
#[unsafe(no_mangle)]
pub extern "C" fn vipr_explain_long(
    alloc: Global,
    profile: u32,
    name: &[u8],
    text: &[u8],
    lines: &mut [u8],
    length: &mut usize,
) -> i32
    ensures { (made : List ℕ)
        × ExplainsAtLength (profile_numbered profile) text.now result made
        × Fills made lines.old lines.new length.new }
{
    report::long_explanation_on(alloc, profile, name, text).hand_over(lines, length)
}

/// Writes what `vipr show` does of the text, in its compact form unless `compact` is 0, in the form
/// of `vipr_report`. `answer` gets the refusal of a text that spells no certificate.
#[unsafe(no_mangle)]
pub extern "C" fn vipr_show(
    alloc: Global,
    compact: u32,
    text: &[u8],
    shown: &mut [u8],
    length: &mut usize,
    answer: &mut Answer,
) -> i32
    ensures { (made : List ℕ)
        × ReturnsText (form_flagged compact) text.now result made answer.new
        × Fills made shown.old shown.new length.new }
{
    let (made, refusal) = shown::shown(alloc, form_flagged(compact), text);
    *answer = refusal;
    made.hand_over(shown, length)
}

/// Writes what `vipr tighten` does of the text, by the rules of a profile, in its compact form
/// unless `compact` is 0, in the form of `vipr_report`. `figures` gets what was kept and removed,
/// or the refusal.
#[unsafe(no_mangle)]
pub extern "C" fn vipr_tighten(
    alloc: Global,
    profile: u32,
    compact: u32,
    text: &[u8],
    tightened: &mut [u8],
    length: &mut usize,
    figures: &mut Figures,
) -> i32
    ensures { (made : List ℕ)
        × TightensBy (profile_numbered profile) (form_flagged compact) text.now result made
        figures.new
        × Fills made tightened.old tightened.new length.new }
{
    let (made, numbers) = tightened::tightened(alloc, profile, form_flagged(compact), text);
    *figures = numbers;
    made.hand_over(tightened, length)
}

/// Writes the name of a cause to `name`, as many bytes as there is room for, and a 0 behind it if
/// there is room for that, too. Returns how many bytes the name has: 0 for a number that is no
/// cause.
#[unsafe(no_mangle)]
pub extern "C" fn vipr_cause_name(cause: u32, name: &mut [u8]) -> usize
    ensures word { name.new ≡ ended name.old (cause_name cause) }
    ensures count { result ≡ length (cause_name cause) }
{
    end(name, name::of_cause(cause).as_bytes())
}

/// Writes the version to `version` in the form of `vipr_cause_name`, and returns how many bytes it
/// has.
#[unsafe(no_mangle)]
pub extern "C" fn vipr_version(version: &mut [u8]) -> usize
    ensures word { version.new ≡ ended version.old (codes "1.2.0") }
    ensures count { result ≡ length (codes "1.2.0") }
{
    end(version, "1.2.0".as_bytes())
}

/// Writes the SHA-256 of the text, in 64 hex digits of lower case, to `digest` in the form of
/// `vipr_cause_name`, and returns 64.
#[unsafe(no_mangle)]
pub extern "C" fn vipr_digest(text: &[u8], digest: &mut [u8]) -> usize
    ensures word { digest.new ≡ ended digest.old (hex_digest text.now) }
    ensures count { result ≡ 64 }
{
    end(digest, &hex_digest(text))
}
