//! The lines of `vipr check` and `vipr explain`, with their status.

ghost use Rattle.std.specs.Prelude.{◌≡◌, ◌++◌, ℕ, List, IfOk, Ok};
ghost use Rattle.vipr_rules.specs.Profile.{profile_of};
ghost use Rattle.vipr_check.specs.{Checks.ChecksIn, Explanation.explained_text};
ghost use Rattle.vipr_explain.specs.Page.{IsPage};
ghost use Rattle.vipr_c.specs.AnswerOf.{status_of};
ghost use Rattle.vipr_c.specs.Handed.{ExplainsAtLength, ExplainsBy, GivesDetail, IsExplanation};
ghost use Rattle.vipr_c.specs.Handed.{IsLong, IsReport, ReportsBy};
ghost use Rattle.vipr_c.specs.Handed.{in_memory, profile_numbered, report_lines};

use crate::answer::{Answer, NOTHING, answer_of};
use crate::status_and_text::{NO_MEMORY, NO_PROFILE, StatusAndText, profile_numbered};
use std::alloc::{AllocError, Global};
use vipr_bytes::Bytes;
use vipr_check::{Detail, Explanation, Fault, Table, Verdict, check_in, explain_in};
use vipr_explain::{page_for, with_page};
use vipr_rules::Profile;

/// What `vipr check` prints of a text by the rules of the profile with this number, and the numbers
/// of its verdict.
pub(crate) fn report_on(alloc: Global, profile: u32, text: &[u8]) -> (StatusAndText, Answer)
    ensures { ReportsBy (profile_numbered profile) text.now result.0.status result.0.text.items
        result.1 }
{
    let Some(profile) = profile_numbered(profile) else {
        return (StatusAndText::nothing(alloc, NO_PROFILE), NOTHING);
    };
    match verdict_lines(alloc, profile, text) {
        Ok(report) => report,
        Err(_) => (StatusAndText::nothing(alloc, NO_MEMORY), NOTHING),
    }
}

/// What `vipr explain` prints of a text by the rules of the profile with this number.
pub(crate) fn explanation_on(alloc: Global, profile: u32, text: &[u8]) -> StatusAndText
    ensures { ExplainsBy (profile_numbered profile) text.now result.status result.text.items }
{
    match profile_numbered(profile) {
        Some(profile) => {
            StatusAndText::or_no_memory(alloc, explanation_lines(alloc, profile, text))
        }
        None => StatusAndText::nothing(alloc, NO_PROFILE),
    }
}

/// What `vipr explain --long` prints of a text of this name by the rules of the profile with this
/// number.
pub(crate) fn long_explanation_on(
    alloc: Global,
    profile: u32,
    name: &[u8],
    text: &[u8],
) -> StatusAndText
    ensures { ExplainsAtLength (profile_numbered profile) text.now result.status
        result.text.items }
{
    match profile_numbered(profile) {
        Some(profile) => StatusAndText::or_no_memory(alloc, long_lines(alloc, profile, name, text)),
        None => StatusAndText::nothing(alloc, NO_PROFILE),
    }
}

fn verdict_lines(
    alloc: Global,
    profile: Profile,
    text: &[u8],
) -> Result<(StatusAndText, Answer), Fault>
    ensures { IfOk result (λ report. IsReport text.now (profile_of profile) report.0.status
        report.0.text.items report.1) }
{
    match verdict_on(alloc, profile, text) {
        Ok(verdict) => Ok((lines_of(alloc, verdict)?, answer_of(&verdict))),
        Err(fault) => Err(fault),
    }
}

fn lines_of(alloc: Global, verdict: Verdict) -> Result<StatusAndText, AllocError>
    ensures { IfOk result (λ lines. (lines.status ≡ status_of (Ok verdict))
        × (lines.text.items ≡ report_lines verdict)) }
{
    let lines = format!(in alloc; "{verdict}\n")?;
    Ok(StatusAndText::of_verdict(&verdict, lines.into_bytes()))
}

fn verdict_on(alloc: Global, profile: Profile, text: &[u8]) -> Result<Verdict, Fault>
    ensures { ChecksIn (profile_of profile) (in_memory text.now) result }
{
    check_in::<Bytes, Table>(alloc, profile, Bytes::new(text))
}

fn explanation_lines(alloc: Global, profile: Profile, text: &[u8]) -> Result<StatusAndText, Fault>
    ensures { IfOk result
        (λ lines. IsExplanation text.now (profile_of profile) lines.status lines.text.items) }
{
    let (verdict, detail) = detail_on(alloc, profile, text)?;
    let lines = explained(alloc, &verdict, &detail);
    drop(detail);
    let text = lines?;
    Ok(StatusAndText::of_verdict(&verdict, text))
}

fn long_lines(
    alloc: Global,
    profile: Profile,
    name: &[u8],
    text: &[u8],
) -> Result<StatusAndText, Fault>
    ensures { IfOk result
        (λ lines. IsLong text.now (profile_of profile) lines.status lines.text.items) }
{
    let (verdict, detail) = detail_on(alloc, profile, text)?;
    let lines = lines_with_page(alloc, profile, name, text, &verdict, &detail);
    drop(detail);
    let text = lines?;
    Ok(StatusAndText::of_verdict(&verdict, text))
}

fn lines_with_page(
    alloc: Global,
    profile: Profile,
    name: &[u8],
    text: &[u8],
    verdict: &Verdict,
    detail: &Detail,
) -> Result<Vec<u8>, AllocError>
    ensures { IfOk result (λ lines. (more : List ℕ) × IsPage more
        × (lines.items ≡ explained_text verdict.now detail.now ++ more)) }
{
    let lines = explained(alloc, verdict, detail)?;
    let page = page_for(alloc, profile, Some(text), name, verdict, detail);
    Ok(with_page(lines, page))
}

fn detail_on(alloc: Global, profile: Profile, text: &[u8]) -> Result<(Verdict, Detail), Fault>
    ensures { GivesDetail text.now (profile_of profile) result }
{
    explain_in(alloc, profile, Bytes::new(text))
}

fn explained(alloc: Global, verdict: &Verdict, detail: &Detail) -> Result<Vec<u8>, AllocError>
    ensures { IfOk result (λ text. text.items ≡ explained_text verdict.now detail.now) }
{
    let explanation = Explanation { verdict, detail };
    let lines = explanation.to_string(alloc)?;
    Ok(lines.into_bytes())
}
