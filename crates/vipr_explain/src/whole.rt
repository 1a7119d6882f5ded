//! The whole explanation of a verdict: what is found for it, and how that is shown.

use crate::excerpt::Excerpt;
use crate::goal::{ProvedClaim, UnprovedClaim};
use crate::marks::{ItemPart, ItemSort, find_item};
use crate::page::Page;
use crate::solution::{ListedValues, RefusedSolution};
use crate::step::{RefusedStep, StepFault};
use crate::syntax::TextFault;
use crate::text::{Reread, Subject};
use std::alloc::{AllocError, Global};
use vipr_check::{Detail, Place, Report, Verdict};
use vipr_frac::Frac;
use vipr_linear::{Constraint, Sense};
use vipr_rules::Profile;
use vipr_scan::TextError;

/// What is found in a text that explains a verdict.
#[derive(Drop)]
enum Findings<'a> {
    Proved(ProvedClaim<'a>, &'a Report),
    /// And its cause.
    Text(TextFault<'a>, u8),
    Solution(RefusedSolution<'a>, &'a Detail),
    Step(RefusedStep<'a>, StepFault<'a>),
    /// And the place of the dual bound.
    NoProof(UnprovedClaim<'a>, Option<Excerpt<'a>>),
    /// And the primal bound, and its place.
    NoPrimal(ListedValues, Frac, Option<Excerpt<'a>>),
    /// The detail is of another verdict.
    Nothing,
}

/// The page that explains a verdict for people: the place at fault, what is wanted there, and what
/// is likely to be wrong. The text is the one that was checked, by the rules of `profile`; `file`
/// is its name, and `text` is `None` if a read failed after what is refused. There is no page if a
/// growth is refused.
pub fn page_for(
    alloc: Global,
    profile: Profile,
    text: Option<&[u8]>,
    file: &[u8],
    verdict: &Verdict,
    detail: &Detail,
) -> Option<Page> {
    let Some(text) = text else {
        let why = "\na read failed after what is refused, so it isn't explained\n";
        return Page::begun(alloc, why).end();
    };
    let subject = Subject {
        alloc,
        profile,
        text,
    };
    match find(subject, verdict, detail) {
        Ok(known) => {
            let mut page = Page::begun(alloc, "\n");
            write_findings(&mut page, &known, file);
            drop(known);
            if let Verdict::Refused(refusal) = verdict {
                let cause = refusal.cause;
                write!(page, "  = see: docs/FORMAT.md, cause {cause}\n");
            }
            page.end()
        }
        Err(TextError::Memory) => None,
        Err(_) => {
            let why = "\nthe verdict isn't one of this text, so it isn't explained\n";
            Page::begun(alloc, why).end()
        }
    }
}

// Finds what explains a verdict.
fn find<'a>(
    subject: Subject<'a>,
    verdict: &'a Verdict,
    detail: &'a Detail,
) -> Reread<Findings<'a>> {
    let refusal = match verdict {
        Verdict::Verified(report) => {
            return Ok(Findings::Proved(ProvedClaim::find(subject, report)?, report));
        }
        Verdict::Refused(refusal) => *refusal,
    };
    let cause = refusal.cause;
    match (refusal.place, detail) {
        (Place::Byte(offset), _) => {
            Ok(Findings::Text(TextFault::find(subject.text, offset), cause))
        }
        (Place::Sol(number), _) => {
            let known = RefusedSolution::find(subject, number, detail)?;
            Ok(Findings::Solution(known, detail))
        }
        (Place::Der(index), Detail::Step { what, .. }) => {
            let fault = StepFault { cause, index, what };
            Ok(Findings::Step(RefusedStep::find(subject, fault)?, fault))
        }
        (Place::End, Detail::NoProof(needed)) => {
            let place = claim_place(subject, dual_part(needed))?;
            Ok(Findings::NoProof(UnprovedClaim::find(subject)?, place))
        }
        (Place::End, Detail::NoPrimal(bound)) => {
            let values = ListedValues::find_below(subject, *bound)?;
            match claim_place(subject, values.part()) {
                Ok(place) => Ok(Findings::NoPrimal(values, *bound, place)),
                Err(error) => {
                    drop(values);
                    Err(error.into())
                }
            }
        }
        _ => Ok(Findings::Nothing),
    }
}

// The part of the claim that is to be proved, if a constraint has to dominate this one, or has to
// be absurd.
fn dual_part(needed: &Option<Constraint>) -> ItemPart {
    match needed {
        Some(needed) if needed.sense == Sense::L => ItemPart::UpperBound,
        Some(_) => ItemPart::LowerBound,
        None => ItemPart::Name,
    }
}

// The place of a part of the claim.
fn claim_place<'a>(
    subject: Subject<'a>,
    part: ItemPart,
) -> Result<Option<Excerpt<'a>>, AllocError> {
    match find_item(subject, ItemSort::Claim, 0, part)? {
        Some(place) => Ok(Some(Excerpt::of(subject.text, place.part))),
        None => Ok(None),
    }
}

// Writes what was found.
fn write_findings(page: &mut Page, known: &Findings<'_>, file: &[u8]) {
    match known {
        Findings::Proved(known, report) => known.write(page, *report),
        Findings::Text(fault, cause) => fault.write(page, *cause, file),
        Findings::Solution(known, detail) => known.write(page, *detail, file),
        Findings::Step(step, fault) => step.write(page, *fault, file),
        Findings::NoProof(known, place) => known.write(page, *place, file),
        Findings::NoPrimal(known, bound, place) => known.write(page, *bound, *place, file),
        Findings::Nothing => {}
    }
}
