//! The functions of `vipr_example`, on a proof and on a text that is none.
use super::check::INFEASIBLE;
use super::same;
use std::alloc::Global;
use std::process::Abort;
use vipr_check::{Place, Refusal, is_proof, is_verified};
use vipr_example::{Counts, canonical, count_items, explanation, tightened, verdict_text};
use vipr_scan::TextError;

// 2 times x >= 1, and -1 times x <= 0: the sum is x >= 2.
const NO_PROOF: &[u8] =
    b"VER 1.0\nVAR 1\nx\nINT 0\nOBJ min\n0\nCON 2 0\na G 1 1 0 1\nb L 0 1 0 1\nRTP infeas\nSOL 0\nDER 1\nf G 1 0 { lin 2 0 2 1 -1 } -1\n";

#[test]
fn bytes_in_memory_are_checked(rt: HostRuntime) {
    for (text, wanted) in [(INFEASIBLE, true), (NO_PROOF, false)] {
        same(&rt, is_proof(rt.alloc(), text), Ok(wanted));
        same(&rt, is_verified(rt.alloc(), text), Ok(wanted));
    }
}

fn prints(rt: &impl Abort, alloc: Global, text: &[u8], wanted: &str) {
    let printed = verdict_text(alloc, text).expect(rt, "a verdict");
    same(rt, printed.as_str(), wanted);
    drop(printed);
}

fn explains(rt: &impl Abort, alloc: Global, text: &[u8], wanted: &str) {
    let explained = explanation(alloc, text).expect(rt, "memory");
    same(rt, explained.as_str(), wanted);
    drop(explained);
}

#[test]
fn answers_are_printed(rt: HostRuntime) {
    for (text, wanted) in [
        (INFEASIBLE, "verified infeas\nsolutions 0 derived 1 peak 1"),
        (NO_PROOF, "refused 38 at DER 2"),
        (b"VER 1.1", "refused 3 at byte 4"),
    ] {
        prints(&rt, rt.alloc(), text, wanted);
    }
    let wanted =
        "refused 38 at DER 2\ncause NotDominated\nderivation 2 f\ncomputed G 2 1 0 1\nstated G 1 0\n";
    explains(&rt, rt.alloc(), NO_PROOF, wanted);
}

fn answers(rt: &impl Abort, cause: u8, wanted: (&str, bool, bool)) {
    let place = Place::End;
    let refusal = Refusal { cause, place };
    let answers = (refusal.name(), refusal.is_of_text(), refusal.is_overflow());
    same(rt, answers, wanted);
}

// Numbers and names are those of the table of causes.
#[test]
fn refusals_answer(rt: HostRuntime) {
    for (cause, name, is_of_text, is_overflow) in [
        (0, "", false, false),
        (1, "Truncated", true, false),
        (5, "NumberTooLarge", true, true),
        (18, "TrailingText", true, false),
        (21, "SolutionNotWhole", false, false),
        (23, "SolutionOverflow", false, true),
        (35, "Overflow", false, true),
        (52, "NoPrimal", false, false),
    ] {
        answers(&rt, cause, (name, is_of_text, is_overflow));
    }
}

fn refused(cause: u8, offset: u64) -> TextError {
    TextError::Refused { cause, offset }
}

#[test]
fn items_are_counted(rt: HostRuntime) {
    let counted = Counts {
        variables: 1,
        constraints: 2,
        sums: 1,
        entries: 2,
        ..Counts::default()
    };
    for (text, wanted) in [
        (INFEASIBLE, Ok(counted)),
        (NO_PROOF, Ok(counted)),
        (b"VER 1.0", Err(refused(1, 7))),
    ] {
        same(&rt, count_items(rt.alloc(), text), wanted);
    }
}

fn becomes(rt: &impl Abort, alloc: Global, text: &[u8], wanted: Result<&[u8], TextError>) {
    match canonical(alloc, text) {
        Ok(text) => {
            same(rt, Ok(text.as_slice()), wanted);
            drop(text);
        }
        Err(error) => same(rt, Err(error), wanted),
    }
}

#[test]
fn the_canonical_text_is_written(rt: HostRuntime) {
    for (text, wanted) in [
        (INFEASIBLE, Ok(INFEASIBLE)),
        (b"VER 1.1", Err(refused(3, 4))),
    ] {
        becomes(&rt, rt.alloc(), text, wanted);
    }
}

fn kept(rt: &impl Abort, alloc: Global, text: &[u8], wanted: Option<&[u8]>) {
    let kept = tightened(alloc, text).expect(rt, "memory");
    same(rt, kept.as_ref().map(|text| text.as_slice()), wanted);
    drop(kept);
}

#[test]
fn what_the_goal_needs_is_kept(rt: HostRuntime) {
    kept(&rt, rt.alloc(), INFEASIBLE, Some(INFEASIBLE));
    kept(&rt, rt.alloc(), NO_PROOF, None);
}
