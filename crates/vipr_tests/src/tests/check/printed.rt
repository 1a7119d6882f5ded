//! Verdicts and errors as they are printed.

use crate::tests::same;
use std::alloc::{AllocError, Global};
use vipr_cert::Claim;
use vipr_check::{Place, Refusal, Report, Verdict};
use vipr_scan::TextError;
use vipr_write::WriteError;

// The greatest counts and places.
const VERIFIED: Verdict = Verdict::Verified(Report {
    claim: Claim::Infeas,
    solutions: 3,
    derived: 4294967295,
    peak: 7,
    goal: Some(5),
});

const REFUSED: Verdict = Verdict::Refused(Refusal {
    cause: 23,
    place: Place::Byte(18446744073709551615),
});

fn printed(alloc: Global, verdict: &Verdict) -> Result<String, AllocError> {
    format!(in alloc; "{verdict}\n")
}

#[test]
fn greatest_counts(rt: HostRuntime) {
    for (verdict, wanted) in [
        (
            &VERIFIED,
            "verified infeas\nsolutions 3 derived 4294967295 peak 7\n",
        ),
        (&REFUSED, "refused 23 at byte 18446744073709551615\n"),
    ] {
        let text = printed(rt.alloc(), verdict).expect(&rt, "a text");
        same(&rt, text.as_str(), wanted);
        drop(text);
    }
}

#[test]
fn errors_of_readers(rt: HostRuntime) {
    for (error, wanted) in [
        (
            TextError::Refused {
                cause: 7,
                offset: 12,
            },
            "refused 7 at byte 12",
        ),
        (TextError::Read, "a read failed"),
        (TextError::Memory, "out of memory"),
        (TextError::Spent, "the reader is spent"),
    ] {
        let text = format!(in rt.alloc(); "{error}").expect(&rt, "a text");
        same(&rt, text.as_str(), wanted);
        drop(text);
    }
}

#[test]
fn errors_of_writers(rt: HostRuntime) {
    for (error, wanted) in [
        (
            WriteError::Write { taken: 5 },
            "a write failed after 5 bytes",
        ),
        (
            WriteError::Memory { taken: 0 },
            "out of memory after 0 bytes",
        ),
    ] {
        let text = format!(in rt.alloc(); "{error}").expect(&rt, "a text");
        same(&rt, text.as_str(), wanted);
        drop(text);
    }
}
