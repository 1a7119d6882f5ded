//! The two profiles of the rules: splits that cover, and a whole objective.

use super::{at, refusal_of, report_of};
use crate::tests::same;
use std::alloc::Global;
use std::process::Abort;
use vipr_bytes::Bytes;
use vipr_check::{Detail, Place, Refusal, check_in, explain_in};
use vipr_rules::{LiveOnly, Profile};

// The branches x <= 1/4 and x >= 3/4 of a whole x.
const COVERING: &[u8] = b"VER 1.0 VAR 1 x INT 1 0 OBJ min 0 CON 2 0 a G 1 1 0 2 b L 1 1 0 2
    RTP infeas SOL 0 DER 5 c L 1/4 1 0 1 { asm } 6 d G 3/4 1 0 1 { asm } 6
    e G 1 0 { lin 2 0 1 2 -2 } 6 f G 1 0 { lin 2 3 2 1 -1 } 6 g G 1 0 { uns 4 2 5 3 } -1";
// The branches x <= 0 and x >= 2, between which 1 is left.
const WITH_GAP: &[u8] = b"VER 1.0 VAR 1 x INT 1 0 OBJ min 0 CON 2 0 a G 1 1 0 2 b L 1 1 0 2
    RTP infeas SOL 0 DER 5 c L 0 1 0 1 { asm } 6 d G 2 1 0 1 { asm } 6
    e G 1 0 { lin 2 0 1 2 -2 } 6 f G 1 0 { lin 2 3 2 1 -1 } 6 g G 1 0 { uns 4 2 5 3 } -1";
// x >= 1/2 for a whole x that is to be small.
const WHOLE: &[u8] = b"VER 1.0 VAR 1 x INT 1 0 OBJ min 1 0 1 CON 1 0 a G 1/2 1 0 1
    RTP range 1 1 SOL 1 s 1 0 1 DER 0";
// The same where x needn't be whole.
const NOT_WHOLE: &[u8] = b"VER 1.0 VAR 1 x INT 0 OBJ min 1 0 1 CON 1 0 a G 1/2 1 0 1
    RTP range 1 1 SOL 1 s 1 0 1 DER 0";
// The same where half of x is to be small.
const HALVED: &[u8] = b"VER 1.0 VAR 1 x INT 1 0 OBJ min 1 0 1/2 CON 1 0 a G 1/2 1 0 1
    RTP range 1/2 1/2 SOL 1 s 1 0 1 DER 0";
// x <= 5/2 for a whole x that is to be large.
const WHOLE_MAX: &[u8] = b"VER 1.0 VAR 1 x INT 1 0 OBJ max 1 0 1 CON 1 0 a L 5/2 1 0 1
    RTP range 2 2 SOL 1 s 1 0 2 DER 0";
// x = 1/2 for a whole x, which is true nowhere.
const NOWHERE: &[u8] = b"VER 1.0 VAR 1 x INT 1 0 OBJ min 1 0 1 CON 1 0 a E 1/2 1 0 1
    RTP range 7 inf SOL 0 DER 0";
// The bound 1/2 is assumed.
const ASSUMED: &[u8] = b"VER 1.0 VAR 1 x INT 1 0 OBJ min 1 0 1 CON 0 0
    RTP range 1 inf SOL 0 DER 1 a G 1/2 1 0 1 { asm } -1";

// What is answered by the rules of a profile: none where it is verified.
fn refusal(rt: &impl Abort, alloc: Global, profile: Profile, text: &[u8]) -> Option<Refusal> {
    let verdict = check_in::<Bytes, LiveOnly>(alloc, profile, Bytes::new(text));
    refusal_of(verdict.expect(rt, "a verdict"))
}

// The goal of a proof by the second profile.
fn goal(rt: &impl Abort, alloc: Global, text: &[u8]) -> Option<u32> {
    let verdict = check_in::<Bytes, LiveOnly>(alloc, Profile::Two, Bytes::new(text));
    let report = report_of(verdict.expect(rt, "a verdict"));
    report.expect(rt, "a proof").goal
}

#[test]
fn splits_cover(rt: HostRuntime) {
    let no_split = at(37, Place::Der(6));
    for (profile, text) in [(Profile::One, COVERING), (Profile::Two, WITH_GAP)] {
        same(&rt, refusal(&rt, rt.alloc(), profile, text), no_split);
    }
    same(&rt, goal(&rt, rt.alloc(), COVERING), Some(6));
}

#[test]
fn what_splits_not_is_shown(rt: HostRuntime) {
    let found = explain_in(rt.alloc(), Profile::Two, Bytes::new(WITH_GAP));
    let (_, detail) = found.expect(&rt, "a verdict");
    let is_step = matches!(&detail, Detail::Step { .. });
    drop(detail);
    assert!(rt; is_step);
}

#[test]
fn objectives_are_rounded(rt: HostRuntime) {
    let alloc = rt.alloc();
    let no_proof = at(51, Place::End);
    for text in [WHOLE, NOT_WHOLE, HALVED, WHOLE_MAX, NOWHERE, ASSUMED] {
        same(&rt, refusal(&rt, alloc, Profile::One, text), no_proof);
    }
    for text in [WHOLE, WHOLE_MAX, NOWHERE] {
        same(&rt, goal(&rt, alloc, text), Some(0));
    }
    for text in [NOT_WHOLE, HALVED, ASSUMED] {
        same(&rt, refusal(&rt, alloc, Profile::Two, text), no_proof);
    }
}
