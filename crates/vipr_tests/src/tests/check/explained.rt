//! What is shown by the second profile, for each kind of detail.

use super::{INFEASIBLE, OTHERS, at, refusal_of, without_detail};
use crate::tests::same;
use std::alloc::Global;
use std::process::Abort;
use vipr_bytes::Bytes;
use vipr_check::{Place, Refusal, explain_in};
use vipr_rules::Profile;

// A value that is to be whole, and isn't.
const HALF: &[u8] = b"VER 1.0 VAR 1 x INT 1 0 OBJ min 0 CON 0 0 RTP infeas SOL 1 s 1 0 1/2 DER 0";
// 2^126 times 2 is past the bound, in a constraint and in the objective.
const LARGE_ROW: &[u8] = b"VER 1.0 VAR 1 x INT 0 OBJ min 0 CON 1 0
    a G 0 1 0 85070591730234615865843651857942052864 RTP infeas SOL 1 s 1 0 2 DER 0";

const LARGE_OBJECTIVE: &[u8] = b"VER 1.0 VAR 1 x INT 0
    OBJ min 1 0 85070591730234615865843651857942052864 CON 0 0 RTP infeas SOL 1 s 1 0 2 DER 0";
// Half of x can't be rounded.
const NOT_ROUNDABLE: &[u8] = b"VER 1.0 VAR 1 x INT 1 0 OBJ min 0 CON 1 0 a G 1 1 0 1/2
    RTP infeas SOL 0 DER 1 f G 1 0 { rnd 1 0 1 } -1";

// What is answered: none where it is verified.
fn refusal(rt: &impl Abort, alloc: Global, text: &[u8]) -> Option<Refusal> {
    let explained = explain_in(alloc, Profile::Two, Bytes::new(text));
    refusal_of(without_detail(explained.expect(rt, "a verdict")))
}

const ROWS: [(&[u8], u8, Place); 4] = [
    (HALF, 21, Place::Sol(0)),
    (LARGE_ROW, 23, Place::Sol(0)),
    (LARGE_OBJECTIVE, 23, Place::Sol(0)),
    (NOT_ROUNDABLE, 36, Place::Der(1)),
];

#[test]
fn each_kind_is_shown(rt: HostRuntime) {
    same(&rt, refusal(&rt, rt.alloc(), INFEASIBLE), None);
    for rows in [OTHERS.as_slice(), ROWS.as_slice()] {
        for (text, cause, place) in rows {
            same(&rt, refusal(&rt, rt.alloc(), text), at(*cause, *place));
        }
    }
}
