//! Certificates as texts, and what they become.
mod texts;

use super::check::{BRANCHES, BRANCHES_AND_MORE, SOLVED};
use super::spelled;
use super::write::is_written;
use std::alloc::Global;
use std::process::Abort;
use vipr_cert::Certificate;
use vipr_tighten::tighten_certificate;

// The solved one without the cutoff.
const UNDERIVED: &[u8] = b"VER 1.0
VAR 1
x
INT 0
OBJ min
1 0 1
CON 1 0
a G 3 1 0 1
RTP infeas
SOL 1
s 1 0 3
DER 0
";

// A cutoff that an entry with multiplier 0 names, and the goal.
pub(super) const IGNORED: &[u8] = b"VER 1.0 VAR 1 x INT 1 0 OBJ min 1 0 1 CON 1 0 a G 5 1 0 2
    RTP range 3 3 SOL 1 s 1 0 3
    DER 2 c L 3 1 0 1 { sol } -1 g G 3 1 0 1 { rnd 2 0 1/2 1 0 } -1";

// The goal alone.
pub(super) const ROUNDED: &[u8] = b"VER 1.0
VAR 1
x
INT 1
0
OBJ min
1 0 1
CON 1 0
a G 5 1 0 2
RTP range 3 3
SOL 1
s 1 0 3
DER 1
g G 3 1 0 1 { rnd 1 0 1/2 } -1
";

#[test]
fn a_cutoff_stays_for_itself_alone(rt: HostRuntime) {
    for (goal, wanted) in [(Some(0), UNDERIVED), (Some(1), SOLVED), (None, UNDERIVED)] {
        let certificate = tightened(&rt, rt.alloc(), SOLVED, goal);
        is_written(&rt, rt.alloc(), certificate, wanted);
    }
}

#[test]
fn entries_with_multiplier_0_go(rt: HostRuntime) {
    for (text, goal) in [(IGNORED, 2), (ROUNDED, 1)] {
        let certificate = tightened(&rt, rt.alloc(), text, Some(goal));
        is_written(&rt, rt.alloc(), certificate, ROUNDED);
    }
}

#[test]
fn indices_and_last_references_follow(rt: HostRuntime) {
    for (text, goal) in [(BRANCHES_AND_MORE, 7), (BRANCHES, 6)] {
        let certificate = tightened(&rt, rt.alloc(), text, Some(goal));
        is_written(&rt, rt.alloc(), certificate, BRANCHES);
    }
}

fn tightened(rt: &impl Abort, alloc: Global, text: &[u8], goal: Option<u32>) -> Certificate {
    let certificate = spelled(rt, alloc, text);
    let constraints = certificate.problem().cons().len() + certificate.derivations().len();
    assert!(rt; certificate.refers_back());
    let tightened = match goal {
        None => tighten_certificate(alloc, certificate, None),
        Some(index) => {
            assert!(rt; (index as usize) < constraints);
            tighten_certificate(alloc, certificate, Some(index))
        }
    };
    tightened.expect(rt, "a tightened one")
}
