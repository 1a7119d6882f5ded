//! Whole texts: what is written for them, and what of it if a read or a write fails.
use super::{IGNORED, ROUNDED};
use crate::tests::check::{ABSURD, BRANCHES, BRANCHES_AND_MORE};
use crate::tests::same;
use std::alloc::{AllocError, Global};
use std::process::Abort;
use vipr_bytes::{Bytes, Failed, Sink, Source};
use vipr_check::{Place, Refusal, Verdict, check};
use vipr_rules::Profile;
use vipr_tighten::{Outcome, TightenFault, tighten, tighten_in};

// No bound is claimed.
const UNBOUNDED: &[u8] = b"VER 1.0
VAR 1
x
INT 0
OBJ min
1 0 1
CON 0 0
RTP range -inf inf
SOL 0
DER 0
";

// No bound is claimed, and a constraint is derived.
const NEEDLESS: &[u8] = b"VER 1.0 VAR 1 x INT 1 0 OBJ max 1 0 1 CON 1 0 a L 5/2 1 0 1
    RTP range -inf inf SOL 1 s 1 0 2 DER 1 d L 2 1 0 1 { rnd 1 0 1 } -1";

const NOTHING_DERIVED: &[u8] = b"VER 1.0
VAR 1
x
INT 1
0
OBJ max
1 0 1
CON 1 0
a L 5/2 1 0 1
RTP range -inf inf
SOL 1
s 1 0 2
DER 0
";

// A text that isn't canonical.
const LENIENT: &[u8] = b"%a VER\r\n  %b\n VER\t1.0\r\nVAR\t1\r\nx\r\n\
INT 2\r\n0 00\r\nOBJ max\r\n1 0 2/4\r\n\
CON 2 1\r\na L +5 OBJ\r\nb G -0/7 1 0 0\r\n\
RTP range -inf inf\r\nSOL 0\r\nDER 0";

const CANONICAL: &[u8] = b"VER 1.0
VAR 1
x
INT 1
0
OBJ max
1 0 1/2
CON 2 1
a L 5 1 0 1/2
b G 0 0
RTP range -inf inf
SOL 0
DER 0
";

// x >= 1/2 for a whole x that is to be small, and what nothing needs.
const WHOLE: &[u8] = b"VER 1.0 VAR 1 x INT 1 0 OBJ min 1 0 1 CON 1 0 a G 1/2 1 0 1
    RTP range 1 1 SOL 1 s 1 0 1 DER 1 d L 7 1 0 1 { asm } -1";

const WHOLE_ALONE: &[u8] = b"VER 1.0
VAR 1
x
INT 1
0
OBJ min
1 0 1
CON 1 0
a G 1/2 1 0 1
RTP range 1 1
SOL 1
s 1 0 1
DER 0
";

// Both branches of a split, with a last reference that is too small.
const DROPPED: &[u8] = b"VER 1.0 VAR 1 x INT 1 0 OBJ min 0 CON 2 0 a G 1 1 0 2 b L 1 1 0 2
    RTP infeas SOL 0 DER 5 c L 0 1 0 1 { asm } 6 d G 1 1 0 1 { asm } 6
    e G 1 0 { lin 2 0 1 2 -2 } 5 f G 1 0 { lin 2 3 2 1 -1 } 6 g G 1 0 { uns 4 2 5 3 } -1";

/// Gives one byte a read, and fails at a chosen read. It counts its reads.
#[derive(Drop)]
struct Single<'a> {
    left: &'a [u8],
    reads: usize,
    fails_at: usize,
}

impl Source for Single<'_> {
    ghost use Rattle.std.specs.Prelude.{None, length};

    ghost reads_left = { λ s. length s.left.now };

    ghost input = { λ _. None };

    fn read(&mut self, buf: &mut [u8]) -> Result<usize, Failed> {
        self.reads = self.reads.saturating_add(1);
        if self.reads == self.fails_at {
            return Err(Failed);
        }
        match self.left.split_first() {
            None => Ok(0),
            Some((first, rest)) => {
                buf[0] = *first;
                self.left = rest;
                Ok(1)
            }
        }
    }
}

/// Takes one byte a call. At a chosen call it fails, or takes none. It counts its calls.
#[derive(Drop)]
struct Slots {
    accepted: [u8; 512],
    calls: usize,
    stops_at: usize,
    fails: bool,
}

impl Slots {
    fn stopping_at(stops_at: usize, fails: bool) -> Slots {
        Slots {
            accepted: [0; 512],
            calls: 0,
            stops_at,
            fails,
        }
    }

    fn front(&self, len: usize) -> &[u8] {
        &self.accepted[..len.min(512)]
    }
}

impl Sink for Slots {
    ghost use Rattle.std.specs.Prelude.{None};

    ghost output = { λ _. None };

    ghost failures = { λ _. None };

    fn write(&mut self, bytes: &[u8]) -> Result<usize, Failed> {
        if self.calls >= 511 {
            return Err(Failed);
        }
        self.calls += 1;
        if self.calls == self.stops_at {
            return if self.fails { Err(Failed) } else { Ok(0) };
        }
        self.accepted[self.calls - 1] = bytes[0];
        Ok(1)
    }
}

// Nothing is written where a growth is refused.
fn holds_back(rt: &impl Abort, outcome: Result<Outcome, TightenFault>, is_written: bool) {
    if let Err(TightenFault::Memory { taken }) = outcome {
        assert!(rt; taken == 0 && !is_written, "it writes before it has room");
    }
}

/// Derivations kept and removed, and both peaks.
type Figures = (u32, u32, usize, usize);

fn tightened((kept, removed, peak_before, peak_after): Figures) -> Result<Outcome, TightenFault> {
    Ok(Outcome::Tightened {
        kept,
        removed,
        peak_before,
        peak_after,
    })
}

fn is_verified(rt: &impl Abort, alloc: Global, text: &[u8]) -> bool {
    let verdict = check(alloc, Bytes::new(text)).expect(rt, "a verdict");
    matches!(verdict, Verdict::Verified(_))
}

/// Checks what is written for a text, that it is a proof, and the figures.
fn becomes(rt: &impl Abort, alloc: Global, text: &[u8], wanted: &[u8], figures: Figures) {
    // the writer has its room before
    let mut written = Vec::with_capacity(alloc, wanted.len()).expect(rt, "room");
    let outcome = tighten(alloc, Bytes::new(text), &mut written);
    holds_back(rt, outcome, !written.is_empty());
    same(rt, outcome, tightened(figures));
    assert!(rt; written.as_slice() == wanted);
    assert!(rt; is_verified(rt, alloc, written.as_slice()));
    drop(written);
}

const BECOMES: [(&[u8], &[u8], Figures); 7] = [
    (IGNORED, ROUNDED, (1, 1, 2, 1)),
    (ROUNDED, ROUNDED, (1, 0, 1, 1)),
    (BRANCHES_AND_MORE, BRANCHES, (5, 1, 6, 4)),
    (ABSURD, ABSURD, (0, 0, 0, 0)),
    (UNBOUNDED, UNBOUNDED, (0, 0, 0, 0)),
    (NEEDLESS, NOTHING_DERIVED, (0, 1, 1, 0)),
    (LENIENT, CANONICAL, (0, 0, 0, 0)),
];

#[test]
fn what_the_goal_needs_is_written(rt: HostRuntime) {
    for (text, wanted, figures) in &BECOMES {
        becomes(&rt, rt.alloc(), text, wanted, *figures);
    }
}

fn refused(cause: u8, place: Place) -> Result<Outcome, TightenFault> {
    Ok(Outcome::Refused(Refusal { cause, place }))
}

fn tighten_to(alloc: Global, text: &[u8], slots: &mut Slots) -> Result<Outcome, TightenFault> {
    tighten(alloc, Bytes::new(text), slots)
}

#[test]
fn nothing_is_written_where_it_is_refused(rt: HostRuntime) {
    let mut slots = Slots::stopping_at(1, true);
    let outcome = tighten_to(rt.alloc(), DROPPED, &mut slots);
    same(&rt, slots.calls, 0);
    same(&rt, outcome, refused(32, Place::Der(6)));
}

/// So many calls were made, and these bytes were taken first.
fn took(rt: &impl Abort, slots: &Slots, calls: usize, front: &[u8]) {
    same(rt, slots.calls, calls);
    assert!(rt; slots.front(front.len()) == front);
}

fn tighten_by(
    alloc: Global,
    profile: Profile,
    text: &[u8],
    slots: &mut Slots,
) -> Result<Outcome, TightenFault> {
    tighten_in(alloc, profile, Bytes::new(text), slots)
}

/// The profile decides what is a proof, and so whether anything is written.
#[test]
fn profiles_tighten(rt: HostRuntime) {
    let mut slots = Slots::stopping_at(0, false);
    let outcome = tighten_by(rt.alloc(), Profile::One, WHOLE, &mut slots);
    same(&rt, slots.calls, 0);
    same(&rt, outcome, refused(51, Place::End));
    let outcome = tighten_by(rt.alloc(), Profile::Two, WHOLE, &mut slots);
    holds_back(&rt, outcome, slots.calls > 0);
    same(&rt, outcome, tightened((0, 1, 1, 0)));
    same(&rt, WHOLE_ALONE.len(), 94);
    took(&rt, &slots, WHOLE_ALONE.len(), WHOLE_ALONE);
}

/// A derivation that refers to one other, with its last reference.
fn link(alloc: Global, before: u32, last: i64) -> Result<String, AllocError> {
    format!(in alloc; "f G 1 1 0 1 {{ lin 1 {before} 1 }} {last}\n")
}

fn front(alloc: Global, length: u32) -> Result<String, AllocError> {
    format!(in alloc;
        "VER 1.0\nVAR 1\nx\nINT 0\nOBJ min\n0\nCON 2 0\n\
        a G 1 1 0 1\nb L 0 1 0 1\nRTP infeas\nSOL 0\nDER {length}\n"
    )
}

fn end(alloc: Global, length: u32) -> Result<String, AllocError> {
    format!(in alloc; "f G 1 0 {{ lin 2 {length} 1 1 -1 }} -1\n")
}

fn add(rt: &impl Abort, text: &mut String, line: Result<String, AllocError>) {
    let line = line.expect(rt, "a line");
    text.push_str(line.as_str()).expect(rt, "a text");
    drop(line);
}

/// A chain of derivations, each of which refers to the one before, with these last references.
fn chain(rt: &impl Abort, alloc: Global, length: u32, dropped: bool) -> String {
    let mut text = front(alloc, length).expect(rt, "a text");
    for place in 1..length {
        let before = if place == 1 { 0 } else { place };
        let last = if dropped {
            i64::from(place.saturating_add(2))
        } else {
            -1
        };
        add(rt, &mut text, link(alloc, before, last));
    }
    add(rt, &mut text, end(alloc, length));
    text
}

#[test]
fn last_references_are_set_in_a_chain(rt: HostRuntime) {
    let alloc = rt.alloc();
    let long = chain(&rt, alloc, 10000, false);
    let short = chain(&rt, alloc, 10000, true);
    let (text, wanted) = (long.as_str().as_bytes(), short.as_str().as_bytes());
    becomes(&rt, alloc, text, wanted, (10000, 0, 10000, 1));
    drop((long, short));
}

/// The call behind these bytes is the last.
fn stops_behind(rt: &impl Abort, alloc: Global, front: &[u8], fails: bool) {
    let calls = front.len() + 1;
    let fault = TightenFault::Write {
        taken: front.len() as u64,
    };
    let mut slots = Slots::stopping_at(calls, fails);
    let outcome = tighten_to(alloc, IGNORED, &mut slots);
    holds_back(rt, outcome, slots.calls > 0);
    same(rt, outcome, Err(fault));
    took(rt, &slots, calls, front);
}

/// The call that would be the last is not made.
fn takes_all(rt: &impl Abort, alloc: Global, fails: bool) {
    let mut slots = Slots::stopping_at(ROUNDED.len() + 1, fails);
    let outcome = tighten_to(alloc, IGNORED, &mut slots);
    holds_back(rt, outcome, slots.calls > 0);
    same(rt, outcome.err(), None);
    took(rt, &slots, ROUNDED.len(), ROUNDED);
}

#[test]
fn the_bytes_before_a_failed_write_were_accepted(rt: HostRuntime) {
    let bytes = ROUNDED.len();
    same(&rt, bytes, 123);
    for fails in [true, false] {
        for before in 0..bytes {
            let (front, _) = ROUNDED.split_at(before);
            stops_behind(&rt, rt.alloc(), front, fails);
        }
        takes_all(&rt, rt.alloc(), fails);
    }
}

fn writes_nothing(rt: &impl Abort, alloc: Global, fails_at: usize) {
    let mut slots = Slots::stopping_at(1, true);
    let source = Single {
        left: IGNORED,
        reads: 0,
        fails_at,
    };
    let outcome = tighten(alloc, source, &mut slots);
    same(rt, slots.calls, 0);
    same(rt, outcome, Err(TightenFault::Read));
}

#[test]
fn nothing_is_written_after_a_failed_read(rt: HostRuntime) {
    for fails_at in 1..=IGNORED.len() + 1 {
        writes_nothing(&rt, rt.alloc(), fails_at);
    }
}
