ghost use Rattle.std.specs.Prelude.{◌<◌, length, Some};

mod checkers;
mod explained;
mod printed;
mod profiles;
mod spent;

use super::same;
use std::alloc::Global;
use std::cell::Cell;
use std::process::Abort;
use vipr_bytes::{Bytes, Failed, Source};
use vipr_cert::Problem;
use vipr_check::{
    Checker, Detail, Fault, Place, Refusal, Report, StepDetail, Stop, Verdict, check, check_with,
    explain,
};
use vipr_read::{CertReader, Derivations, Solutions};
use vipr_rules::{KeepAll, LiveOnly, Rows};
use vipr_scan::TextError;

// x >= 1 and x <= 0.
pub(super) const INFEASIBLE: &[u8] =
    b"VER 1.0\nVAR 1\nx\nINT 0\nOBJ min\n0\nCON 2 0\na G 1 1 0 1\nb L 0 1 0 1\nRTP infeas\nSOL 0\nDER 1\nf G 1 0 { lin 2 0 1 1 -1 } -1\n";
// The second section has another word.
const MISSPELLED: &[u8] =
    b"VER 1.0\nVAX 1\nx\nINT 0\nOBJ min\n0\nCON 2 0\na G 1 1 0 1\nb L 0 1 0 1\nRTP infeas\nSOL 0\nDER 1\nf G 1 0 { lin 2 0 1 1 -1 } -1\n";
// A brace stands at the reason.
const GLUED: &[u8] =
    b"VER 1.0\nVAR 1\nx\nINT 0\nOBJ min\n0\nCON 2 0\na G 1 1 0 1\nb L 0 1 0 1\nRTP infeas\nSOL 0\nDER 1\nf G 1 0 {lin 2 0 1 1 -1 } -1\n";
// 0 >= 1, without variables.
pub(super) const ABSURD: &[u8] =
    b"VER 1.0\nVAR 0\nINT 0\nOBJ min\n0\nCON 1 0\na G 1 0\nRTP infeas\nSOL 0\nDER 0\n";
// The multiplier of b has the wrong sign. The name is too long for a clone without memory.
const MIXED: &[u8] =
    b"VER 1.0\nVAR 1\nx\nINT 0\nOBJ min\n0\nCON 2 0\na G 1 1 0 1\nb L 0 1 0 1\nRTP infeas\nSOL 0\nDER 1\na_name_of_more_than_forty_bytes_takes_memory G 1 0 { lin 2 0 1 1 1 } -1\n";
// The same with a short name, and something behind the last derivation.
const MIXED_AND_MORE: &[u8] =
    b"VER 1.0\nVAR 1\nx\nINT 0\nOBJ min\n0\nCON 2 0\na G 1 1 0 1\nb L 0 1 0 1\nRTP infeas\nSOL 0\nDER 1\nf G 1 0 { lin 2 0 1 1 1 } -1\n x";
// The derivation refers to itself.
const LATE: &[u8] =
    b"VER 1.0\nVAR 1\nx\nINT 0\nOBJ min\n0\nCON 2 0\na G 1 1 0 1\nb L 0 1 0 1\nRTP infeas\nSOL 0\nDER 1\nf G 1 0 { lin 2 0 1 2 -1 } -1\n";
// The sum is x >= 2, and 0 >= 1 is stated.
const UNDOMINATED: &[u8] =
    b"VER 1.0\nVAR 1\nx\nINT 0\nOBJ min\n0\nCON 2 0\na G 1 1 0 1\nb L 0 1 0 1\nRTP infeas\nSOL 0\nDER 1\nf G 1 0 { lin 1 0 2 } -1\n";
// 2^126 times 2 is past the bound.
const OVERFLOWING: &[u8] =
    b"VER 1.0\nVAR 1\nx\nINT 0\nOBJ min\n0\nCON 1 0\na G 1 1 0 85070591730234615865843651857942052864\nRTP infeas\nSOL 0\nDER 1\nf G 2 0 { lin 1 0 2 } -1\n";
// Nothing is derived.
const UNPROVED: &[u8] =
    b"VER 1.0\nVAR 1\nx\nINT 0\nOBJ min\n0\nCON 2 0\na G 1 1 0 1\nb L 0 1 0 1\nRTP infeas\nSOL 0\nDER 0\n";

const TRAILING: &[u8] =
    b"VER 1.0\nVAR 0\nINT 0\nOBJ min\n0\nCON 1 0\na G 1 0\nRTP infeas\nSOL 0\nDER 0\nx";

const BOUNDED: &[u8] = b"VER 1.0 VAR 0 INT 0 OBJ min 0 CON 0 0 RTP range 0 inf SOL 0 DER 0";

// No solution is listed, and one is claimed.
const UNMET: &[u8] = b"VER 1.0 VAR 0 INT 0 OBJ min 0 CON 0 0 RTP range -inf 0 SOL 0 DER 0";

const LISTED: &[u8] = b"VER 1.0 VAR 0 INT 0 OBJ min 0 CON 0 0 RTP infeas SOL 1 s 0 DER 0";

// x >= 3, the solution 3, and the cutoff there.
pub(super) const SOLVED: &[u8] =
    b"VER 1.0\nVAR 1\nx\nINT 0\nOBJ min\n1 0 1\nCON 1 0\na G 3 1 0 1\nRTP infeas\nSOL 1\ns 1 0 3\nDER 1\nc L 3 1 0 1 { sol } -1\n";

// x >= 3, and 2 as solution, with such a name.
const UNSOLVED: &[u8] =
    b"VER 1.0\nVAR 1\nx\nINT 0\nOBJ min\n1 0 1\nCON 1 0\na G 3 1 0 1\nRTP infeas\nSOL 1\na_name_of_more_than_forty_bytes_takes_memory 1 0 2\nDER 1\nc L 3 1 0 1 { sol } -1\n";

const ASSUMED: &[u8] =
    b"VER 1.0 VAR 0 INT 0 OBJ min 0 CON 0 0 RTP infeas SOL 0 DER 1 f G 1 0 { asm } -1";

const CUT_OFF: &[u8] =
    b"VER 1.0 VAR 0 INT 0 OBJ min 0 CON 0 0 RTP infeas SOL 0 DER 1 f G 1 0 { sol } -1";

// Both branches of a split: four derived constraints are held at most.
pub(super) const BRANCHES: &[u8] =
    b"VER 1.0\nVAR 1\nx\nINT 1\n0\nOBJ min\n0\nCON 2 0\na G 1 1 0 2\nb L 1 1 0 2\nRTP infeas\nSOL 0\nDER 5\nc L 0 1 0 1 { asm } 6\nd G 1 1 0 1 { asm } 6\ne G 1 0 { lin 2 0 1 2 -2 } 6\nf G 1 0 { lin 2 3 2 1 -1 } 6\ng G 1 0 { uns 4 2 5 3 } -1\n";

// The same with an unused assumption in front, and nothing is ever dropped.
pub(super) const BRANCHES_AND_MORE: &[u8] =
    b"VER 1.0\nVAR 1\nx\nINT 1\n0\nOBJ min\n0\nCON 2 0\na G 1 1 0 2\nb L 1 1 0 2\nRTP infeas\nSOL 0\nDER 6\nz L 5 1 0 1 { asm } -1\nc L 0 1 0 1 { asm } -1\nd G 1 1 0 1 { asm } -1\ne G 1 0 { lin 2 0 1 3 -2 } -1\nf G 1 0 { lin 2 4 2 1 -1 } -1\ng G 1 0 { uns 5 3 6 4 } -1\n";

fn report_of(verdict: Verdict) -> Option<Report> {
    match verdict {
        Verdict::Verified(report) => Some(report),
        Verdict::Refused(_) => None,
    }
}

fn refusal_of(verdict: Verdict) -> Option<Refusal> {
    match verdict {
        Verdict::Verified(_) => None,
        Verdict::Refused(refusal) => Some(refusal),
    }
}

/// What is answered: `None` if the certificate is verified.
fn answered<R: Source + Drop>(alloc: Global, source: R) -> Result<Option<Refusal>, Fault> {
    match check(alloc, source) {
        Ok(verdict) => Ok(refusal_of(verdict)),
        Err(fault) => Err(fault),
    }
}

/// The peak of a proof, and its goal.
fn reported<S: Rows>(rt: &impl Abort, alloc: Global, text: &[u8]) -> (usize, Option<u32>) {
    let verdict = check_with::<Bytes, S>(alloc, Bytes::new(text)).expect(rt, "a verdict");
    let report = report_of(verdict).expect(rt, "a proof");
    (report.peak, report.goal)
}

/// The solutions of a proof, what is derived, the peak, and the goal.
fn figures(rt: &impl Abort, alloc: Global, text: &[u8]) -> ((u32, u32, usize), Option<u32>) {
    let verdict = check(alloc, Bytes::new(text)).expect(rt, "a verdict");
    let report = report_of(verdict).expect(rt, "a proof");
    let counts = (report.solutions, report.derived, report.peak);
    (counts, report.goal)
}

fn at(cause: u8, place: Place) -> Option<Refusal> {
    Some(Refusal { cause, place })
}

#[test]
fn proofs_are_verified(rt: HostRuntime) {
    for (text, derived, peak, goal) in [(INFEASIBLE, 1, 1, 2), (ABSURD, 0, 0, 0)] {
        let found = figures(&rt, rt.alloc(), text);
        same(&rt, found, ((0, derived, peak), Some(goal)));
    }
}

#[test]
fn any_table_serves(rt: HostRuntime) {
    let found = reported::<KeepAll>(&rt, rt.alloc(), INFEASIBLE);
    same(&rt, found, (1, Some(2)));
}

#[test]
fn both_tables_have_the_same_peak(rt: HostRuntime) {
    for (text, peak) in [(BRANCHES, 4), (BRANCHES_AND_MORE, 6)] {
        same(&rt, reported::<KeepAll>(&rt, rt.alloc(), text).0, peak);
        same(&rt, reported::<LiveOnly>(&rt, rt.alloc(), text).0, peak);
    }
}

/// What a detail shows.
enum Shown {
    Nothing,
    /// A derivation with this name, and this entry of its sum.
    Entry(&'static [u8], u32),
    /// A constraint with this name, and the numerators of both sides.
    Broken(&'static [u8], i128, i128),
    /// No proof, as nothing is derived.
    NoProof,
}

fn is_shown(detail: &Detail, wanted: &Shown) -> bool {
    match (detail, wanted) {
        (Detail::None, Shown::Nothing) | (Detail::NoProof(None), Shown::NoProof) => true,
        (
            Detail::Step {
                name,
                what: StepDetail::Entry(entry),
            },
            Shown::Entry(its, place),
        ) => name.as_bytes() == *its && entry == place,
        (
            Detail::Breaks {
                name,
                left,
                right,
                ..
            },
            Shown::Broken(its, p, q),
        ) => name.as_bytes() == *its && left.numer() == *p && right.numer() == *q,
        _ => false,
    }
}

fn explanation(rt: &impl Abort, alloc: Global, text: &[u8]) -> (Verdict, Detail) {
    explain(alloc, Bytes::new(text)).expect(rt, "a verdict")
}

fn shows(rt: &impl Abort, alloc: Global, text: &[u8], wanted: &Shown) -> bool {
    let (_, detail) = explanation(rt, alloc, text);
    let shown = is_shown(&detail, wanted);
    drop(detail);
    shown
}

fn without_detail((verdict, detail): (Verdict, Detail)) -> Verdict {
    drop(detail);
    verdict
}

// The goal of a proof, beside its detail.
fn explained_goal(rt: &impl Abort, alloc: Global, text: &[u8]) -> Option<u32> {
    let verdict = without_detail(explanation(rt, alloc, text));
    report_of(verdict).expect(rt, "a proof").goal
}

const DETAILS: [(&[u8], Shown); 5] = [
    (INFEASIBLE, Shown::Nothing),
    (MISSPELLED, Shown::Nothing),
    (
        MIXED,
        Shown::Entry(b"a_name_of_more_than_forty_bytes_takes_memory", 1),
    ),
    (UNSOLVED, Shown::Broken(b"a", 2, 3)),
    (UNPROVED, Shown::NoProof),
];

/// The detail is that of the first test that fails, and a proof has none.
#[test]
fn refusals_are_explained(rt: HostRuntime) {
    same(&rt, explained_goal(&rt, rt.alloc(), INFEASIBLE), Some(2));
    for (text, wanted) in &DETAILS {
        assert!(rt; shows(&rt, rt.alloc(), text, wanted));
    }
}

pub(super) fn problem_of(rt: &impl Abort, alloc: Global, text: &[u8]) -> Problem {
    let reader = CertReader::new(alloc, Bytes::new(text)).expect(rt, "a reader");
    let (problem, solutions) = reader.read_problem(alloc).expect(rt, "a problem");
    drop(solutions);
    problem
}

fn refuses_thrice(rt: &impl Abort, checker: &mut Checker<LiveOnly>) {
    let place = Place::End;
    let refusal = Stop::Refused(Refusal { cause: 52, place });
    for _ in 0..3 {
        assert!(rt; checker.in_solutions());
        same(rt, checker.end_solutions(), Err(refusal));
    }
}

/// A stop leaves the phase, and every call after it answers the same.
#[test]
fn a_refusal_is_answered_again(rt: HostRuntime) {
    let problem = problem_of(&rt, rt.alloc(), UNMET);
    let checker = Checker::new(rt.alloc(), problem);
    let mut checker: Checker<LiveOnly> = checker.expect(&rt, "a checker");
    refuses_thrice(&rt, &mut checker);
    drop(checker);
}

const OTHERS: [(&[u8], u8, Place); 13] = [
    (b"", 1, Place::Byte(0)),
    (TRAILING, 18, Place::Byte(69)),
    (LATE, 31, Place::Der(2)),
    (MIXED, 34, Place::Der(2)),
    (OVERFLOWING, 35, Place::Der(1)),
    (UNDOMINATED, 38, Place::Der(2)),
    (UNPROVED, 51, Place::End),
    (BOUNDED, 51, Place::End),
    (LISTED, 51, Place::End),
    (UNMET, 52, Place::End),
    (UNSOLVED, 22, Place::Sol(0)),
    (CUT_OFF, 39, Place::Der(0)),
    // what is assumed is no goal
    (ASSUMED, 51, Place::End),
];

#[test]
fn others_are_refused(rt: HostRuntime) {
    for (text, cause, place) in &OTHERS {
        let answer = answered(rt.alloc(), Bytes::new(text));
        same(&rt, answer, Ok(at(*cause, *place)));
    }
}

/// Gives its bytes in pieces, then the end or a failure, and counts the reads.
#[derive(Drop)]
struct Counting<'a> {
    left: &'a [u8],
    piece: usize,
    fails: bool,
    reads: &'a Cell<usize>,
    ghost some: { 0 < piece },
}

/// Gives its bytes one by one, and then the end.
fn by_bytes<'a>(left: &'a [u8], reads: &'a Cell<usize>) -> Counting<'a> {
    Counting {
        left,
        piece: 1,
        fails: false,
        reads,
    }
}

impl Source for Counting<'_> {
    ghost reads_left = { λ c. length c.left.now };

    ghost input = { λ c. Some (record { bytes = c.left.now; fails = c.fails }) };

    fn read(&mut self, buf: &mut [u8]) -> Result<usize, Failed> {
        self.reads.set(self.reads.get().saturating_add(1));
        if self.fails && self.left.is_empty() {
            return Err(Failed);
        }
        let n = self.left.len().min(self.piece).min(buf.len());
        let (front, rest) = self.left.split_at(n);
        buf[..n].copy_from_slice(front);
        self.left = rest;
        Ok(n)
    }
}

/// Checks the answer and the number of reads if `given` comes in pieces, and then the end or a failure.
///
/// The answer needs `needed` bytes, one more than there are if it needs their end.
fn reads_what_it_needs<H: Abort + AllocGlobal>(
    rt: &H,
    given: &[u8],
    fails: bool,
    piece: usize,
    needed: usize,
    wanted: Option<Refusal>,
)
    requires { 0 < piece }
{
    let reads = Cell::new(0);
    let source = Counting {
        left: given,
        piece,
        fails,
        reads: &reads,
    };
    let answer = answered(rt.alloc(), source);
    let len = given.len();
    let pieces = len.min(needed).div_ceil(piece);
    let whole = len >= needed;
    let wanted = if fails && !whole {
        Err(Fault::Read)
    } else {
        Ok(wanted)
    };
    let calls = if whole {
        pieces
    } else {
        pieces.saturating_add(1)
    };
    let case = (len, piece);
    same(rt, (case, answer, reads.get()), (case, wanted, calls));
}

/// Tries each beginning before a failure, and for the whole before its end.
fn reads_by_pieces<H: Abort + AllocGlobal>(
    rt: &H,
    text: &[u8],
    piece: usize,
    needed: usize,
    wanted: Option<Refusal>,
)
    requires { 0 < piece }
{
    for given in 0..=text.len() {
        let (front, _) = text.split_at(given);
        reads_what_it_needs(rt, front, true, piece, needed, wanted);
    }
    reads_what_it_needs(rt, text, false, piece, needed, wanted);
}

/// A read is made only if the bytes at hand don't decide, and none after a failure or the end.
#[test]
fn reads_are_made_as_they_are_needed(rt: HostRuntime) {
    let rows = [
        (INFEASIBLE, 118, None),
        (MISSPELLED, 12, at(2, Place::Byte(8))),
        (GLUED, 100, at(15, Place::Byte(95))),
        (BOUNDED, 66, at(51, Place::End)),
        (UNMET, 61, at(52, Place::End)),
        (UNSOLVED, 124, at(22, Place::Sol(0))),
        (LATE, 117, at(31, Place::Der(2))),
        (MIXED_AND_MORE, 116, at(34, Place::Der(2))),
        (UNPROVED, 88, at(51, Place::End)),
        (TRAILING, 71, at(18, Place::Byte(69))),
    ];
    for (text, needed, wanted) in rows {
        for piece in 1..8 {
            reads_by_pieces(&rt, text, piece, needed, wanted);
        }
    }
}

/// No more than 65,536 bytes of a name are read before it is known to be too long: with the 14 bytes in front, 1311
/// pieces of 50.
#[test]
fn long_names_are_read_as_they_are_needed(rt: HostRuntime) {
    for (more, needed, wanted) in [
        (65534, 65534 + 117 + 1, None),
        (65535, 65536 + 14, at(17, Place::Byte(14))),
        (65540, 65536 + 14, at(17, Place::Byte(14))),
    ] {
        let text = with_long_name(&rt, rt.alloc(), more);
        reads_what_it_needs(&rt, text.as_slice(), false, 50, needed, wanted);
        drop(text);
    }
}

// A certificate whose variable has so many bytes more in its name.
fn with_long_name(rt: &impl Abort, alloc: Global, more: u32) -> Vec<u8> {
    let (front, behind) = INFEASIBLE.split_at_checked(14).expect(rt, "14 bytes");
    let mut text = front.to_vec(alloc).expect(rt, "a text");
    text.resize(14 + more as usize, b'x').expect(rt, "a name");
    text.extend_from_slice(behind).expect(rt, "its end");
    text
}

fn is_given<T: Drop>(item: Option<T>) -> bool {
    let is_given = item.is_some();
    drop(item);
    is_given
}

// The only solution is read, and then nothing.
fn stops_behind_solutions(
    rt: &impl Abort,
    alloc: Global,
    reads: &Cell<usize>,
    solutions: &mut Solutions<Counting<'_>>,
) {
    for wanted in [true, false] {
        let next = solutions.next(alloc).expect(rt, "an answer");
        same(rt, (is_given(next), reads.get()), (wanted, 81));
    }
}

// The only derivation is read, and then the end, once.
fn stops_behind_derivations(
    rt: &impl Abort,
    alloc: Global,
    reads: &Cell<usize>,
    derivations: &mut Derivations<Counting<'_>>,
) {
    for wanted in [(true, 110), (false, 111), (false, 111)] {
        let next = derivations.next(alloc).expect(rt, "an answer");
        same(rt, (is_given(next), reads.get()), wanted);
    }
}

// The solutions behind the problem, at which nothing is read before it is asked for.
fn behind_problem<'a>(
    rt: &impl Abort,
    alloc: Global,
    source: Counting<'a>,
    reads: &Cell<usize>,
) -> Solutions<Counting<'a>> {
    let reader = CertReader::new(alloc, source).expect(rt, "a reader");
    same(rt, reads.get(), 0);
    let (problem, solutions) = reader.read_problem(alloc).expect(rt, "a problem");
    drop(problem);
    solutions
}

/// Each reader stops behind its item, and the last one at the end.
#[test]
fn readers_stop_behind_their_items(rt: HostRuntime) {
    let alloc = rt.alloc();
    let reads = Cell::new(0);
    let mut solutions = behind_problem(&rt, alloc, by_bytes(SOLVED, &reads), &reads);
    same(&rt, reads.get(), 73);
    stops_behind_solutions(&rt, alloc, &reads, &mut solutions);
    assert!(rt; solutions.left() == 0);
    let mut derivations = solutions.finish().expect(&rt, "their end");
    same(&rt, reads.get(), 87);
    stops_behind_derivations(&rt, alloc, &reads, &mut derivations);
    drop(derivations);
}

// The source fails in the only solution.
fn fails_in_solutions(rt: &impl Abort, alloc: Global, solutions: &mut Solutions<Counting<'_>>) {
    same(rt, solutions.next(alloc).err(), Some(TextError::Read));
    same(rt, solutions.next(alloc).err(), Some(TextError::Spent));
    same(rt, solutions.left(), 1);
}

fn fails_in_derivations(
    rt: &impl Abort,
    alloc: Global,
    mut derivations: Derivations<Counting<'_>>,
) {
    same(rt, derivations.next(alloc).err(), Some(TextError::Read));
    same(rt, derivations.next(alloc).err(), Some(TextError::Spent));
    drop(derivations);
}

// The source fails behind the only solution: where the derivations begin, or among them.
fn fails_behind_solutions(
    rt: &impl Abort,
    alloc: Global,
    mut solutions: Solutions<Counting<'_>>,
    given: usize,
) {
    let solution = solutions.next(alloc).expect(rt, "an answer");
    assert!(rt; is_given(solution));
    assert!(rt; solutions.left() == 0);
    match solutions.finish() {
        Ok(derivations) => fails_in_derivations(rt, alloc, derivations),
        Err(error) => same(rt, (error, given < 87), (TextError::Read, true)),
    }
}

fn fails_after<H: Abort + AllocGlobal>(rt: &H, left: &[u8], reads: &Cell<usize>) {
    let alloc = rt.alloc();
    let source = Counting {
        left,
        piece: 1,
        fails: true,
        reads,
    };
    let mut solutions = behind_problem(rt, alloc, source, reads);
    if left.len() < 81 {
        fails_in_solutions(rt, alloc, &mut solutions);
    } else {
        fails_behind_solutions(rt, alloc, solutions, left.len());
    }
}

/// A reader whose source failed reads no more.
#[test]
fn readers_stop_at_a_failure(rt: HostRuntime) {
    for given in 73..SOLVED.len() {
        let reads = Cell::new(0);
        let (left, _) = SOLVED.split_at(given);
        fails_after(&rt, left, &reads);
        same(&rt, reads.get(), given + 1);
    }
}

// What is answered to a beginning of a proof, a byte at a time and at once.
fn answer_to(rt: &impl Abort, alloc: Global, beginning: &[u8]) -> Result<Option<Refusal>, Fault> {
    let reads = Cell::new(0);
    let answer = answered(alloc, by_bytes(beginning, &reads));
    same(rt, answered(alloc, Bytes::new(beginning)), answer);
    answer
}

// The cause, 0 where it is verified, which stands at the end of the beginning where that is missing.
fn cause_of(rt: &impl Abort, alloc: Global, beginning: &[u8]) -> u8 {
    let len = beginning.len();
    let answer = answer_to(rt, alloc, beginning);
    let cause = match answer {
        Ok(Some(refusal)) => refusal.cause,
        Ok(None) | Err(_) => 0,
    };
    match cause {
        0 => same(rt, (answer, len), (Ok(None), 116)),
        1 => same(rt, answer, Ok(at(1, Place::Byte(len as u64)))),
        _ => {}
    }
    cause
}

/// How many of a certificate's beginnings have each cause, 0 standing for those that are verified.
#[test]
fn beginnings_are_refused(rt: HostRuntime) {
    let mut counts = [0u8; 256];
    for len in 0..INFEASIBLE.len() {
        let (beginning, _) = INFEASIBLE.split_at(len);
        let cause = cause_of(&rt, rt.alloc(), beginning) as usize;
        counts[cause] = counts[cause].saturating_add(1);
    }
    for (cause, wanted) in [
        (0, 1),
        (1, 87),
        (2, 16),
        (3, 2),
        (4, 1),
        (12, 2),
        (13, 5),
        (14, 2),
        (16, 1),
    ] {
        same(&rt, (cause, counts[cause as usize]), (cause, wanted));
    }
}
