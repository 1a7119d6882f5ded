//! A checker that is refused a growth: it answers that once, and is spent then.
//!
//! A run by itself has room. `tests/growths.py` refuses each growth, and asks that each of these
//! tests has a run that ends at such a checker.

use super::checkers::{derivation, end_solutions, finish, refused};
use super::{BRANCHES, MIXED, SOLVED, UNDOMINATED};
use crate::tests::{same, spelled};
use std::alloc::Global;
use std::process::Abort;
use vipr_cert::{Derivation, Named, Problem};
use vipr_check::{Checker, Place, Stop};
use vipr_linear::Solution;
use vipr_rules::{KeepAll, LiveOnly, Rows};

// 2 x >= 5 for a whole x, rounded.
const ROUNDED: &[u8] = b"VER 1.0 VAR 1 x INT 1 0 OBJ min 1 0 1 CON 1 0 a G 5 1 0 2
    RTP range 3 inf SOL 0 DER 1 g G 3 1 0 1 { rnd 1 0 1/2 } -1";

// The solution is refused, and its name is longer than those that lie in place.
const LONG_NAME: &[u8] = b"VER 1.0 VAR 1 x INT 0 OBJ min 1 0 1 CON 1 0 a G 3 1 0 1 RTP infeas
    SOL 1 a_solution_with_a_name_of_many_bytes 1 0 2 DER 1 c L 3 1 0 1 { sol } -1";

// What is told of a checker that was refused a growth, by its answers since.
fn spent(rt: &impl Abort, since: [Result<(), Stop>; 2]) {
    let spent = Err(Stop::Spent);
    assert!(rt;
        since == [spent, spent],
        "it goes on after a refused growth"
    );
    panic!(rt; "Memory, then Spent")
}

// What is answered to a solution, and since where that is want of memory.
fn answer<S: Rows>(
    rt: &impl Abort,
    alloc: Global,
    problem: Problem,
    solution: &Named<Solution>,
) -> Result<(), Stop> {
    let checker = Checker::new(alloc, problem);
    let mut checker: Checker<S> = checker.expect(rt, "a checker");
    let answer = checker.solution(solution);
    if answer == Err(Stop::Memory) {
        let again = checker.solution(solution);
        spent(rt, [again, end_solutions(&mut checker)]);
    }
    drop(checker);
    answer
}

// The solution is refused, so its name is kept, which takes memory.
fn of_solution<S: Rows>(rt: &impl Abort, alloc: Global) {
    let (problem, solutions, steps) = spelled(rt, alloc, LONG_NAME).into_parts();
    drop(steps);
    let solution = solutions.first().expect(rt, "a solution");
    let answer = answer::<S>(rt, alloc, problem, solution);
    same(rt, answer, refused(22, Place::Sol(0)));
    drop(solutions);
}

#[test]
fn spent_at_a_solution_over_live_rows(rt: HostRuntime) {
    of_solution::<LiveOnly>(&rt, rt.alloc());
}

#[test]
fn spent_at_a_solution_over_all_rows(rt: HostRuntime) {
    of_solution::<KeepAll>(&rt, rt.alloc());
}

// A checker behind the only solution, if there is one.
fn behind_solutions<S: Rows>(
    rt: &impl Abort,
    alloc: Global,
    problem: Problem,
    solutions: &[Named<Solution>],
) -> Checker<S> {
    let checker = Checker::new(alloc, problem);
    let mut checker: Checker<S> = checker.expect(rt, "a checker");
    if let Some(solution) = solutions.first() {
        checker.solution(solution).expect(rt, "a solution");
    }
    end_solutions(&mut checker).expect(rt, "their end");
    checker
}

// A derivation more, after which the checker goes on.
fn accepted<S: Rows>(rt: &impl Abort, alloc: Global, checker: &mut Checker<S>, step: &Derivation) {
    if derivation(alloc, checker, step) == Err(Stop::Memory) {
        let again = derivation(alloc, checker, step);
        spent(rt, [again, finish(checker)]);
    }
}

// What is answered behind these derivations.
fn behind_derivations<S: Rows>(
    rt: &impl Abort,
    alloc: Global,
    checker: &mut Checker<S>,
    steps: &[Derivation],
) -> Result<(), Stop> {
    for step in steps {
        accepted(rt, alloc, checker, step);
    }
    finish(checker)
}

// What is answered at the end of a certificate in parts.
fn at_its_end<S: Rows>(
    rt: &impl Abort,
    alloc: Global,
    problem: Problem,
    solutions: &[Named<Solution>],
    steps: &[Derivation],
) -> Result<(), Stop> {
    let mut checker: Checker<S> = behind_solutions(rt, alloc, problem, solutions);
    let answer = behind_derivations(rt, alloc, &mut checker, steps);
    drop(checker);
    answer
}

// What is answered at the end of a text.
fn at_the_end<S: Rows>(rt: &impl Abort, alloc: Global, text: &[u8]) -> Result<(), Stop> {
    let (problem, solutions, steps) = spelled(rt, alloc, text).into_parts();
    let answer = at_its_end::<S>(rt, alloc, problem, solutions.as_slice(), steps.as_slice());
    drop((solutions, steps));
    answer
}

// Each kind of reason, and refusals that keep a name and constraints.
fn of_derivations<S: Rows>(rt: &impl Abort, alloc: Global) {
    for (text, wanted) in [
        (BRANCHES, Ok(())),
        (ROUNDED, Ok(())),
        (SOLVED, refused(51, Place::End)),
        (MIXED, refused(34, Place::Der(2))),
        (UNDOMINATED, refused(38, Place::Der(2))),
    ] {
        same(rt, at_the_end::<S>(rt, alloc, text), wanted);
    }
}

#[test]
fn spent_at_a_derivation_over_live_rows(rt: HostRuntime) {
    of_derivations::<LiveOnly>(&rt, rt.alloc());
}

#[test]
fn spent_at_a_derivation_over_all_rows(rt: HostRuntime) {
    of_derivations::<KeepAll>(&rt, rt.alloc());
}
