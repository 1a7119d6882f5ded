//! A checker between its calls: how many constraints it holds, and what it answers after a refusal.

use super::{BRANCHES, BRANCHES_AND_MORE, MIXED, UNPROVED, UNSOLVED};
use crate::tests::{same, spelled};
use std::alloc::Global;
use std::process::Abort;
use vipr_cert::{Derivation, Named, Problem};
use vipr_check::{Checker, Place, Refusal, Stop};
use vipr_linear::Solution;
use vipr_rules::{KeepAll, LiveOnly, Rows};

// The calls behind the solutions, each made where it may be, and else without a refusal.

pub(super) fn end_solutions<S: Rows>(checker: &mut Checker<S>) -> Result<(), Stop> {
    if checker.in_solutions() {
        checker.end_solutions()
    } else {
        Ok(())
    }
}

pub(super) fn derivation<S: Rows>(
    alloc: Global,
    checker: &mut Checker<S>,
    step: &Derivation,
) -> Result<(), Stop> {
    let variables = checker.problem().names().len() as u32;
    let is_below = step.constraint.row.names_below(variables);
    if is_below && checker.next() < u32::MAX && !checker.in_solutions() {
        checker.derivation(alloc, step)
    } else {
        Ok(())
    }
}

pub(super) fn finish<S: Rows>(checker: &mut Checker<S>) -> Result<(), Stop> {
    if checker.in_solutions() {
        return Ok(());
    }
    match checker.finish() {
        Ok(_) => Ok(()),
        Err(stop) => Err(stop),
    }
}

/// What each derivation and then the end are answered, and how many constraints are held behind each.
type Wanted<'a> = (Result<(), Stop>, &'a [usize]);

// Each derivation and then the end are answered so.
fn answers<S: Rows>(
    rt: &impl Abort,
    alloc: Global,
    checker: &mut Checker<S>,
    derivations: &[Derivation],
    (wanted, held): Wanted<'_>,
) {
    let mut held = held.iter();
    for step in derivations {
        same(rt, derivation(alloc, checker, step), wanted);
        same(rt, Some(&checker.held()), held.next());
    }
    same(rt, finish(checker), wanted);
    same(rt, Some(&checker.held()), held.next());
    assert!(rt; held.next().is_none());
}

fn answers_again<S: Rows>(
    rt: &impl Abort,
    alloc: Global,
    checker: &mut Checker<S>,
    derivations: &[Derivation],
    times: u32,
    wanted: Wanted<'_>,
) {
    let _ = end_solutions(checker);
    for _ in 0..times {
        answers(rt, alloc, checker, derivations, wanted);
    }
}

// All that is derived is answered so, each time that it is asked.
fn answers_behind<S: Rows>(
    rt: &impl Abort,
    alloc: Global,
    problem: Problem,
    derivations: &[Derivation],
    times: u32,
    wanted: Wanted<'_>,
) {
    let checker = Checker::new(alloc, problem);
    let mut checker: Checker<S> = checker.expect(rt, "a checker");
    answers_again(rt, alloc, &mut checker, derivations, times, wanted);
    drop(checker);
}

// The same for a certificate that lists no solution.
fn answers_to<S: Rows>(
    rt: &impl Abort,
    alloc: Global,
    text: &[u8],
    times: u32,
    wanted: Wanted<'_>,
) {
    let (problem, solutions, steps) = spelled(rt, alloc, text).into_parts();
    drop(solutions);
    answers_behind::<S>(rt, alloc, problem, steps.as_slice(), times, wanted);
    drop(steps);
}

fn holds<S: Rows>(rt: &impl Abort, alloc: Global) {
    answers_to::<S>(rt, alloc, BRANCHES, 1, (Ok(()), &[1, 2, 3, 4, 3, 3]));
    let held = (Ok(()), [1, 2, 3, 4, 5, 6, 6].as_slice());
    answers_to::<S>(rt, alloc, BRANCHES_AND_MORE, 1, held);
}

/// The assumptions stay to the end, and any table says how many are not forgotten.
#[test]
fn what_may_be_referred_to_is_held(rt: HostRuntime) {
    holds::<LiveOnly>(&rt, rt.alloc());
    holds::<KeepAll>(&rt, rt.alloc());
}

pub(super) fn refused(cause: u8, place: Place) -> Result<(), Stop> {
    Err(Stop::Refused(Refusal { cause, place }))
}

#[test]
fn refusals_are_answered_again(rt: HostRuntime) {
    let alloc = rt.alloc();
    let derived = refused(34, Place::Der(2));
    answers_to::<LiveOnly>(&rt, alloc, MIXED, 3, (derived, &[0, 0]));
    let ended = refused(51, Place::End);
    answers_to::<LiveOnly>(&rt, alloc, UNPROVED, 3, (ended, &[0]));
}

// A solution and twice their end.
fn answers_to_solution(
    rt: &impl Abort,
    alloc: Global,
    problem: Problem,
    solution: &Named<Solution>,
) -> [Result<(), Stop>; 3] {
    let checker = Checker::new(alloc, problem);
    let mut checker: Checker<LiveOnly> = checker.expect(rt, "a checker");
    let first = checker.solution(solution);
    let second = end_solutions(&mut checker);
    let third = end_solutions(&mut checker);
    drop(checker);
    [first, second, third]
}

#[test]
fn a_refused_solution_is_answered_again(rt: HostRuntime) {
    let refusal = refused(22, Place::Sol(0));
    let (problem, solutions, steps) = spelled(&rt, rt.alloc(), UNSOLVED).into_parts();
    drop(steps);
    let solution = solutions.first().expect(&rt, "a solution");
    let answers = answers_to_solution(&rt, rt.alloc(), problem, solution);
    same(&rt, answers, [refusal, refusal, refusal]);
    drop(solutions);
}
