//! Runs a checker over a text: the checker takes each item before the next one is read.

ghost use Rattle.std.specs.Prelude.{◌≡◌, ◌+◌, ◌<◌, ◌^◌, true, false, suc, List, Ok, Err};
ghost use Rattle.std.specs.Prelude.{IfOk, IfNone, IfSome, IsSome};
ghost use Rattle.vipr_scan.specs.Giving.{rest_of};
ghost use Rattle.vipr_spec.specs.Progress.{derivations_from, solutions_from};
ghost use Rattle.vipr_spec.specs.{Certificate.Named as NamedMeant};
ghost use Rattle.vipr_spec.specs.{Certificate.Problem as ProblemMeant, Certificate.Certificate};
ghost use Rattle.vipr_spec.specs.{Constraint.Profile as ProfileMeant, Constraint.Row, Reading.Rest};
ghost use Rattle.vipr_spec.specs.{Reading.problem_read, Verdict.Explained, Verdict.IsExplained};
ghost use Rattle.vipr_rules.specs.Profile.{profile_of};
ghost use Rattle.vipr_read.specs.Items.{Knows};
ghost use Rattle.vipr_bytes.specs.Known.{text_of, IfKnown};
ghost use Rattle.vipr_check.specs.Run.{IsAmong, GoesAmong, IsAt, Goes, SaysWith, SaysAtEnd};
ghost use Rattle.vipr_check.specs.{Shown.state_shown, View.IsOfProof};

use crate::checker::Checker;
use crate::no_proof::NoProof;
use crate::verdict::Report;
use std::alloc::Global;
use vipr_bytes::Source;
use vipr_cert::{Derivation, Problem};
use vipr_read::{CertReader, Derivations, Solutions};
use vipr_rules::{Profile, Rows};

/// The report of the proof that is read from `source`, or why there is none. With it the checker as
/// it is then, which knows what there is to show; none if no problem was read.
pub(crate) fn run<R: Source + Drop, S: Rows>(
    alloc: Global,
    profile: Profile,
    source: R,
) -> (Result<Report, NoProof>, Option<Checker<S>>)
    ensures explained { IfKnown (R.input source)
        (λ i. SaysAtEnd (IsExplained (profile_of profile) (text_of i)) result) }
    ensures any { IfOk result.0 (IsOfProof (profile_of profile)) }
{
    let Ok(reader) = CertReader::new(alloc, source) else {
        return (Err(NoProof::Memory), None);
    };
    match reader.read_problem(alloc) {
        Ok((problem, solutions)) => after_problem::<R, S>(alloc, profile, problem, solutions),
        Err(error) => (Err(NoProof::from(error)), None),
    }
}

// The report, and the checker, if the problem was read.
fn after_problem<R: Source + Drop, S: Rows>(
    alloc: Global,
    profile: Profile,
    problem: Problem,
    solutions: Solutions<R>,
) -> (Result<Report, NoProof>, Option<Checker<S>>)
    requires knows { Knows solutions problem }
    requires unspent { solutions.failed ≡ false }
    requires counted { solutions.left < 2 ^ 32 }
    ensures explained { IsSome solutions.rest → (r : Rest)
        → problem_read r ≡ Ok ((problem, solutions.left), (rest_of solutions.rest))
        → SaysAtEnd (IsExplained (profile_of profile) r) result }
    ensures any { IfOk result.0 (IsOfProof (profile_of profile)) }
{
    match Checker::new_in(alloc, profile, problem) {
        Ok(mut checker) => {
            let outcome = check_solutions(alloc, &mut checker, solutions);
            (outcome, Some(checker))
        }
        Err(_) => {
            drop(solutions);
            (Err(NoProof::Memory), None)
        }
    }
}

// Takes all solutions and all derivations, and gives the report.
fn check_solutions<R: Source + Drop, S: Rows>(
    alloc: Global,
    checker: &mut Checker<S>,
    mut solutions: Solutions<R>,
) -> Result<Report, NoProof>
    requires { (P : ProfileMeant) × (p : ProblemMeant) × (ss : List (NamedMeant Row))
        × IsAmong P p ss checker.old solutions }
    ensures explained { (P : ProfileMeant) (p : ProblemMeant) (ss : List (NamedMeant Row))
        → IsAmong P p ss checker.old solutions
        → IsSome solutions.rest
        → SaysWith (Explained P (solutions_from p ss solutions.left (rest_of solutions.rest)))
        (state_shown checker.new) result }
    ensures any { (P : ProfileMeant) (p : ProblemMeant) (ss : List (NamedMeant Row))
        → IsAmong P p ss checker.old solutions → IfOk result (IsOfProof P) }
{
    'solutions: while solutions.left() > 0 {
        if let Err(error) = next_solution(alloc, checker, &mut solutions) {
            drop(solutions);
            return Err(error);
        }
    }
    after_last_solution(alloc, checker, solutions)
}

// Takes the next solution.
fn next_solution<R: Source, S: Rows>(
    alloc: Global,
    checker: &mut Checker<S>,
    solutions: &mut Solutions<R>,
) -> Result<(), NoProof>
    requires among { (P : ProfileMeant) × (p : ProblemMeant) × (ss : List (NamedMeant Row))
        × IsAmong P p ss checker.old solutions.old }
    requires some { 0 < solutions.old.left }
    ensures fewer { IfOk result (λ _. solutions.old.left ≡ suc solutions.new.left) }
    ensures step { (P : ProfileMeant) (p : ProblemMeant) (ss : List (NamedMeant Row))
        → IsAmong P p ss checker.old solutions.old
        → GoesAmong P p ss solutions.old checker.new solutions.new result }
    // Want of memory is only what the reader answers: neither a test of a solution nor a refusal
    // needs any.
    ensures decided { result ≡ Err NoProof.Memory → solutions.new.failed ≡ true }
{
    match solutions.next(alloc)? {
        Some(solution) => {
            checker.take_solution(solution)?;
            Ok(())
        }
        None => unreachable!(),
    }
}

// The report, if all solutions were accepted.
fn after_last_solution<R: Source + Drop, S: Rows>(
    alloc: Global,
    checker: &mut Checker<S>,
    solutions: Solutions<R>,
) -> Result<Report, NoProof>
    requires none { solutions.left ≡ 0 }
    requires among { (P : ProfileMeant) × (p : ProblemMeant) × (ss : List (NamedMeant Row))
        × IsAmong P p ss checker.old solutions }
    ensures explained { (P : ProfileMeant) (p : ProblemMeant) (ss : List (NamedMeant Row))
        → IsAmong P p ss checker.old solutions
        → IsSome solutions.rest
        → SaysWith (Explained P (solutions_from p ss 0 (rest_of solutions.rest)))
        (state_shown checker.new) result }
    ensures any { (P : ProfileMeant) (p : ProblemMeant) (ss : List (NamedMeant Row))
        → IsAmong P p ss checker.old solutions → IfOk result (IsOfProof P) }
{
    match checker.end_solutions() {
        Ok(()) => {
            let derivations = solutions.finish()?;
            check_derivations(alloc, checker, derivations)
        }
        Err(stop) => {
            drop(solutions);
            Err(NoProof::from(stop))
        }
    }
}

// Takes all derivations, and gives the report.
fn check_derivations<R: Source + Drop, S: Rows>(
    alloc: Global,
    checker: &mut Checker<S>,
    mut derivations: Derivations<R>,
) -> Result<Report, NoProof>
    requires { (P : ProfileMeant) × (c : Certificate) × IsAt P c checker.old derivations }
    ensures explained { (P : ProfileMeant) (c : Certificate) → IsAt P c checker.old derivations
        → IsSome derivations.rest
        → SaysWith
        (Explained P (derivations_from c derivations.left (rest_of derivations.rest)))
        (state_shown checker.new) result }
    ensures any { (P : ProfileMeant) (c : Certificate) → IsAt P c checker.old derivations
        → IfOk result (IsOfProof P) }
{
    let mut step = Derivation::blank(alloc);
    'steps: loop {
        let answer = next_step(alloc, checker, &mut derivations, &mut step);
        if let Some(outcome) = answer.transpose() {
            drop(step);
            drop(derivations);
            return outcome;
        }
    }
}

// Takes the next derivation, or gives the report at the end.
#[inline(always)]
fn next_step<R: Source, S: Rows>(
    alloc: Global,
    checker: &mut Checker<S>,
    derivations: &mut Derivations<R>,
    step: &mut Derivation,
) -> Result<Option<Report>, NoProof>
    requires { (P : ProfileMeant) × (c : Certificate) × IsAt P c checker.old derivations.old }
    ensures fewer { IfOk result (λ o. IfNone o
        (derivations.old.left ≡ suc derivations.new.left)) }
    ensures step { (P : ProfileMeant) (c : Certificate) → IsAt P c checker.old derivations.old
        → Goes P c derivations.old checker.new derivations.new result }
    ensures any { (P : ProfileMeant) (c : Certificate) → IsAt P c checker.old derivations.old
        → IfOk result (λ o. IfSome o (IsOfProof P)) }
{
    let found = derivations.next_into(alloc, step)?;
    if found {
        checker.take_from(alloc, step)?;
        return Ok(None);
    }
    Ok(Some(checker.finish()?))
}
