//! Reads a certificate: each item is checked before the next one is read, and kept.

ghost use Rattle.std.specs.Prelude.{◌≡◌, ◌<◌, ◌^◌, false, List, [], IfOk, IfErr, IsSome, OnOk};
ghost use Rattle.vipr_spec.specs.Constraint.{Profile as ProfileMeant, Row};
ghost use Rattle.vipr_spec.specs.Certificate.{Named as NamedMeant, Problem as ProblemMeant};
ghost use Rattle.vipr_spec.specs.Certificate.{Derivation as DerivationMeant};
ghost use Rattle.vipr_spec.specs.Certificate.{Certificate as CertificateMeant};
ghost use Rattle.vipr_spec.specs.Shape.{CanWriteProblem, CanWrite};
ghost use Rattle.vipr_spec.specs.{Checking.start, Steps.with_more};
ghost use Rattle.vipr_bytes.specs.Known.{IfKnown};
ghost use Rattle.vipr_read.specs.Items.{Knows};
ghost use Rattle.vipr_rules.specs.Profile.{profile_of};
ghost use Rattle.vipr_write.specs.{Canonical.lines_text, Canonical.solutions_lines, Steps.AreKept};
ghost use Rattle.vipr_check.specs.Run.{IsAmong, IsAt};
ghost use Rattle.vipr_tighten.specs.Keeping.{found_by, AnswersProof, AnswersWhy, KeepsLines};
ghost use Rattle.vipr_tighten.specs.Keeping.{KeepsMet, KeepsFinished, KeepsProof, KeepsSteps};
ghost use Rattle.vipr_tighten.specs.Keeping.{IsKeptOf};
ghost use Rattle.vipr_tighten.specs.Keeping.{IsForSame, IsFor, solutions_left, derivations_left};

use std::alloc::Global;
use vipr_bytes::{Growing, Out, Source};
use vipr_cert::{Derivation, Problem};
use vipr_check::{Checker, NoProof, Report, Table};
use vipr_read::{CertReader, Derivations, Solutions};
use vipr_rules::Profile;
use vipr_write::{Form, Statements, Step, put_heading, put_solution};

/// A proof. Its solutions are kept as text, and so are the names and the constraints of its
/// derivations.
#[derive(Drop)]
pub(crate) struct KeptProof {
    pub(crate) problem: Problem,
    pub(crate) solutions: Growing,
    pub(crate) statements: Statements,
    pub(crate) steps: Vec<Step>,
    pub(crate) report: Report,
}

/// The proof that is read from `source` to its end, and its report. It is kept for a text in
/// `form`.
///
/// Each item is tested before more is read than it takes.
pub(crate) fn read_proof<R: Source + Drop>(
    alloc: Global,
    profile: Profile,
    form: Form,
    source: R,
) -> Result<KeptProof, NoProof>
    // Whatever is read: it is a proof, this is its report, and what it claims is true. It is the
    // certificate that is found in the text, and the answer is that of the definitions.
    ensures proof { IfOk result (λ kept. (c : CertificateMeant)
        × IsKeptOf (profile_of profile) form c kept
        × IfKnown (R.input source)
        (λ i. AnswersProof (profile_of profile) (found_by i) c kept.report)) }
    ensures unproved { IfErr result (λ e. IfKnown (R.input source)
        (λ i. AnswersWhy (profile_of profile) (found_by i) e)) }
{
    let reader = CertReader::new(alloc, source)?;
    match reader.read_problem(alloc) {
        Ok((problem, solutions)) => read_rest(alloc, profile, form, problem, solutions),
        Err(error) => Err(NoProof::from(error)),
    }
}

// The proof of this problem that follows, and its report.
fn read_rest<R: Source + Drop>(
    alloc: Global,
    profile: Profile,
    form: Form,
    problem: Problem,
    solutions: Solutions<R>,
) -> Result<KeptProof, NoProof>
    requires writes { CanWriteProblem problem }
    requires knows { Knows solutions problem }
    requires working { solutions.failed ≡ false }
    requires counted { solutions.left < 2 ^ 32 }
    ensures kept { IfOk result (λ kept. (c : CertificateMeant)
        × IsKeptOf (profile_of profile) form c kept
        × KeepsProof (profile_of profile) problem solutions c kept.report) }
    ensures unproved { IfErr result (λ e. IsSome solutions.rest
        → AnswersWhy (profile_of profile) (solutions_left problem [] solutions) e) }
{
    let Ok(mut checker) = Checker::<Table>::new_in(alloc, profile, problem) else {
        drop(solutions);
        return Err(NoProof::Memory);
    };
    let mut listed = Growing::new(alloc);
    let mut steps = Vec::new(alloc);
    let read = read_items(
        alloc,
        &mut checker,
        form,
        solutions,
        &mut listed,
        &mut steps,
    );
    // The checker is given up, whatever was answered.
    let problem = checker.into_problem();
    match read {
        Ok((statements, report)) => Ok(KeptProof {
            problem,
            solutions: listed,
            statements,
            steps,
            report,
        }),
        Err(reason) => {
            drop(problem);
            drop(listed);
            drop(steps);
            Err(reason)
        }
    }
}

// The solutions and the derivations that follow, up to the end of the text. The solutions are kept
// as text, and the steps with their statements. Gives the report of the proof that they make.
fn read_items<R: Source + Drop>(
    alloc: Global,
    checker: &mut Checker<Table>,
    form: Form,
    mut solutions: Solutions<R>,
    listed: &mut Growing,
    steps: &mut Vec<Step>,
) -> Result<(Statements, Report), NoProof>
    requires among { (P : ProfileMeant) × (p : ProblemMeant)
        × IsAmong P p [] checker.old solutions }
    requires none_listed { listed.old.bytes.items ≡ [] }
    requires no_steps { steps.old.items ≡ [] }
    ensures kept { IfOk result (λ x. (P : ProfileMeant) (p : ProblemMeant)
        → IsAmong P p [] checker.old solutions
        → (checker.new.progress.problem ≡ p) × IsFor form p x.0 × (ss : List (NamedMeant Row))
        × (ds : List DerivationMeant) × (listed.new.bytes.items ≡ lines_text (solutions_lines ss))
        × AreKept x.0 steps.new.items ds
        × (CanWriteProblem p → CanWrite (with_more (start p ss) ds))
        × KeepsProof P p solutions (with_more (start p ss) ds) x.1) }
    ensures unproved { IfErr result (λ e. (P : ProfileMeant) (p : ProblemMeant)
        → IsAmong P p [] checker.old solutions → IsSome solutions.rest
        → AnswersWhy P (solutions_left p [] solutions) e) }
{
    if let Err(reason) = read_listed(alloc, checker, &mut solutions, listed) {
        drop(solutions);
        return Err(reason);
    }
    let mut derivations = solutions.finish()?;
    let Ok(mut statements) = Statements::new(alloc, form, checker.problem().objective()) else {
        drop(derivations);
        return Err(NoProof::Memory);
    };
    let mut step = Derivation::blank(alloc);
    let derived = read_derived(
        alloc,
        checker,
        &mut statements,
        &mut derivations,
        &mut step,
        steps,
    );
    drop(step);
    drop(derivations);
    match derived {
        Ok(report) => Ok((statements, report)),
        Err(reason) => {
            drop(statements);
            Err(reason)
        }
    }
}

// All solutions that follow, where they meet the primal side of the claim. They are kept as text.
fn read_listed<R: Source>(
    alloc: Global,
    checker: &mut Checker<Table>,
    solutions: &mut Solutions<R>,
    listed: &mut Growing,
) -> Result<(), NoProof>
    requires among { (P : ProfileMeant) × (p : ProblemMeant)
        × IsAmong P p [] checker.old solutions.old }
    requires none_listed { listed.old.bytes.items ≡ [] }
    ensures none { OnOk result (solutions.new.left ≡ 0) }
    ensures kept { OnOk result ((ss : List (NamedMeant Row))
        × KeepsLines solutions.old.variables listed.new.bytes.items ss
        × ((P : ProfileMeant) (p : ProblemMeant) → IsAmong P p [] checker.old solutions.old
        → KeepsMet P p solutions.old ss checker.new solutions.new)) }
    ensures unproved { IfErr result (λ e. (P : ProfileMeant) (p : ProblemMeant)
        → IsAmong P p [] checker.old solutions.old → IsSome solutions.old.rest
        → AnswersWhy P (solutions_left p [] solutions.old) e) }
{
    put_heading(listed, b"SOL", solutions.left() as usize);
    'solutions: loop {
        match solutions.next(alloc)? {
            Some(solution) => {
                if let Err(stop) = checker.solution(&solution) {
                    drop(solution);
                    return Err(NoProof::from(stop));
                }
                put_solution(listed, &solution);
                drop(solution);
            }
            None => {
                checker.end_solutions()?;
                if listed.has_failed() {
                    return Err(NoProof::Memory);
                }
                return Ok(());
            }
        }
    }
}

// All derivations that follow, up to the end of the text, where they make a proof. Each is read in
// place of `step`. Gives the report.
fn read_derived<R: Source>(
    alloc: Global,
    checker: &mut Checker<Table>,
    statements: &mut Statements,
    derivations: &mut Derivations<R>,
    step: &mut Derivation,
    steps: &mut Vec<Step>,
) -> Result<Report, NoProof>
    requires at { (P : ProfileMeant) × (p : ProblemMeant) × (ss : List (NamedMeant Row))
        × IsAt P (start p ss) checker.old derivations.old }
    requires none { AreKept statements.old [] [] }
    requires no_steps { steps.old.items ≡ [] }
    ensures same { OnOk result (IsForSame statements.old statements.new) }
    ensures kept { IfOk result (λ report. (ds : List DerivationMeant)
        × KeepsSteps derivations.old.variables statements.new steps.new.items ds
        × ((P : ProfileMeant) (p : ProblemMeant) (ss : List (NamedMeant Row))
        → IsAt P (start p ss) checker.old derivations.old
        → KeepsFinished P (start p ss) derivations.old (with_more (start p ss) ds) report
        checker.new)) }
    ensures unproved { IfErr result
        (λ e. (P : ProfileMeant) (p : ProblemMeant) (ss : List (NamedMeant Row))
        → IsAt P (start p ss) checker.old derivations.old → IsSome derivations.old.rest
        → AnswersWhy P (derivations_left (start p ss) derivations.old) e) }
{
    'steps: loop {
        let found = derivations.next_into(alloc, step)?;
        if !found {
            let report = checker.finish()?;
            return Ok(report);
        }
        let kept = statements.keep(alloc, step)?;
        checker.take_from(alloc, step)?;
        steps.push(kept)?;
    }
}
