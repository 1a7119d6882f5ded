//! A checker: takes a certificate item by item, and stops at the first that is at fault.

ghost use Rattle.std.specs.Prelude.{◌≡◌, ◌≢◌, ◌+◌, ◌<◌, ◌^◌, true, false, IfOk, MatchOption, List};
ghost use Rattle.std.specs.Prelude.{[], None, Some, Ok, Err};
ghost use Rattle.vipr_spec.specs.Certificate.{Named as NamedMeant, Certificate, variables};
ghost use Rattle.vipr_spec.specs.Constraint.{one, Row, at, NamesBelow};
ghost use Rattle.vipr_cert.specs.Items.{solution_of, derivation_of};
ghost use Rattle.vipr_rules.specs.Profile.{profile_of};
ghost use Rattle.vipr_table.specs.Table.{held_count as held_in};
ghost use Rattle.vipr_check.specs.Halts.{halt_answer, later_answer, IsOwnStepHalt};
ghost use Rattle.vipr_check.specs.Progress.{HasSolutions, HasSteps};
ghost use Rattle.vipr_check.specs.State.{Repeats, TakesSolution, EndsSolutions, TakesStep};
ghost use Rattle.vipr_check.specs.State.{Finishes};
ghost use Rattle.vipr_check.specs.{Shown.detail_of, Shown.state_shown, Sound.KeepsSoundness};

use crate::cause;
use crate::detail::{Detail, of_halt};
use crate::halt::{Finding, Halt, Stop};
use crate::progress::Progress;
use crate::verdict::Report;
use std::alloc::{AllocError, Global};
use std::marker::Model;
use vipr_cert::{Derivation, Name, Named, Problem};
use vipr_linear::Solution;
use vipr_rules::{Profile, Rows, RuleError};

/// Takes a certificate item by item: the problem, each solution, the end of the solutions, each
/// derivation, the end. It stops at the first item that is at fault.
#[derive(Drop)]
pub struct Checker<S: Rows> {
    progress: Progress<S>,
    in_solutions: bool,
    halt: Option<Halt>,
}

impl<S: Rows> Model for Checker<S> {
    ghost use Rattle.vipr_check.specs.State.{State, state_code, IsReached};

    ghost Value = { State };

    ghost coded = { state_code };

    ghost view = { λ k.
        record { progress = k.progress; in_solutions = k.in_solutions; halt = k.halt } };

    ghost invariant = { λ k. IsReached k.progress k.in_solutions k.halt };
}

impl<S: Rows> Checker<S> {
    /// A checker of a problem, before its solutions.
    ///
    /// # Errors
    ///
    /// If a growth is refused.
    pub fn new(alloc: Global, problem: Problem) -> Result<Checker<S>, AllocError>
        ensures problem { IfOk result (λ k. k.progress.problem ≡ problem) }
        ensures start { IfOk result (λ k. HasSolutions [] k.progress) }
        ensures phase { IfOk result (λ k. k.in_solutions ≡ true) }
        ensures runs { IfOk result (λ k. k.halt ≡ None) }
        ensures profile { IfOk result (λ k. k.progress.profile ≡ one) }
    {
        Checker::new_in(alloc, Profile::One, problem)
    }

    /// A checker of this problem's certificates by the rules of `profile`.
    ///
    /// # Errors
    ///
    /// If a growth is refused.
    pub fn new_in(
        alloc: Global,
        profile: Profile,
        problem: Problem,
    ) -> Result<Checker<S>, AllocError>
        ensures problem { IfOk result (λ k. k.progress.problem ≡ problem) }
        ensures start { IfOk result (λ k. HasSolutions [] k.progress) }
        ensures phase { IfOk result (λ k. k.in_solutions ≡ true) }
        ensures runs { IfOk result (λ k. k.halt ≡ None) }
        ensures profile { IfOk result (λ k. k.progress.profile ≡ profile_of profile) }
    {
        Ok(Checker {
            progress: Progress::new(alloc, profile, problem)?,
            in_solutions: true,
            halt: None,
        })
    }

    /// Whether solutions may still come: `solution` and `end_solutions` are called then, the others
    /// after.
    pub fn in_solutions(&self) -> bool
        ensures phase { result ≡ self.now.in_solutions }
        // What is so of every checker, unless memory was refused: its best value is that of a
        // feasible point, its rows are true wherever those are that they rest on, and once it has a
        // goal, the dual side of the claim is true.
        ensures sound { self.now.halt ≢ Some Halt.Memory
            → KeepsSoundness self.now.progress.problem self.now.progress.best self.now.progress.rows
            self.now.progress.goal }
    {
        self.in_solutions
    }

    /// The problem.
    pub fn problem(&self) -> &Problem
        ensures { result.now ≡ self.now.progress.problem }
    {
        self.progress.problem()
    }

    /// The index of the constraint that is derived next.
    pub fn next(&self) -> u32
        ensures { result ≡ self.now.progress.rows.next }
    {
        self.progress.next()
    }

    /// How many derived constraints are held.
    pub fn held(&self) -> usize
        ensures { result ≡ held_in self.now.progress.rows }
    {
        self.progress.held()
    }

    /// Takes the next listed solution.
    ///
    /// # Errors
    ///
    /// The refusal with the first cause that the solution has, or want of memory for its name.
    pub fn solution(&mut self, solution: &Named<Solution>) -> Result<(), Stop>
        requires phase { self.old.in_solutions ≡ true }
        requires room { self.old.progress.solutions + 1 < 2 ^ 32 }
        ensures again { Repeats self.old self.new result }
        ensures next { (ss : List (NamedMeant Row)) → self.old.halt ≡ None
            → HasSolutions ss self.old.progress
            → TakesSolution ss (solution_of solution.now) self.old self.new result }
    {
        self.go_on()?;
        let number = self.progress.solutions();
        match self.progress.solution(&solution.item) {
            Ok(()) => Ok(()),
            Err(error) => {
                Err(stop(
                    &mut self.halt,
                    Halt::at_lent_solution(number, &solution.name, error),
                ))
            }
        }
    }

    /// Takes the next listed solution, and its name if it is refused, so that nothing is cloned.
    ///
    /// # Errors
    ///
    /// The refusal with the first cause that the solution has. Want of memory is never answered,
    /// since neither the tests nor a refusal need any.
    pub fn take_solution(&mut self, solution: Named<Solution>) -> Result<(), Stop>
        requires phase { self.old.in_solutions ≡ true }
        requires room { self.old.progress.solutions + 1 < 2 ^ 32 }
        ensures again { Repeats self.old self.new result }
        ensures next { (ss : List (NamedMeant Row)) → self.old.halt ≡ None
            → HasSolutions ss self.old.progress
            → TakesSolution ss (solution_of solution) self.old self.new result }
        ensures decided { result ≢ Err Stop.Memory }
    {
        if let Err(stop) = self.go_on() {
            drop(solution);
            return Err(stop);
        }
        let number = self.progress.solutions();
        let Named { name, item } = solution;
        let tested = self.progress.solution(&item);
        drop(item);
        match tested {
            Ok(()) => {
                drop(name);
                Ok(())
            }
            Err(error) => { Err(stop(&mut self.halt, Halt::at_solution(number, name, error))) }
        }
    }

    /// Ends the solutions; derivations follow.
    ///
    /// # Errors
    ///
    /// The refusal if the listed solutions don't meet the primal side of the claim.
    pub fn end_solutions(&mut self) -> Result<(), Stop>
        requires { self.old.in_solutions ≡ true }
        ensures again { Repeats self.old self.new result }
        ensures next { (ss : List (NamedMeant Row)) → self.old.halt ≡ None
            → HasSolutions ss self.old.progress
            → EndsSolutions ss self.old self.new result }
    {
        self.go_on()?;
        if !self.progress.meets_primal() {
            return Err(stop(
                &mut self.halt,
                Halt::at_end(cause::NO_PRIMAL, Finding::Primal),
            ));
        }
        self.progress.forget_columns();
        self.in_solutions = false;
        Ok(())
    }

    /// Takes the next derivation.
    ///
    /// # Errors
    ///
    /// The refusal with the first cause that the derivation has, or want of memory for its rule,
    /// its constraint or its name.
    pub fn derivation(&mut self, alloc: Global, step: &Derivation) -> Result<(), Stop>
        requires phase { self.old.in_solutions ≡ false }
        requires room { self.old.progress.rows.next + 1 < 2 ^ 32 }
        requires names { NamesBelow (variables self.old.progress.problem)
            (at step.now.constraint.row) }
        ensures again { Repeats self.old self.new result }
        ensures next { (c : Certificate) → self.old.halt ≡ None → HasSteps c self.old.progress
            → TakesStep c (derivation_of step.now) self.old self.new result }
    {
        self.go_on()?;
        let index = self.progress.next();
        match self.progress.derivation(alloc, step) {
            Ok(()) => Ok(()),
            Err(error) => {
                Err(stop(
                    &mut self.halt,
                    Halt::at_lent_derivation(index, &step.name, error),
                ))
            }
        }
    }

    /// Checks the next derivation, and takes its constraint out of it, or its name if it is
    /// refused. So nothing is cloned, and the next derivation can be read into `step`.
    ///
    /// # Errors
    ///
    /// The refusal with the first cause that the derivation has, or want of memory for its rule or
    /// its constraint. A refusal needs no memory.
    pub fn take_from(&mut self, alloc: Global, step: &mut Derivation) -> Result<(), Stop>
        requires phase { self.old.in_solutions ≡ false }
        requires room { self.old.progress.rows.next + 1 < 2 ^ 32 }
        requires names { NamesBelow (variables self.old.progress.problem)
            (at step.old.constraint.row) }
        ensures again { Repeats self.old self.new result }
        ensures next { (c : Certificate) → self.old.halt ≡ None → HasSteps c self.old.progress
            → TakesStep c (derivation_of step.old) self.old self.new result }
    {
        self.go_on()?;
        let index = self.progress.next();
        match self.progress.take_from(alloc, step) {
            Ok(()) => Ok(()),
            Err(error) => {
                let name = step.name.take();
                Err(stop_at_step(&mut self.halt, index, name, error))
            }
        }
    }

    /// The report, if the certificate ends here.
    ///
    /// # Errors
    ///
    /// The refusal if no constraint proves the dual side of the claim.
    pub fn finish(&mut self) -> Result<Report, Stop>
        requires { self.old.in_solutions ≡ false }
        ensures again { Repeats self.old self.new result }
        ensures next { (c : Certificate) → self.old.halt ≡ None → HasSteps c self.old.progress
            → Finishes c self.old self.new result }
    {
        self.go_on()?;
        match self.progress.report() {
            Some(report) => Ok(report),
            None => {
                Err(stop(
                    &mut self.halt,
                    Halt::at_end(cause::NO_PROOF, Finding::Proof),
                ))
            }
        }
    }

    /// The problem, if nothing more is to be checked.
    pub fn into_problem(self) -> Problem
        ensures { result ≡ self.progress.problem }
    {
        let Checker { progress, halt, .. } = self;
        drop(halt);
        progress.into_problem()
    }

    /// What there is to show of the refusal at which it stopped, and nothing if it didn't.
    pub(crate) fn detail(self) -> Result<Detail, AllocError>
        ensures { IfOk result (λ d. detail_of d ≡ state_shown self) }
    {
        let Checker { progress, halt, .. } = self;
        of_halt(progress, halt)
    }

    // Where it stopped, what is answered since.
    fn go_on(&self) -> Result<(), Stop>
        ensures { MatchOption self.now.halt (result ≡ Ok tt) (λ h. result ≡ Err (later_answer h)) }
    {
        match &self.halt {
            None => Ok(()),
            Some(halt) => Err(halt.later_answer()),
        }
    }
}

// Stops, and gives what is answered.
fn stop(halt: &mut Option<Halt>, why: Halt) -> Stop
    ensures halt { halt.new ≡ Some why }
    ensures answer { result ≡ halt_answer why }
{
    halt.insert(why).first_answer()
}

// Stops at a derivation, and gives what is answered.
#[inline(never)]
fn stop_at_step(halt: &mut Option<Halt>, index: u32, name: Name, error: RuleError) -> Stop
    ensures { (h : Halt) × IsOwnStepHalt index name error h × (halt.new ≡ Some h)
        × (result ≡ halt_answer h) }
{
    stop(halt, Halt::at_derivation(index, name, error))
}
