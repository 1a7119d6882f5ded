//! The problem that a certificate is about.
//!
//! A [`Problem`] has named variables, the set of those that have to be whole, an objective, named
//! constraints and a claim. Variables and constraints are known by their index, from 0. `new` tests
//! the limits of the format. `of_parts` tests nothing, and its caller proves that the parts are
//! within them.
ghost use Rattle.std.specs.Prelude.{◌≡◌, ◌↔◌, ℕ, All, IsOk, IfOk, IsTrue, map};
ghost use Rattle.vipr_spec.specs.Certificate.{Problem as Meant, integer_variables};
ghost use Rattle.vipr_spec.specs.Shape.{ProblemShape, CanWriteProblem, RowFits, ConstraintFits};
ghost use Rattle.vipr_linear.specs.Constraint.{constraint_of};
ghost use Rattle.vipr_cert.specs.Items.{problem_with, named_of, direction_of, claim_of};
ghost use Rattle.vipr_cert.specs.declared.items.Claim.{Claim as Claimed};
ghost use Rattle.vipr_cert.specs.{Codes.problem_code, declared.items.Goal.Goal as Sense};

use crate::items::{Claim, Goal, Named};
use crate::limits;
use crate::name::{BadShape, Name};
use std::marker::Model;
use vipr_linear::{Constraint, Ints, Row};

/// What a certificate is about: an objective and constraints over named variables, and a claim.
#[derive(Debug, Drop)]
pub struct Problem {
    names: Vec<Name>,
    ints: Ints,
    sense: Goal,
    objective: Row,
    cons: Vec<Named<Constraint>>,
    bound_count: u32,
    claim: Claim,
}

impl Model for Problem {
    ghost Value = { Meant };

    ghost coded = { problem_code };

    ghost view = { λ p.
        problem_with p.names.items p.ints p.sense p.objective p.cons.items p.bound_count p.claim };

    ghost invariant = { λ p. CanWriteProblem (problem_with p.names.items p.ints p.sense p.objective
        p.cons.items p.bound_count p.claim) };
}

impl Problem {
    /// The problem of these parts. The variables are 0, 1, 2, ..; each has a name, in this order,
    /// and some have to be whole. The objective is to be small or large, and has coefficients. Then
    /// come the constraints, how many of them are bounds (nothing depends on it), and the claim.
    ///
    /// # Errors
    ///
    /// `BadShape` if there are more than 4,294,967,295 names or constraints, or if a variable
    /// is not one of those named.
    pub fn new(
        names: Vec<Name>,
        ints: Ints,
        sense: Goal,
        objective: Row,
        cons: Vec<Named<Constraint>>,
        bound_count: u32,
        claim: Claim,
    ) -> Result<Problem, BadShape>
        ensures shape { IsOk result ↔ ProblemShape
            (problem_with names.items ints sense objective cons.items bound_count claim) }
        ensures parts { IfOk result
            (λ p. p ≡ problem_with names.items ints sense objective cons.items bound_count claim) }
    {
        limits::claim_fits(&claim);
        if !are_within(&names, &ints, &objective, &cons) {
            drop(objective);
            drop(ints);
            return Err(BadShape);
        }
        Ok(Problem::of_parts(names, ints, sense, objective, cons, bound_count, claim))
    }

    /// The problem of parts that are known to be within the limits. Nothing is tested.
    pub fn of_parts(
        names: Vec<Name>,
        ints: Ints,
        sense: Goal,
        objective: Row,
        cons: Vec<Named<Constraint>>,
        bound_count: u32,
        claim: Claim,
    ) -> Problem
        requires { CanWriteProblem
            (problem_with names.items ints sense objective cons.items bound_count claim) }
        ensures parts { result
            ≡ problem_with names.items ints sense objective cons.items bound_count claim }
        ensures writes { CanWriteProblem result }
    {
        Self {
            names,
            ints,
            sense,
            objective,
            cons,
            bound_count,
            claim,
        }
    }

    /// The variables' names.
    pub fn names(&self) -> &[Name]
        ensures names { result.now ≡ self.now.names }
        ensures writes { CanWriteProblem self.now }
    {
        self.names.as_slice()
    }

    /// The variables that have to be whole.
    pub fn ints(&self) -> &Ints
        ensures integers { result.now ≡ self.now.integers }
        ensures writes { CanWriteProblem self.now }
    {
        &self.ints
    }

    /// The variables that have to be whole, in rising order.
    pub fn integer_variables(&self) -> &[u32]
        ensures variables { result.now ≡ integer_variables self.now }
        ensures writes { CanWriteProblem self.now }
    {
        self.ints().indices()
    }

    /// Whether the objective is to be small or large.
    pub fn sense(&self) -> Goal
        ensures { direction_of result ≡ self.now.direction }
    {
        self.sense
    }

    /// The coefficients of the objective.
    pub fn objective(&self) -> &Row
        ensures objective { result.now ≡ self.now.objective }
        ensures writes { CanWriteProblem self.now }
    {
        &self.objective
    }

    /// The constraints, with the indices 0, 1, 2, ..
    pub fn cons(&self) -> &[Named<Constraint>]
        ensures constraints { map (named_of constraint_of) result.now ≡ self.now.constraints }
        ensures writes { CanWriteProblem self.now }
    {
        self.cons.as_slice()
    }

    /// How many of the constraints are bounds.
    pub fn bound_count(&self) -> u32
        ensures { result ≡ self.now.bound_count }
    {
        self.bound_count
    }

    /// What is claimed.
    pub fn claim(&self) -> Claim
        ensures { claim_of result ≡ self.now.claim }
    {
        self.claim
    }
}

// Whether these parts are within the limits of a problem. The others always are.
fn are_within(names: &[Name], ints: &Ints, objective: &Row, cons: &[Named<Constraint>]) -> bool
    ensures shape { (sense : Sense) → (bound_count : ℕ) → (claim : Claimed) → (IsTrue result
        ↔ ProblemShape (problem_with names.now ints.now sense objective.now cons.now bound_count
        claim)) }
    ensures objective { RowFits objective.now }
    ensures constraints { IsTrue result
        → All (λ c. ConstraintFits c.item) (map (named_of constraint_of) cons.now) }
{
    limits::names_are_tokens(names);
    let _ = objective.entries();
    if !limits::is_count(names.len()) {
        return false;
    }
    let variables = names.len() as u32;
    if !limits::is_count(cons.len()) || !limits::are_below(ints, variables) {
        return false;
    }
    if !objective.names_below(variables) || !limits::are_within(cons, variables) {
        return false;
    }
    true
}
