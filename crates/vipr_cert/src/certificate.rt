//! Whole certificates.
//!
//! A [`Certificate`] has a problem, the solutions that are listed for it, and the constraints that
//! are derived from it. The indices of the derived constraints follow those of the problem's. Being
//! a `Certificate` says that the text could spell it, and nothing about whether it is a proof.
ghost use Rattle.std.specs.Prelude.{◌≡◌, ◌↔◌, ◌+◌, ◌<◌, ◌≤◌, IsOk, IfOk, IsTrue, Some, All, map};
ghost use Rattle.std.specs.Prelude.{length};
ghost use Rattle.vipr_spec.specs.Certificate.{Certificate as Meant, NamesEarlier};
ghost use Rattle.vipr_spec.specs.Shape.{CertificateShape, CertificateFits, CanWrite};
ghost use Rattle.vipr_spec.specs.{Reading.most_count, Steps.RefersBack};
ghost use Rattle.vipr_cert.specs.Items.{certificate_with, solution_of, reason_of, derivation_of};
ghost use Rattle.vipr_cert.specs.{Codes.certificate_code, Earlier.NameEarlierFrom};

use crate::items::{Derivation, Named, Reason, References};
use crate::limits;
use crate::name::BadShape;
use crate::problem::Problem;
use std::marker::Model;
use vipr_frac::Frac;
use vipr_linear::Solution;

/// A problem, the solutions that are listed, and the constraints that are derived.
#[derive(Debug, Drop)]
pub struct Certificate {
    problem: Problem,
    solutions: Vec<Named<Solution>>,
    derivations: Vec<Derivation>,
}

impl Model for Certificate {
    ghost Value = { Meant };

    ghost coded = { certificate_code };

    ghost view = { λ c. certificate_with c.problem c.solutions.items c.derivations.items };

    ghost invariant = { λ c. CanWrite
        (certificate_with c.problem c.solutions.items c.derivations.items) };
}

impl Certificate {
    /// The certificate of these parts.
    ///
    /// # Errors
    ///
    /// `BadShape` if a variable is not one of the problem's, if there are more than
    /// 4,294,967,295 solutions, entries of a reason, or constraints and derivations together.
    pub fn new(
        problem: Problem,
        solutions: Vec<Named<Solution>>,
        derivations: Vec<Derivation>,
    ) -> Result<Certificate, BadShape>
        ensures shape { IsOk result
            ↔ CertificateShape (certificate_with problem solutions.items derivations.items) }
        ensures parts { IfOk result
            (λ c. c ≡ certificate_with problem solutions.items derivations.items) }
    {
        if !are_within(&problem, &solutions, &derivations) {
            drop(problem);
            return Err(BadShape);
        }
        Ok(Certificate::of_parts(problem, solutions, derivations))
    }

    /// The certificate of parts that are known to be within the limits. Nothing is tested.
    pub fn of_parts(
        problem: Problem,
        solutions: Vec<Named<Solution>>,
        derivations: Vec<Derivation>,
    ) -> Certificate
        requires { CanWrite (certificate_with problem solutions.items derivations.items) }
        ensures parts { result ≡ certificate_with problem solutions.items derivations.items }
        ensures writes { CanWrite result }
    {
        Self {
            problem,
            solutions,
            derivations,
        }
    }

    /// The problem, the solutions and the derivations.
    pub fn into_parts(self) -> (Problem, Vec<Named<Solution>>, Vec<Derivation>)
        ensures parts { self ≡ certificate_with result.0 result.1.items result.2.items }
        ensures writes { CanWrite self }
    {
        (self.problem, self.solutions, self.derivations)
    }

    /// What it is about.
    pub fn problem(&self) -> &Problem
        ensures { result.now ≡ self.now.problem }
    {
        &self.problem
    }

    /// The listed solutions.
    pub fn solutions(&self) -> &[Named<Solution>]
        ensures { map solution_of result.now ≡ self.now.solutions }
    {
        self.solutions.as_slice()
    }

    /// The derivations; their indices follow those of the problem's constraints.
    pub fn derivations(&self) -> &[Derivation]
        ensures derivations { map derivation_of result.now ≡ self.now.derivations }
        ensures writes { CanWrite self.now }
    {
        self.derivations.as_slice()
    }

    /// Whether each constraint that a reason names has a smaller index than the derivation itself.
    pub fn refers_back(&self) -> bool
        ensures { IsTrue result ↔ RefersBack self.now }
    {
        refer_back(self.derivations(), self.problem().cons().len())
    }
}

// Whether these are within the limits of a certificate. A problem always is.
fn are_within(problem: &Problem, solutions: &[Named<Solution>], derivations: &[Derivation]) -> bool
    ensures shape { IsTrue result
        ↔ CertificateShape (certificate_with problem.now solutions.now derivations.now) }
    ensures fits { IsTrue result
        → CertificateFits (certificate_with problem.now solutions.now derivations.now) }
{
    let variables = problem.names().len() as u32;
    let room = u32::MAX as usize - problem.cons().len();
    if !limits::is_count(solutions.len()) || derivations.len() > room {
        return false;
    }
    if !limits::are_within(solutions, variables) || !limits::are_within(derivations, variables) {
        return false;
    }
    true
}

// Whether each reason names smaller indices alone than that of its derivation, of which the first
// has the index `from`.
fn refer_back(derivations: &[Derivation], from: usize) -> bool
    requires { from + length derivations.now ≤ most_count }
    ensures { IsTrue result ↔ NameEarlierFrom from derivations.now (length derivations.now) }
{
    for (i, derivation) in derivations.iter().enumerate() {
        if !names_earlier(&derivation.reason, from + i) {
            return false;
        }
    }
    true
}

// Whether a reason names smaller indices than this alone.
fn names_earlier(reason: &Reason, index: usize) -> bool
    ensures { IsTrue result ↔ NamesEarlier index (Some (reason_of reason.now)) }
{
    match reason.references() {
        References::Nothing => true,
        References::Entries(entries) => are_earlier(entries, index),
        References::Branches { i1, l1, i2, l2 } => (i1 as usize) < index
            && (l1 as usize) < index
            && (i2 as usize) < index
            && (l2 as usize) < index,
    }
}

fn are_earlier(entries: &[(u32, Frac)], index: usize) -> bool
    ensures { IsTrue result ↔ All (λ e. e.0 < index) entries.now }
{
    entries.iter().all(|entry| (entry.0 as usize) < index)
}
