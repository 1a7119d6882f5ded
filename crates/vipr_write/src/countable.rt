//! Whether the text of a certificate is so short that its bytes can be counted.
ghost use Rattle.std.specs.Prelude.{◌≡◌, ◌↔◌, ◌+◌, ◌*◌, ◌^◌, ◌<◌, IsTrue, length, map};
ghost use Rattle.std.specs.Prelude.{◌∷◌, [], suc};
ghost use Rattle.vipr_spec.specs.{Certificate.Certificate as CertificateMeant, Shape.CanWrite};
ghost use Rattle.vipr_linear.specs.Constraint.{constraint_of};
ghost use Rattle.vipr_cert.specs.Items.{named_of, solution_of, derivation_of, claim_of};
ghost use Rattle.vipr_write.specs.Canonical.{given_words, claim_words, solution_words};
ghost use Rattle.vipr_write.specs.Canonical.{reference_words, derivation_words, problem_lines};
ghost use Rattle.vipr_write.specs.Canonical.{certificate_lines};
ghost use Rattle.vipr_write.specs.Steps.{step_weight, AreStepsOf};
ghost use Rattle.vipr_write.specs.StepReasons.{kept_references_of};
ghost use Rattle.vipr_write.specs.{Forms.text_in, Weight.weight, declared.form.Form.Form};
ghost use Rattle.vipr_bytes.specs.Hands.{counted};
ghost use Rattle.std.specs.List.{sum_by};

use crate::statements::{Statements, Step};
use crate::step_reason::StepReferences;
use vipr_cert::{Certificate, Claim, Derivation, Named, Problem, References};
use vipr_linear::{Constraint, Solution};

// With so many words and ends of lines, and twice as many as there are entries.
#[inline(always)]
fn more(total: u64, words: u64, entries: usize) -> u64
    ensures { result ≡ counted (total + (words + 2 * entries)) }
{
    let entries = entries as u64;
    total
        .saturating_add(words)
        .saturating_add(entries)
        .saturating_add(entries)
}

// With the words of constraints and the ends of their lines.
fn more_constraints(total: u64, cons: &[Named<Constraint>]) -> u64
    ensures { result ≡ counted (total
        + weight (map given_words (map (named_of constraint_of) cons.now))) }
{
    let mut total = total;
    for constraint in cons {
        total = more(total, 5, constraint.item.row.entries().len());
    }
    total
}

// With the words of solutions and the ends of their lines.
fn more_solutions(total: u64, solutions: &[Named<Solution>]) -> u64
    ensures { result ≡ counted (total
        + weight (map solution_words (map solution_of solutions.now))) }
{
    let mut total = total;
    for solution in solutions {
        total = more(total, 3, solution.item.0.entries().len());
    }
    total
}

// With the word of a rule and the words of what it names.
#[tactic(auto, using(crate::proofs::Weighing::pairs_length))]
fn more_references(total: u64, references: StepReferences<'_>) -> u64
    ensures { result
        ≡ counted (total + suc (length (reference_words (kept_references_of references.entry)))) }
{
    match references {
        StepReferences::Whole(References::Nothing) => more(total, 1, 0),
        StepReferences::Whole(References::Entries(entries)) => more(total, 2, entries.len()),
        StepReferences::Whole(References::Branches { .. }) => more(total, 5, 0),
        StepReferences::Short(entries) => more(total, 2, entries.len()),
    }
}

// With the words of derivations and the ends of their lines.
fn more_derivations(total: u64, derivations: &[Derivation]) -> u64
    ensures { result ≡ counted (total
        + weight (map derivation_words (map derivation_of derivations.now))) }
{
    let mut total = total;
    for derivation in derivations {
        total = more(total, 8, derivation.constraint.row.entries().len());
        total = more_references(total, StepReferences::Whole(derivation.reason.references()));
    }
    total
}

// The words of a claim, and the end of its line.
fn claim_weight(claim: Claim) -> u64
    ensures { result ≡ weight (claim_words (claim_of claim) ∷ []) }
{
    match claim {
        Claim::Infeas => 3,
        Claim::Range(..) => 5,
    }
}

// The words of a problem, and the ends of its lines.
fn problem_weight(problem: &Problem) -> u64
    ensures { result ≡ counted (weight (problem_lines problem.now)) }
{
    let total = more(18, claim_weight(problem.claim()), problem.names().len());
    let total = more(total, 0, problem.integer_variables().len());
    let total = more(total, 0, problem.objective().entries().len());
    more_constraints(total, problem.cons())
}

// The words of a certificate, and the ends of its lines.
fn word_count(certificate: &Certificate) -> u64
    ensures count { result ≡ counted (weight (certificate_lines certificate.now)) }
    ensures writes { CanWrite certificate.now }
{
    let total = problem_weight(certificate.problem());
    let total = more_solutions(more(total, 3, 0), certificate.solutions());
    more_derivations(more(total, 3, 0), certificate.derivations())
}

// With the bytes of a step's statement and the words of its reason.
fn more_step(total: u64, statements: &Statements, step: &Step) -> u64
    ensures { result ≡ counted (total + step_weight statements.now step.now) }
{
    let own = statements.own_bytes(step.stated).len() as u64;
    let row = statements.row_bytes(step.stated).len() as u64;
    let total = total.saturating_add(own).saturating_add(row);
    more_references(more(total, 8, 0), step.reason.references())
}

// With those of all steps.
fn more_steps(total: u64, statements: &Statements, steps: &[Step]) -> u64
    ensures { result ≡ counted (total + sum_by (step_weight statements.now) steps.now) }
{
    let mut total = total;
    for step in steps {
        total = more_step(total, statements, step);
    }
    total
}

/// Whether the problem has fewer than 2^48 words and lines, with the bytes of the solutions and the
/// statements and the words of the reasons.
pub(crate) fn are_countable(
    problem: &Problem,
    solutions: &[u8],
    statements: &Statements,
    steps: &[Step],
) -> bool
    ensures { IsTrue result → (c : CertificateMeant)
        → AreStepsOf c problem.now solutions.now statements.now steps.now
        → length (text_in statements.now.form c) < 2 ^ 64 }
{
    let total = more(problem_weight(problem), 3, 0);
    let total = more(total, solutions.len() as u64, 0);
    let total = more_steps(total, statements, steps);
    total < 1 << 48
}

/// Whether the text has fewer than 2^48 words and lines, each of at most 65,536 bytes.
pub(crate) fn is_countable(certificate: &Certificate) -> bool
    ensures words { IsTrue result ↔ (weight (certificate_lines certificate.now) < 2 ^ 48) }
    ensures bytes { IsTrue result
        → (form : Form) → length (text_in form certificate.now) < 2 ^ 64 }
    ensures writes { CanWrite certificate.now }
{
    let words = word_count(certificate);
    words < 1 << 48
}
