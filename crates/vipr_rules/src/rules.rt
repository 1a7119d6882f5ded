//! The test of a derivation, by the rule of its reason.
//!
//! A derivation states a constraint and gives a reason for it. `asm` assumes it. `lin` adds up
//! multiples of earlier constraints, and `rnd` rounds that sum. `uns` joins two branches: what
//! follows from each of two assumptions that split holds without them. `sol` cuts off each point
//! that is no better than the best listed solution. What is computed, and under `uns` both
//! conclusions, must dominate the stated constraint.
//!
//! [`apply`] tests a derivation against the problem, the best value of the listed solutions and the
//! table of earlier constraints. It gives the [`Entry`] to be kept: the constraint with the
//! assumptions that it rests on and its last reference. [`apply_in`] does so by the rules of a
//! [`Profile`]. [`assumptions_of`] tests it against a [`Context`] and gives the assumptions alone,
//! and [`take_entry`] makes the entry: it moves the constraint out of the derivation. An error is
//! the first test that fails, with what shows it.

ghost use Rattle.std.specs.Prelude.{◌≡◌, ℕ, length, Some, IfOk, IsOk, option_copied};
ghost use Rattle.vipr_spec.specs.Constraint.{Profile as ProfileMeant, one, Condition, Point};
ghost use Rattle.vipr_spec.specs.Certificate.{Certificate, variables, asm, sol};
ghost use Rattle.vipr_spec.specs.Certificate.{Derivation as DerivationMeant};
ghost use Rattle.vipr_spec.specs.Certificate.{is_assumption as is_assumption_by};
ghost use Rattle.vipr_linear.specs.Constraint.{condition_of};
ghost use Rattle.vipr_cert.specs.Items.{derivation_of, reason_of};
ghost use Rattle.vipr_table.specs.Table.{DerivedBelow};
ghost use Rattle.vipr_rules.specs.Soundness.{IsSoundAt, IsTrueUnder};
ghost use Rattle.vipr_rules.specs.Apply.{IsRuledBy, Applies, FindsSetIn, entry_resting_on};
ghost use Rattle.vipr_rules.specs.Apply.{answer_with_entry};
ghost use Rattle.vipr_rules.specs.{Context.IsContextOf, Profile.profile_of};

use crate::branches::{Branch, assumptions_of_branches, join_branches};
use crate::context::Context;
use crate::cutoff::cut_off;
use crate::error::{RuleError, or_memory};
use crate::profile::Profile;
use crate::sum::{Computed, assumptions_of_sum, combine};
use std::alloc::Global;
use std::mem::replace;
use vipr_cert::{Derivation, Problem, Reason};
use vipr_frac::Frac;
use vipr_linear::{Combination, Constraint, Row, Sense};
use vipr_table::{Assumptions, Entry, Rows};

/// Tests a derivation against the problem, the best objective value among the listed solutions and
/// the table of earlier derivations, and gives what is to be kept of it.
///
/// `scratch` is made for the problem's number of variables; what it holds doesn't matter.
///
/// # Errors
///
/// The first test that the derivation fails, with what shows it.
pub fn apply<S: Rows>(
    alloc: Global,
    p: &Problem,
    best: Option<&Frac>,
    rows: &S,
    scratch: &mut Combination,
    step: &Derivation,
) -> Result<Entry, RuleError>
    requires variables { length scratch.old.sums ≡ variables p.now }
    requires rows { DerivedBelow (variables p.now) (S.table rows.now) }
    ensures applies { Applies one p.now (option_copied best.entry)
        (S.table rows.now) step.now result }
    ensures variables { length scratch.new.sums ≡ length scratch.old.sums }
{
    apply_in(alloc, Profile::One, p, best, rows, scratch, step)
}

/// Applies a derivation's reason by the rules of `profile`.
///
/// `scratch` is made for the problem's number of variables; what it holds doesn't matter.
///
/// # Errors
///
/// The first test that the derivation fails, with what shows it.
pub fn apply_in<S: Rows>(
    alloc: Global,
    profile: Profile,
    p: &Problem,
    best: Option<&Frac>,
    rows: &S,
    scratch: &mut Combination,
    step: &Derivation,
) -> Result<Entry, RuleError>
    requires variables { length scratch.old.sums ≡ variables p.now }
    requires rows { DerivedBelow (variables p.now) (S.table rows.now) }
    ensures applies { Applies (profile_of profile) p.now (option_copied best.entry)
        (S.table rows.now) step.now result }
    ensures variables { length scratch.new.sums ≡ length scratch.old.sums }
{
    let context = Context {
        profile,
        problem: p,
        best,
        rows,
    };
    let assumptions = test_by_rule(alloc, &context, scratch, step)?;
    match step.constraint.clone() {
        Ok(constraint) => Ok(Entry {
            constraint,
            assumptions,
            is_assumption: is_assumption(&step.reason),
            last: step.last,
        }),
        Err(_) => {
            drop(assumptions);
            Err(RuleError::Memory)
        }
    }
}

/// Applies a derivation's reason, and gives the assumptions that its constraint rests on.
///
/// `scratch` is made for the problem's number of variables; what it holds doesn't matter.
///
/// # Errors
///
/// The first test that the derivation fails, with what shows it.
#[inline(always)]
pub fn assumptions_of<S: Rows>(
    alloc: Global,
    context: &Context<S>,
    scratch: &mut Combination,
    step: &Derivation,
) -> Result<Assumptions, RuleError>
    requires variables { length scratch.old.sums ≡ variables context.now.problem.now }
    requires rows { let n = variables context.now.problem.now in
        DerivedBelow n (S.table context.now.rows.now) }
    ensures applies { let x = context.now in
        Applies (profile_of x.profile) x.problem.now (option_copied x.best) (S.table x.rows.now)
        step.now (answer_with_entry step.now result) }
    // An assumption passes, and wants no memory.
    ensures assumed { reason_of step.now.reason ≡ asm → IsOk result }
    ensures variables { length scratch.new.sums ≡ length scratch.old.sums }
{
    test_by_rule(alloc, context, scratch, step)
}

/// The assumptions that a derivation by this reason rests on. Only its references are tested.
///
/// # Errors
///
/// The first reference that isn't earlier or isn't live, or `RuleError::Memory` if a growth is
/// refused. `asm` and `sol` name nothing and want no memory, so they give none.
pub fn assumptions_by_reason<S: Rows>(
    alloc: Global,
    context: &Context<S>,
    reason: &Reason,
) -> Result<Assumptions, RuleError>
    ensures found { (P : ProfileMeant) (c : Certificate) (d : DerivationMeant)
        → IsContextOf S.table P c context.now → d.reason ≡ reason_of reason.now
        → FindsSetIn P c d result }
    ensures assumed { reason_of reason.now ≡ asm → IsOk result }
    ensures cut { reason_of reason.now ≡ sol → IsOk result }
{
    match reason {
        Reason::Asm => Ok(Assumptions::single(alloc, context.rows.next())?),
        Reason::Lin(entries) | Reason::Rnd(entries) => assumptions_of_sum(alloc, context, entries),
        Reason::Uns { i1, l1, i2, l2 } => {
            let (first, second) = (Branch::of(*i1, *l1), Branch::of(*i2, *l2));
            assumptions_of_branches(alloc, context, first, second)
        }
        Reason::Sol => Ok(Assumptions::empty(alloc)),
    }
}

/// What is kept of a derivation that rests on these assumptions. Its constraint is moved out of it.
#[inline(always)]
pub fn take_entry(alloc: Global, step: &mut Derivation, assumptions: Assumptions) -> Entry
    ensures kept { result ≡ entry_resting_on step.old assumptions }
    ensures named { step.new.name ≡ step.old.name }
{
    Entry {
        constraint: replace(&mut step.constraint, nothing_stated(alloc)),
        assumptions,
        is_assumption: is_assumption(&step.reason),
        last: step.last,
    }
}

// A constraint without variables. Takes no memory.
fn nothing_stated(alloc: Global) -> Constraint {
    Constraint {
        row: Row::of_one(alloc, 0, Frac::zero()),
        sense: Sense::E,
        rhs: Frac::zero(),
    }
}

/// Tests a derivation by the rule of its reason, and gives the assumptions that it rests on.
fn test_by_rule<S: Rows>(
    alloc: Global,
    context: &Context<S>,
    scratch: &mut Combination,
    step: &Derivation,
) -> Result<Assumptions, RuleError>
    requires variables { length scratch.old.sums ≡ variables context.now.problem.now }
    requires rows { let n = variables context.now.problem.now in
        DerivedBelow n (S.table context.now.rows.now) }
    ensures ruled { (P : ProfileMeant) (c : Certificate) → IsContextOf S.table P c context.now
        → IsRuledBy P c (derivation_of step.now) (reason_of step.now.reason) result }
    ensures sound { IfOk result (λ s. (says : ℕ → Condition) (x : Point)
        → IsSoundAt S.table context.now says x
        → says (S.table context.now.rows.now).next ≡ condition_of step.now.constraint
        → IsTrueUnder (variables context.now.problem.now) says s
        (condition_of step.now.constraint) x) }
    ensures assumed { reason_of step.now.reason ≡ asm → IsOk result }
    ensures variables { length scratch.new.sums ≡ length scratch.old.sums }
{
    let stated = &step.constraint;
    match &step.reason {
        Reason::Asm => or_memory(Assumptions::single(alloc, context.rows.next())),
        Reason::Lin(entries) => combine(alloc, context, scratch, stated, entries, Computed::Sum),
        Reason::Rnd(entries) => {
            combine(alloc, context, scratch, stated, entries, Computed::Rounding)
        }
        Reason::Uns { i1, l1, i2, l2 } => {
            let (first, second) = (Branch::of(*i1, *l1), Branch::of(*i2, *l2));
            join_branches(alloc, context, stated, first, second)
        }
        Reason::Sol => cut_off(alloc, context, stated),
    }
}

fn is_assumption(reason: &Reason) -> bool
    ensures { result ≡ is_assumption_by (Some (reason_of reason.now)) }
{
    matches!(reason, Reason::Asm)
}
