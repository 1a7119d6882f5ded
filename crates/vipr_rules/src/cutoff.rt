//! The rule by which the best listed solution cuts off every point that is no better.

ghost use Rattle.std.specs.Prelude.{◌≡◌, IfOk};
ghost use Rattle.vipr_spec.specs.Certificate.{objective_constraint, reaches, sol as by_sol};
ghost use Rattle.vipr_linear.specs.Constraint.{condition_of};
ghost use Rattle.vipr_rules.specs.{Apply.IsRuledIn, Soundness.IsSoundUnder};

use crate::claim::objective_with;
use crate::context::Context;
use crate::domination::check_domination;
use crate::error::RuleError;
use std::alloc::{AllocError, Global};
use vipr_cert::{Goal, Problem};
use vipr_frac::Frac;
use vipr_linear::{Constraint, Sense};
use vipr_table::{Assumptions, Rows};

/// Tests a derivation by `sol`, which rests on no assumption.
pub(crate) fn cut_off<S: Rows>(
    alloc: Global,
    context: &Context<S>,
    stated: &Constraint,
) -> Result<Assumptions, RuleError>
    ensures ruled { IsRuledIn S.table context.now stated.now by_sol result }
    ensures sound { IfOk result (λ s.
        IsSoundUnder S.table context.now s (condition_of stated.now)) }
{
    let Some(value) = context.best else {
        return Err(RuleError::NoSolution);
    };
    let computed = cutoff(context.problem, *value)?;
    let tested = check_domination(alloc, &computed, stated);
    drop(computed);
    tested.and(Ok(Assumptions::empty(alloc)))
}

/// The objective with this value as right-hand side: at most that if it is to be small, at least
/// if it is to be large.
fn cutoff(p: &Problem, value: Frac) -> Result<Constraint, AllocError>
    ensures { IfOk result (λ x.
        condition_of x ≡ objective_constraint p.now (reaches p.now.direction) value) }
{
    let sense = match p.sense() {
        Goal::Min => Sense::L,
        Goal::Max => Sense::G,
    };
    objective_with(p, sense, value)
}
