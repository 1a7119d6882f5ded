//! The test that ends every rule: what was computed must dominate what is stated.

ghost use Rattle.std.specs.Prelude.{◌≡◌, ◌⊎◌, MatchResult};
ghost use Rattle.vipr_spec.specs.Constraint.{Dominates};
ghost use Rattle.vipr_linear.specs.Constraint.{condition_of};
ghost use Rattle.vipr_rules.specs.Apply.{IsNotDominated};
ghost use Rattle.vipr_rules.specs.declared.error.RuleError.TheVariants.{Memory};

use crate::error::{RuleError, not_dominated};
use std::alloc::Global;
use vipr_linear::Constraint;

/// Tests that the computed constraint dominates the stated one.
pub(crate) fn check_domination(
    alloc: Global,
    computed: &Constraint,
    stated: &Constraint,
) -> Result<(), RuleError>
    ensures { MatchResult result
        (λ _. Dominates (condition_of computed.now) (condition_of stated.now))
        (λ e. (e ≡ Memory) ⊎ IsNotDominated computed.now stated.now e) }
{
    if computed.dominates(stated) {
        return Ok(());
    }
    Err(not_dominated(alloc, computed, stated)?)
}
