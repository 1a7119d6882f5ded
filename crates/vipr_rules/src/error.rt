//! Why a derivation is refused.
//!
//! A [`RuleError`] names the first test that a derivation fails, and has what shows it: an index,
//! the position of an entry, or the constraints that don't go together. `Memory` is the one variant
//! that says nothing about the derivation.

ghost use Rattle.std.specs.Prelude.{◌≡◌, IfOk, Some, Ok, Err, MatchResult};
ghost use Rattle.vipr_spec.specs.Causes as cause;
ghost use Rattle.vipr_spec.specs.Steps.{sum as shown_sum, both, compared};
ghost use Rattle.vipr_linear.specs.Constraint.{condition_of};
ghost use Rattle.vipr_rules.specs.{Apply.shown_by, declared.error.RuleError.TheVariants.Memory};

use std::alloc::{AllocError, Global};
use vipr_linear::Constraint;
use vipr_table::Assumptions;

/// Why a derivation is refused, with what there is to show of it.
#[derive(Debug, Drop)]
pub enum RuleError {
    /// The constraint with this index doesn't come before the derivation.
    NotEarlier(u32),
    /// The constraint with this index isn't live before the derivation.
    Dropped(u32),
    /// The constraint with this index is no assumption.
    NotAssumption(u32),
    /// With the entry at this position, counted from 0, the sum is no longer suitable.
    MixedSigns(usize),
    /// With the entry at this position, counted from 0, a product or a partial sum is out of bound.
    Overflow(usize),
    /// This sum can't be rounded.
    NotRoundable(Box<Constraint>),
    /// These two assumptions are no split.
    NotSplit(Box<Constraint>, Box<Constraint>),
    /// What was computed doesn't dominate the stated constraint.
    NotDominated {
        /// What was computed.
        computed: Box<Constraint>,
        /// What is stated.
        stated: Box<Constraint>,
    },
    /// No solution is listed.
    NoSolution,
    /// A growth was refused.
    Memory,
}

impl From<AllocError> for RuleError {
    ghost use Rattle.std.specs.Prelude.{◌≡◌};
    ghost use Rattle.vipr_rules.specs.declared.error.RuleError.{RuleError};
    ghost use Rattle.vipr_rules.specs.declared.error.RuleError.TheVariants.{Memory};

    ghost from_gives = { λ _ e. e ≡ Memory };

    fn from(_error: AllocError) -> RuleError {
        RuleError::Memory
    }
}

/// The assumptions that were found, or that a growth was refused.
#[inline(always)]
pub(crate) fn or_memory(found: Result<Assumptions, AllocError>) -> Result<Assumptions, RuleError>
    ensures { MatchResult found (λ s. result ≡ Ok s) (λ _. result ≡ Err Memory) }
{
    match found {
        Ok(assumptions) => Ok(assumptions),
        Err(_) => Err(RuleError::Memory),
    }
}

/// The error that says that this sum can't be rounded.
pub(crate) fn not_roundable(alloc: Global, sum: Constraint) -> Result<RuleError, AllocError>
    ensures { IfOk result (λ e.
        shown_by e ≡ Some (cause.not_roundable, shown_sum (condition_of sum))) }
{
    Ok(RuleError::NotRoundable(Box::new(alloc, sum)?))
}

/// The error that says that these are no split.
pub(crate) fn not_split(
    alloc: Global,
    first: &Constraint,
    second: &Constraint,
) -> Result<RuleError, AllocError>
    ensures { IfOk result (λ e. shown_by e
        ≡ Some (cause.not_split, both (condition_of first.now) (condition_of second.now))) }
{
    let first = boxed(alloc, first)?;
    match boxed(alloc, second) {
        Ok(second) => Ok(RuleError::NotSplit(first, second)),
        Err(error) => {
            drop(first);
            Err(error)
        }
    }
}

/// The error that says that the one doesn't dominate the other.
pub(crate) fn not_dominated(
    alloc: Global,
    computed: &Constraint,
    stated: &Constraint,
) -> Result<RuleError, AllocError>
    ensures { IfOk result (λ e. shown_by e ≡ Some (
      cause.not_dominated,
      compared (condition_of computed.now) (condition_of stated.now),
    )) }
{
    let computed = boxed(alloc, computed)?;
    match boxed(alloc, stated) {
        Ok(stated) => Ok(RuleError::NotDominated { computed, stated }),
        Err(error) => {
            drop(computed);
            Err(error)
        }
    }
}

// A copy of the constraint, in a box.
fn boxed(alloc: Global, constraint: &Constraint) -> Result<Box<Constraint>, AllocError>
    ensures { IfOk result (λ b. b.value ≡ constraint.now) }
{
    Ok(Box::new(alloc, constraint.clone()?)?)
}
