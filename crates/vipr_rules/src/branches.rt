//! The rule that joins two branches: what follows from each of two assumptions that split holds
//! without them.

ghost use Rattle.std.specs.Prelude.{◌≡◌, ◌⊎◌, ◌∷◌, [], ℕ, true, IfOk, OnOk, MatchResult};
ghost use Rattle.vipr_spec.specs.Constraint.{Profile as ProfileMeant, IsSplit};
ghost use Rattle.vipr_spec.specs.Certificate.{Certificate, Derivation, constraint_at, uns};
ghost use Rattle.vipr_spec.specs.Steps.{assumed, split};
ghost use Rattle.vipr_linear.specs.Constraint.{condition_of};
ghost use Rattle.vipr_rules.specs.Context.{IsContextOf, IsKnownAs, is_assumed};
ghost use Rattle.vipr_rules.specs.Apply.{FindsSetBy, PassesTestsIn, StopsIn, IsRuledIn};
ghost use Rattle.vipr_rules.specs.declared.error.RuleError.TheVariants.{Memory};
ghost use Rattle.vipr_rules.specs.{Profile.profile_of, Soundness.IsSoundUnder};

use crate::context::{Context, Known};
use crate::domination::check_domination;
use crate::error::{RuleError, not_split, or_memory};
use crate::profile::Profile;
use std::alloc::Global;
use vipr_linear::{Constraint, Ints};
use vipr_table::{Assumptions, Rows};

/// A branch, by the indices of two constraints.
#[derive(Clone, Copy)]
pub(crate) struct Branch {
    /// What was shown in the branch.
    pub(crate) conclusion: u32,
    /// What the branch assumes.
    pub(crate) assumption: u32,
}

impl Branch {
    /// The branch of these two constraints.
    pub(crate) fn of(conclusion: u32, assumption: u32) -> Branch
        ensures { result ≡ record { conclusion = conclusion; assumption = assumption } }
    {
        Branch {
            conclusion,
            assumption,
        }
    }
}

/// Tests a derivation by `uns`, and gives the assumptions that it rests on.
pub(crate) fn join_branches<S: Rows>(
    alloc: Global,
    context: &Context<S>,
    stated: &Constraint,
    first: Branch,
    second: Branch,
) -> Result<Assumptions, RuleError>
    ensures ruled { IsRuledIn S.table context.now stated.now
        (uns first.conclusion first.assumption second.conclusion second.assumption) result }
    ensures sound { IfOk result (λ s.
        IsSoundUnder S.table context.now s (condition_of stated.now)) }
{
    let first_conclusion = context.find(first.conclusion)?;
    let first_assumption = context.find(first.assumption)?;
    let second_conclusion = context.find(second.conclusion)?;
    let second_assumption = context.find(second.assumption)?;
    let (l1, l2) = (first.assumption, second.assumption);
    let split = check_split(
        alloc,
        context.profile,
        first_assumption.constraint(),
        second_assumption.constraint(),
        context.problem.ints(),
    );
    let tested = check_assumption(l1, first_assumption)
        .and(check_assumption(l2, second_assumption))
        .and(split)
        .and(check_domination(alloc, first_conclusion.constraint(), stated))
        .and(check_domination(alloc, second_conclusion.constraint(), stated));
    let joined = first_conclusion.joined_without(alloc, l1, second_conclusion, l2);
    tested.and(or_memory(joined))
}

/// The assumptions that two joined branches rest on. Only their references are tested.
pub(crate) fn assumptions_of_branches<S: Rows>(
    alloc: Global,
    context: &Context<S>,
    first: Branch,
    second: Branch,
) -> Result<Assumptions, RuleError>
    ensures { (P : ProfileMeant) (c : Certificate) (d : Derivation)
        → IsContextOf S.table P c context.now → FindsSetBy P c d
        (uns first.conclusion first.assumption second.conclusion second.assumption) result }
{
    let first_conclusion = context.find(first.conclusion)?;
    context.find(first.assumption)?;
    let second_conclusion = context.find(second.conclusion)?;
    context.find(second.assumption)?;
    let (l1, l2) = (first.assumption, second.assumption);
    or_memory(first_conclusion.joined_without(alloc, l1, second_conclusion, l2))
}

fn check_assumption(index: u32, known: Known) -> Result<(), RuleError>
    ensures tests { (P : ProfileMeant) (c : Certificate) (d : Derivation)
        → IsKnownAs c index known.entry
        → MatchResult result (λ _. PassesTestsIn P c d (assumed index ∷ []))
        (StopsIn P c d (assumed index ∷ [])) }
    ensures ok { OnOk result (is_assumed known.entry ≡ true) }
{
    if known.is_assumption() {
        Ok(())
    } else {
        Err(RuleError::NotAssumption(index))
    }
}

fn check_split(
    alloc: Global,
    profile: Profile,
    first: &Constraint,
    second: &Constraint,
    ints: &Ints,
) -> Result<(), RuleError>
    ensures tests { (P : ProfileMeant) (c : Certificate) (d : Derivation) (l1 l2 : ℕ)
        → P ≡ profile_of profile → c.problem.integers ≡ ints.now
        → condition_of first.now ≡ constraint_at c l1 → condition_of second.now ≡ constraint_at c l2
        → MatchResult result (λ _. PassesTestsIn P c d (split l1 l2 ∷ []))
        (λ e. (e ≡ Memory) ⊎ StopsIn P c d (split l1 l2 ∷ []) e) }
    ensures ok { OnOk result
        (IsSplit (profile_of profile) ints.now (condition_of first.now) (condition_of second.now)) }
{
    if profile.splits(first, second, ints) {
        return Ok(());
    }
    Err(not_split(alloc, first, second)?)
}
