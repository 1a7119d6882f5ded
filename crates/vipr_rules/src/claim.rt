//! Both sides of a claim: what a constraint must say to prove its dual bound, and whether the best
//! listed solution meets its primal bound.

ghost use Rattle.std.specs.Prelude.{◌≡◌, ◌↔◌, ◌++◌, ◌∷◌, [], List, IfOk, IsTrue, option_copied};
ghost use Rattle.vipr_spec.specs.Constraint.{two, Row, at, IsWholeRow};
ghost use Rattle.vipr_spec.specs.Certificate.{Named, objective_at, objective_constraint, stays};
ghost use Rattle.vipr_spec.specs.Certificate.{IsAsGood, MeetsPrimal, dual_bound as dual_bound_by};
ghost use Rattle.vipr_spec.specs.Certificate.{primal_bound as primal_bound_by};
ghost use Rattle.vipr_spec.specs.{Soundness.IsBestValue, Tests.finite_primal};
ghost use Rattle.vipr_linear.specs.Constraint.{sense_of, condition_of};
ghost use Rattle.vipr_rules.specs.Profile.{profile_of};
ghost use Rattle.vipr_rules.specs.Claim.{MeetsWhole, IsMetBy, IsTargetIn};

use crate::profile::Profile;
use std::alloc::AllocError;
use vipr_cert::{Claim, Goal, Problem};
use vipr_frac::Frac;
use vipr_linear::{Constraint, Sense, is_whole_row};

/// What a constraint must say to prove the dual side of a claim.
#[derive(Debug, Drop)]
pub enum Target {
    /// Infeasibility is claimed: the constraint must be absurd.
    Absurdity,
    /// The constraint must dominate this one, the objective with the dual bound.
    Bound(Constraint),
    /// The constraint must dominate this one. The objective is whole at each point that is whole at
    /// the integer variables, so a constraint with its row may be rounded first.
    WholeBound(Constraint),
    /// The dual bound is infinite: nothing has to be proved.
    Nothing,
}

impl Target {
    /// The target of a problem's claim by the rules of `profile`.
    ///
    /// # Errors
    ///
    /// A growth is refused.
    pub fn of_claim_in(profile: Profile, p: &Problem) -> Result<Target, AllocError>
        ensures { IfOk result (IsTargetIn (profile_of profile) p.now) }
    {
        let Claim::Range(lower, upper) = p.claim() else {
            return Ok(Target::Absurdity);
        };
        let Some(bound) = dual_bound(p, lower, upper) else {
            return Ok(Target::Nothing);
        };
        let goal = no_better(p, bound)?;
        if may_round(profile, p) {
            Ok(Target::WholeBound(goal))
        } else {
            Ok(Target::Bound(goal))
        }
    }

    /// Whether the constraint says what it must.
    pub fn is_met_by(&self, constraint: &Constraint) -> bool
        ensures { IsTrue result ↔ IsMetBy self.now (condition_of constraint.now) }
    {
        match self {
            Target::Absurdity => constraint.is_absurd(),
            Target::Bound(bound) => constraint.dominates(bound),
            Target::WholeBound(bound) => meets_whole(bound, constraint),
            Target::Nothing => false,
        }
    }
}

// Whether the constraint dominates the bound of a whole objective, or has its row and does so by
// rounding.
fn meets_whole(bound: &Constraint, constraint: &Constraint) -> bool
    ensures { IsTrue result ↔ MeetsWhole (condition_of bound.now) (condition_of constraint.now) }
{
    constraint.dominates(bound)
        || (constraint.row.is_same(&bound.row) && constraint.dominates_rounded(bound))
}

// Whether a bound of the objective may be rounded.
fn may_round(profile: Profile, p: &Problem) -> bool
    ensures { IsTrue result
        ↔ ((profile_of profile ≡ two) × IsWholeRow p.now.integers (at p.now.objective)) }
{
    profile == Profile::Two && is_whole_row(p.objective(), p.ints())
}

/// Whether the best value among the listed solutions, none if no solution is listed, meets the
/// primal side of the claim.
pub fn meets_primal(p: &Problem, best: Option<&Frac>) -> bool
    ensures { (ss : List (Named Row)) → IsBestValue p.now ss (option_copied best.entry)
        → IsTrue result ↔ MeetsPrimal p.now ss p.now.claim }
{
    let Some(bound) = claimed_primal(p) else {
        return true;
    };
    let Some(value) = best else {
        return false;
    };
    is_as_good(p, *value, bound)
}

/// The primal bound that is claimed, none if it is infinite or infeasibility is claimed.
pub fn claimed_primal(p: &Problem) -> Option<Frac>
    ensures { result ≡ finite_primal p.now p.now.claim }
{
    match p.claim() {
        Claim::Infeas => None,
        Claim::Range(lower, upper) => primal_bound(p, lower, upper),
    }
}

/// The best value with one more solution, whose value is `value`.
pub fn better(p: &Problem, best: Option<Frac>, value: Frac) -> Option<Frac>
    ensures { (ss : List (Named Row)) (s : Named Row) → IsBestValue p.now ss best
        → value ≡ objective_at p.now (at s.item) → IsBestValue p.now (ss ++ s ∷ []) result }
{
    let Some(found) = best else {
        return Some(value);
    };
    if is_as_good(p, found, value) {
        Some(found)
    } else {
        Some(value)
    }
}

/// Whether a value of the objective is as good as another.
fn is_as_good(p: &Problem, value: Frac, other: Frac) -> bool
    ensures { IsTrue result ↔ IsAsGood p.now.direction value other }
{
    match p.sense() {
        Goal::Min => value <= other,
        Goal::Max => value >= other,
    }
}

fn dual_bound(p: &Problem, lower: Option<Frac>, upper: Option<Frac>) -> Option<Frac>
    ensures { result ≡ dual_bound_by p.now.direction lower upper }
{
    match p.sense() {
        Goal::Min => lower,
        Goal::Max => upper,
    }
}

fn primal_bound(p: &Problem, lower: Option<Frac>, upper: Option<Frac>) -> Option<Frac>
    ensures { result ≡ primal_bound_by p.now.direction lower upper }
{
    match p.sense() {
        Goal::Min => upper,
        Goal::Max => lower,
    }
}

/// The objective that is no better than the bound.
fn no_better(p: &Problem, bound: Frac) -> Result<Constraint, AllocError>
    ensures { IfOk result
        (λ x. condition_of x ≡ objective_constraint p.now (stays p.now.direction) bound) }
{
    let sense = match p.sense() {
        Goal::Min => Sense::G,
        Goal::Max => Sense::L,
    };
    objective_with(p, sense, bound)
}

/// The objective with this sense and right-hand side.
pub(crate) fn objective_with(p: &Problem, sense: Sense, rhs: Frac) -> Result<Constraint, AllocError>
    ensures { IfOk result (λ x. condition_of x ≡ objective_constraint p.now (sense_of sense) rhs) }
{
    Ok(Constraint {
        row: p.objective().clone()?,
        sense,
        rhs,
    })
}
