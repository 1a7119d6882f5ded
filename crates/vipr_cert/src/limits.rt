//! Tests of the format's limits, and what the types of the parts promise of their numbers.
ghost use Rattle.std.specs.Prelude.{◌↔◌, ℕ, ◌<◌, ◌≤◌, All, IfSome, IsTrue, map};
ghost use Rattle.vipr_spec.specs.Constraint.{IsInteger};
ghost use Rattle.vipr_spec.specs.Shape.{EntryFits, ClaimFits, ReasonShape, ReasonFits};
ghost use Rattle.vipr_spec.specs.{Fraction.IsBounded, Reading.most_count, Tokens.IsToken};
ghost use Rattle.vipr_cert.specs.Items.{claim_of, reason_of};

use crate::items::{Claim, Derivation, Named, Reason, References};
use crate::name::Name;
use vipr_frac::Frac;
use vipr_linear::{Constraint, Ints, Solution};

/// An item that names variables.
pub(crate) trait NamesVariables {
    /// What the definitions say that it is.
    ghost Meant: { Type 0 };

    ghost view: { Self → Meant };

    /// It is within the limits, over so many variables.
    ghost shape: { ℕ → Meant → Type 0 };

    /// Its numbers can be written.
    ghost fits: { Meant → Type 0 };

    /// Whether it names variables below `n` alone, and has no more entries than a count may be.
    fn is_within(&self, n: u32) -> bool
        ensures shape { IsTrue result ↔ shape n (view self.now) }
        ensures fits { fits (view self.now) };
}

impl NamesVariables for Named<Constraint> {
    ghost use Rattle.vipr_spec.specs.Certificate.{Named as NamedMeant};
    ghost use Rattle.vipr_spec.specs.Constraint.{Constraint as ConstraintMeant};
    ghost use Rattle.vipr_spec.specs.Shape.{ConstraintShape, ConstraintFits};
    ghost use Rattle.vipr_linear.specs.Constraint.{constraint_of};
    ghost use Rattle.vipr_cert.specs.Items.{named_of};

    ghost Meant = { NamedMeant ConstraintMeant };

    ghost view = { named_of constraint_of };

    ghost shape = { ConstraintShape };

    ghost fits = { λ c. ConstraintFits c.item };

    fn is_within(&self, n: u32) -> bool {
        let (_, _, _) = (
            self.name.as_bytes(),
            self.item.row.entries(),
            self.item.rhs.denom(),
        );
        self.item.row.names_below(n)
    }
}

impl NamesVariables for Named<Solution> {
    ghost use Rattle.vipr_spec.specs.Certificate.{Named as NamedMeant};
    ghost use Rattle.vipr_spec.specs.Constraint.{Row};
    ghost use Rattle.vipr_spec.specs.Shape.{SolutionShape, RowFits};
    ghost use Rattle.vipr_cert.specs.Items.{solution_of};

    ghost Meant = { NamedMeant Row };

    ghost view = { solution_of };

    ghost shape = { SolutionShape };

    ghost fits = { λ s. RowFits s.item };

    fn is_within(&self, n: u32) -> bool {
        let (_, _) = (self.name.as_bytes(), self.item.0.entries());
        self.item.0.names_below(n)
    }
}

impl NamesVariables for Derivation {
    ghost use Rattle.vipr_spec.specs.Certificate.{Derivation as DerivationMeant};
    ghost use Rattle.vipr_spec.specs.Shape.{DerivationShape, DerivationFits};
    ghost use Rattle.vipr_cert.specs.Items.{derivation_of};

    ghost Meant = { DerivationMeant };

    ghost view = { derivation_of };

    ghost shape = { DerivationShape };

    ghost fits = { DerivationFits };

    fn is_within(&self, n: u32) -> bool {
        let Constraint { row, rhs, .. } = &self.constraint;
        let (_, _, _) = (self.name.as_bytes(), row.entries(), rhs.denom());
        reference_fits(self.last);
        is_short(&self.reason) && row.names_below(n)
    }
}

/// Whether each item names variables below `n` alone, and has no more entries than a count may be.
pub(crate) fn are_within<T: NamesVariables>(items: &[T], n: u32) -> bool
    ensures shape { IsTrue result ↔ All (T.shape n) (map T.view items.now) }
    ensures fits { IsTrue result → All T.fits (map T.view items.now) }
{
    for item in items {
        if !item.is_within(n) {
            return false;
        }
    }
    true
}

/// Whether a number is no larger than a count may be.
pub(crate) fn is_count(n: usize) -> bool
    ensures { IsTrue result ↔ (n ≤ most_count) }
{
    n <= u32::MAX as usize
}

/// Whether the members are variables below `n`.
pub(crate) fn are_below(ints: &Ints, n: u32) -> bool
    ensures { IsTrue result ↔ ((j : ℕ) → IsInteger ints.now j → j < n) }
{
    ints.indices().iter().all(|j| *j < n)
}

// Whether there are no more entries than a count may be.
fn is_short(reason: &Reason) -> bool
    ensures shape { IsTrue result ↔ ReasonShape (reason_of reason.now) }
    ensures fits { ReasonFits (reason_of reason.now) }
{
    match reason.references() {
        References::Entries(sum) => {
            entries_fit(sum);
            is_count(sum.len())
        }
        References::Nothing | References::Branches { .. } => true,
    }
}

// ---- What the types of the parts promise; there is nothing to compute.

/// Each name is a token.
pub(crate) fn names_are_tokens(names: &[Name])
    ensures { All IsToken names.now }
{
    for name in names {
        let _ = name.as_bytes();
    }
}

/// The bounds of a claim are bounded.
pub(crate) fn claim_fits(claim: &Claim)
    ensures { ClaimFits (claim_of claim.now) }
{
    if let Claim::Range(lower, upper) = claim {
        bound_fits(*lower);
        bound_fits(*upper);
    }
}

fn bound_fits(bound: Option<Frac>)
    ensures { IfSome bound IsBounded }
{
    if let Some(x) = bound {
        let _ = x.denom();
    }
}

fn reference_fits(last: Option<u32>)
    ensures { IfSome last (λ i. i ≤ most_count) }
{
    if let Some(i) = last {
        let _ = i;
    }
}

fn entry_fits(entry: &(u32, Frac))
    ensures { EntryFits entry.now }
{
    let (_index, multiplier) = *entry;
    let _ = multiplier.denom();
}

fn entries_fit(entries: &[(u32, Frac)])
    ensures { All EntryFits entries.now }
{
    for each in entries {
        entry_fits(each);
    }
}
