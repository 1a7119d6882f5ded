//! What a derivation is tested against, and the constraints that it may refer to.

ghost use Rattle.std.specs.Prelude.{◌≡◌, ◌∷◌, [], true, IsTrue, IfOk, OnOk, MatchResult};
ghost use Rattle.std.specs.FinSet as set;
ghost use Rattle.vipr_spec.specs.Constraint.{Profile as ProfileMeant, at, NamesBelow};
ghost use Rattle.vipr_spec.specs.Certificate.{Certificate, Derivation, variables};
ghost use Rattle.vipr_spec.specs.Steps.{earlier};
ghost use Rattle.vipr_linear.specs.Constraint.{condition_of};
ghost use Rattle.vipr_table.specs.Table.{DerivedBelow};
ghost use Rattle.vipr_table.specs.Unions.{union_so_far, has_noted, NotesAtMost};
ghost use Rattle.vipr_rules.specs.Context.{IsContextOf, IsKnownAs, row_found, set_of, set_found};
ghost use Rattle.vipr_rules.specs.Context.{is_assumed};
ghost use Rattle.vipr_rules.specs.Soundness.{IsSoundUnder, IsStatedAt};
ghost use Rattle.vipr_rules.specs.Apply.{index_tests, PassesTestsIn, StopsIn};

use crate::error::RuleError;
use crate::profile::Profile;
use std::alloc::{AllocError, Global};
use vipr_cert::Problem;
use vipr_frac::Frac;
use vipr_linear::Constraint;
use vipr_table::{Assumptions, Entry, Rows, Union};

/// What a derivation is tested against.
#[derive(Drop)]
pub struct Context<'a, S: Rows> {
    /// The rules.
    pub profile: Profile,
    /// The problem, whose constraints come first.
    pub problem: &'a Problem,
    /// The best objective value among the listed solutions, if one is listed.
    pub best: Option<&'a Frac>,
    /// The derived constraints.
    pub rows: &'a S,
}

/// A constraint that a derivation may refer to.
#[derive(Clone, Copy)]
pub(crate) enum Known<'a> {
    /// One of the problem, which rests on no assumption.
    Given(&'a Constraint),
    /// One that is derived, and live.
    Derived(&'a Entry),
}

impl<'a> Known<'a> {
    /// What it says.
    pub(crate) fn constraint(self) -> &'a Constraint
        ensures { result.now ≡ row_found self.entry }
    {
        match self {
            Known::Given(constraint) => constraint,
            Known::Derived(entry) => &entry.constraint,
        }
    }

    /// Whether it is an assumption.
    pub(crate) fn is_assumption(self) -> bool
        ensures { result ≡ is_assumed self.entry }
    {
        match self {
            Known::Given(_) => false,
            Known::Derived(entry) => entry.is_assumption,
        }
    }

    /// Whether it rests on no assumption.
    #[inline(always)]
    pub(crate) fn rests_on_nothing(self) -> bool
        ensures { IsTrue result → set_of self.entry ≡ set.empty }
    {
        match self {
            Known::Given(_) => true,
            Known::Derived(entry) => entry.assumptions.is_empty(),
        }
    }

    /// Adds the assumptions that it rests on to those of others.
    pub(crate) fn add_to(self, alloc: Global, others: &mut Union) -> Result<(), AllocError>
        ensures union { OnOk result
            (union_so_far others.new ≡ set.union (union_so_far others.old) (set_of self.entry)) }
        ensures noted { others.new.noted ≡ others.old.noted }
    {
        match self {
            Known::Given(_) => Ok(()),
            Known::Derived(entry) => others.add(alloc, &entry.assumptions),
        }
    }

    /// Adds the assumptions that it rests on, as constraint `index`, unless it was added so before.
    pub(crate) fn add_once_to(
        self,
        alloc: Global,
        index: u32,
        others: &mut Union,
    ) -> Result<(), AllocError>
        requires { IsTrue (has_noted others.old index)
            → union_so_far others.old ≡ set.union (union_so_far others.old) (set_of self) }
        ensures union { OnOk result
            (union_so_far others.new ≡ set.union (union_so_far others.old) (set_of self.entry)) }
        ensures noted { OnOk result (NotesAtMost index others.old others.new) }
    {
        match self {
            Known::Given(_) => Ok(()),
            Known::Derived(entry) => others.add_once(alloc, index, &entry.assumptions),
        }
    }

    /// The assumptions that it rests on but one.
    pub(crate) fn without(self, alloc: Global, index: u32) -> Result<Assumptions, AllocError>
        ensures { IfOk result (λ s. s ≡ set.remove (set_of self.entry) index) }
    {
        match self {
            Known::Given(_) => Ok(Assumptions::empty(alloc)),
            Known::Derived(entry) => entry.assumptions.without(alloc, index),
        }
    }

    /// The assumptions that two constraints rest on, but for one of each.
    pub(crate) fn joined_without(
        self,
        alloc: Global,
        index: u32,
        other: Known<'a>,
        other_index: u32,
    ) -> Result<Assumptions, AllocError>
        ensures { IfOk result (λ s. s ≡ set.union (set.remove (set_of self.entry) index)
            (set.remove (set_of other.entry) other_index)) }
    {
        match (self, other) {
            (Known::Given(_), _) => other.without(alloc, other_index),
            (_, Known::Given(_)) => self.without(alloc, index),
            (Known::Derived(first), Known::Derived(second)) => {
                let (first, second) = (&first.assumptions, &second.assumptions);
                first.union_without(alloc, index, second, other_index)
            }
        }
    }
}

impl<'a, S: Rows> Context<'a, S> {
    /// Tests that constraint `index` comes before the derivation.
    pub(crate) fn check_earlier(&self, index: u32) -> Result<(), RuleError>
        ensures { (P : ProfileMeant) (c : Certificate) (d : Derivation)
            → IsContextOf S.table P c self.now
            → MatchResult result (λ _. PassesTestsIn P c d (earlier index ∷ []))
            (StopsIn P c d (earlier index ∷ [])) }
    {
        if self.rows.next() <= index {
            return Err(RuleError::NotEarlier(index));
        }
        Ok(())
    }

    /// Constraint `index`, tested to come before the derivation and to be live there.
    #[inline(always)]
    pub(crate) fn find(&self, index: u32) -> Result<Known<'a>, RuleError>
        ensures known { (P : ProfileMeant) (c : Certificate) (d : Derivation)
            → IsContextOf S.table P c self.now
            → MatchResult result
            (λ k. PassesTestsIn P c d (index_tests index) × IsKnownAs c index k)
            (StopsIn P c d (index_tests index)) }
        ensures below { let n = variables self.now.problem.now in
            DerivedBelow n (S.table self.now.rows.now)
            → IfOk result (λ k. NamesBelow n (at (row_found k).row)) }
        ensures sound { IfOk result (λ k.
            IsSoundUnder S.table self.now (set_of k) (condition_of (row_found k))) }
        ensures stated { IfOk result (λ k.
            is_assumed k ≡ true → IsStatedAt S.table self.now index (row_found k)) }
        ensures set { IfOk result (λ k. set_of k ≡ set_found S.table self.now index) }
    {
        self.check_earlier(index)?;
        let given = self.problem.cons();
        if (index as usize) < given.len() {
            return Ok(Known::Given(&given[index as usize].item));
        }
        match self.rows.get(index) {
            Some(entry) => Ok(Known::Derived(entry)),
            None => Err(RuleError::Dropped(index)),
        }
    }
}
