//! The rules by which a sum of constraints, or its rounding, dominates the stated one.

ghost use Rattle.std.specs.Prelude.{◌≡◌, ◌⊎◌, ◌∷◌, ◌++◌, [], List, ℕ, true, false};
ghost use Rattle.std.specs.Prelude.{flat_map, length, IsTrue, IfOk, IfErr, IfSome, OnOk};
ghost use Rattle.std.specs.Prelude.{MatchOption, MatchResult};
ghost use Rattle.std.specs.FinSet as set;
ghost use Rattle.vipr_spec.specs.Constraint.{Profile, Entry as Summand, at, condition, NamesBelow};
ghost use Rattle.vipr_spec.specs.Constraint.{IsWholeRow, DominatesRounded};
ghost use Rattle.vipr_spec.specs.Certificate.{Certificate, Derivation, lin, variables};
ghost use Rattle.vipr_spec.specs.Steps.{reference_tests, sum_tests, roundable, by_rounding, IsSum};
ghost use Rattle.vipr_spec.specs.{Fraction.ℚ, Reading.is_nonzero};
ghost use Rattle.vipr_linear.specs.Accumulator.{Holds, held_condition};
ghost use Rattle.vipr_linear.specs.Constraint.{condition_of};
ghost use Rattle.vipr_table.specs.Table.{DerivedBelow};
ghost use Rattle.vipr_table.specs.Unions.{union_so_far, has_noted, NotesAtMost};
ghost use Rattle.vipr_rules.specs.Context.{IsContextOf, IsKnownAs, IsSetOfAll, row_found, set_of};
ghost use Rattle.vipr_rules.specs.Context.{set_found};
ghost use Rattle.vipr_rules.specs.Soundness.{IsSoundUnder};
ghost use Rattle.vipr_rules.specs.Apply.{PassesTestsIn, StopsIn, SumStops, IsRuledIn};
ghost use Rattle.vipr_rules.specs.Apply.{DominatesBy, FindsSetBy, computed_tests, reason_by};
ghost use Rattle.vipr_rules.specs.declared.error.RuleError.TheVariants.{Memory};

use crate::context::{Context, Known};
use crate::domination::check_domination;
use crate::error::{RuleError, not_roundable, or_memory};
use std::alloc::{AllocError, Global};
use vipr_frac::Frac;
use vipr_linear::{CombError, Combination, Constraint, Ints, NotRoundable, Rounded};
use vipr_table::{Assumptions, Rows, Union};

// A sum of more entries adds the assumptions of a constraint once, however often it is named.
const FEW_ENTRIES: usize = 8;

/// What has to dominate the stated constraint.
#[derive(Clone, Copy)]
pub(crate) enum Computed {
    /// The sum of the entries.
    Sum,
    /// Its rounding.
    Rounding,
}

/// Tests a derivation by `lin` or `rnd`, and gives the assumptions that it rests on.
pub(crate) fn combine<S: Rows>(
    alloc: Global,
    context: &Context<S>,
    scratch: &mut Combination,
    stated: &Constraint,
    entries: &[(u32, Frac)],
    computed: Computed,
) -> Result<Assumptions, RuleError>
    requires variables { length scratch.old.sums ≡ variables context.now.problem.now }
    requires rows { let n = variables context.now.problem.now in
        DerivedBelow n (S.table context.now.rows.now) }
    ensures ruled { IsRuledIn S.table context.now stated.now (reason_by computed entries.now)
        result }
    ensures sound { IfOk result (λ s.
        IsSoundUnder S.table context.now s (condition_of stated.now)) }
    ensures variables { length scratch.new.sums ≡ length scratch.old.sums }
{
    let mut assumptions = Union::new(alloc);
    match add_up(alloc, context, scratch, entries, &mut assumptions) {
        Ok(()) => {
            let ints = context.problem.ints();
            let tested = check_computed(alloc, scratch, ints, stated, computed);
            tested.and(or_memory(assumptions.finish(alloc)))
        }
        Err(error) => {
            drop(assumptions);
            Err(error)
        }
    }
}

/// The assumptions that a sum of these entries rests on. Only its references are tested.
pub(crate) fn assumptions_of_sum<S: Rows>(
    alloc: Global,
    context: &Context<S>,
    entries: &[(u32, Frac)],
) -> Result<Assumptions, RuleError>
    ensures { (P : Profile) (c : Certificate) (d : Derivation)
        → IsContextOf S.table P c context.now → FindsSetBy P c d (lin entries.now) result }
{
    let mut assumptions = Union::new(alloc);
    for entry in entries {
        let Some(used) = find_used(context, entry)? else {
            continue;
        };
        join(alloc, used, entry.0, entries.len(), &mut assumptions)?;
    }
    or_memory(assumptions.finish(alloc))
}

// Tests that the sum, or its rounding, dominates the stated constraint. The sum becomes a
// constraint only where it doesn't, for what is reported then.
#[inline(always)]
fn check_computed(
    alloc: Global,
    scratch: &mut Combination,
    ints: &Ints,
    stated: &Constraint,
    computed: Computed,
) -> Result<(), RuleError>
    requires fresh { scratch.old.spent ≡ false }
    ensures tests { (P : Profile) (c : Certificate) (d : Derivation) (es : List (ℕ × ℚ))
        → IsSum c es (held_condition scratch.old) → c.problem.integers ≡ ints.now
        → condition_of stated.now ≡ condition d.stated
        → MatchResult result (λ _. PassesTestsIn P c d (computed_tests computed es))
        (λ e. (e ≡ Memory) ⊎ StopsIn P c d (computed_tests computed es) e) }
    ensures follows { OnOk result
        (DominatesBy computed ints.now (held_condition scratch.old) (condition_of stated.now)) }
    ensures variables { length scratch.new.sums ≡ length scratch.old.sums }
{
    let follows = match computed {
        Computed::Sum => scratch.dominates(stated),
        Computed::Rounding => scratch.rounds_to(ints, stated),
    };
    if follows {
        return Ok(());
    }
    check_finished(alloc, scratch, ints, stated, computed)
}

// Makes the sum a constraint, and tests that.
#[inline(never)]
fn check_finished(
    alloc: Global,
    scratch: &mut Combination,
    ints: &Ints,
    stated: &Constraint,
    computed: Computed,
) -> Result<(), RuleError>
    requires fresh { scratch.old.spent ≡ false }
    ensures tests { (P : Profile) (c : Certificate) (d : Derivation) (es : List (ℕ × ℚ))
        → IsSum c es (held_condition scratch.old) → c.problem.integers ≡ ints.now
        → condition_of stated.now ≡ condition d.stated
        → MatchResult result (λ _. PassesTestsIn P c d (computed_tests computed es))
        (λ e. (e ≡ Memory) ⊎ StopsIn P c d (computed_tests computed es) e) }
    ensures follows { OnOk result
        (DominatesBy computed ints.now (held_condition scratch.old) (condition_of stated.now)) }
    ensures variables { length scratch.new.sums ≡ length scratch.old.sums }
{
    let sum = finish(alloc, scratch)?;
    match computed {
        Computed::Sum => {
            let tested = check_domination(alloc, &sum, stated);
            drop(sum);
            tested
        }
        Computed::Rounding => check_rounded(alloc, sum, ints, stated),
    }
}

// Tests that the sum can be rounded and then dominates the stated constraint.
fn check_rounded(
    alloc: Global,
    sum: Constraint,
    ints: &Ints,
    stated: &Constraint,
) -> Result<(), RuleError>
    ensures tests { (P : Profile) (c : Certificate) (d : Derivation) (es : List (ℕ × ℚ))
        → IsSum c es (condition_of sum) → c.problem.integers ≡ ints.now
        → condition_of stated.now ≡ condition d.stated
        → MatchResult result (λ _. PassesTestsIn P c d (roundable es ∷ by_rounding es ∷ []))
        (λ e. (e ≡ Memory) ⊎ StopsIn P c d (roundable es ∷ by_rounding es ∷ []) e) }
    ensures dominates { OnOk result (IsWholeRow ints.now (at sum.row)
        × DominatesRounded (condition_of sum) (condition_of stated.now)) }
{
    match sum.round(ints) {
        Ok(Rounded::Row(computed)) => {
            let tested = check_domination(alloc, &computed, stated);
            drop(computed);
            tested
        }
        Ok(Rounded::Absurd) => Ok(()),
        Err(NotRoundable(sum)) => Err(not_roundable(alloc, sum).unwrap_or(RuleError::Memory)),
    }
}

// Adds the entries in their order, those with the multiplier 0 left out, and what they rest on to
// the assumptions. Each reference is looked up once; where an entry can't be added, those behind it
// are tested first.
fn add_up<S: Rows>(
    alloc: Global,
    context: &Context<S>,
    scratch: &mut Combination,
    entries: &[(u32, Frac)],
    assumptions: &mut Union,
) -> Result<(), RuleError>
    requires variables { length scratch.old.sums ≡ variables context.now.problem.now }
    requires rows { let n = variables context.now.problem.now in
        DerivedBelow n (S.table context.now.rows.now) }
    requires none { union_so_far assumptions.old ≡ set.empty }
    requires not_noted { (i : ℕ) → has_noted assumptions.old i ≡ false }
    ensures sum { (P : Profile) (c : Certificate) (d : Derivation)
        → IsContextOf S.table P c context.now
        → MatchResult result
        (λ _. PassesTestsIn P c d (sum_tests entries.now)
        × IsSum c entries.now (held_condition scratch.new)
        × IsSetOfAll c entries.now (union_so_far assumptions.new))
        (λ e. (e ≡ Memory) ⊎ StopsIn P c d (sum_tests entries.now) e) }
    ensures fresh { OnOk result (scratch.new.spent ≡ false) }
    ensures sound { OnOk result (IsSoundUnder S.table context.now (union_so_far assumptions.new)
        (held_condition scratch.new)) }
    ensures variables { length scratch.new.sums ≡ length scratch.old.sums }
{
    scratch.clear();
    for (position, entry) in entries.iter().enumerate() {
        let Some(known) = find_used(context, entry)? else {
            continue;
        };
        if let Err(error) = add_multiple(scratch, known.constraint(), entry.1, position) {
            return Err(first_error(context, &entries[position + 1..], error));
        }
        join(alloc, known, entry.0, entries.len(), assumptions)?;
    }
    Ok(())
}

// The error of the first reference of these entries that fails, or else this one.
#[inline(never)]
fn first_error<S: Rows>(
    context: &Context<S>,
    entries: &[(u32, Frac)],
    error: RuleError,
) -> RuleError
    ensures { (P : Profile) (c : Certificate) (d : Derivation)
        → IsContextOf S.table P c context.now
        → ((result ≡ error) × PassesTestsIn P c d (flat_map reference_tests entries.now))
        ⊎ StopsIn P c d (flat_map reference_tests entries.now) result }
{
    match check_references(context, entries) {
        Ok(()) => error,
        Err(refused) => refused,
    }
}

// Adds the assumptions of constraint `index` to those of a sum of so many entries. In a long sum a
// constraint that is named again has brought them.
#[inline(always)]
fn join(
    alloc: Global,
    known: Known,
    index: u32,
    entries: usize,
    assumptions: &mut Union,
) -> Result<(), AllocError>
    requires { IsTrue (has_noted assumptions.old index) → union_so_far assumptions.old
        ≡ set.union (union_so_far assumptions.old) (set_of known) }
    ensures union { OnOk result (union_so_far assumptions.new
        ≡ set.union (union_so_far assumptions.old) (set_of known.entry)) }
    ensures noted { OnOk result (NotesAtMost index assumptions.old assumptions.new) }
{
    if known.rests_on_nothing() {
        return Ok(());
    }
    if entries > FEW_ENTRIES {
        known.add_once_to(alloc, index, assumptions)
    } else {
        known.add_to(alloc, assumptions)
    }
}

// Adds the multiple of a constraint, that of the entry at a position.
#[inline(always)]
fn add_multiple(
    scratch: &mut Combination,
    constraint: &Constraint,
    multiplier: Frac,
    position: usize,
) -> Result<(), RuleError>
    requires fresh { scratch.old.spent ≡ false }
    requires below { NamesBelow (length scratch.old.sums) (at constraint.now.row) }
    ensures sum { let e : Summand = (multiplier, condition_of constraint.now) in
        (n : ℕ) (es : List Summand) → Holds n es scratch.old
        → MatchResult result (λ _. Holds n (es ++ e ∷ []) scratch.new)
        (SumStops (es ++ e ∷ []) position) }
    ensures fresh { OnOk result (scratch.new.spent ≡ false) }
    ensures variables { length scratch.new.sums ≡ length scratch.old.sums }
{
    match scratch.add(constraint, multiplier) {
        Ok(()) => Ok(()),
        Err(CombError::MixedSigns) => Err(RuleError::MixedSigns(position)),
        Err(CombError::Overflow) => Err(RuleError::Overflow(position)),
        Err(CombError::Memory | CombError::Spent) => unreachable!(),
    }
}

// Gives the sum that is held.
fn finish(alloc: Global, scratch: &mut Combination) -> Result<Constraint, RuleError>
    requires { scratch.old.spent ≡ false }
    ensures sum { IfOk result (λ sum. condition_of sum ≡ held_condition scratch.old) }
    ensures memory { IfErr result (λ e. e ≡ Memory) }
    ensures variables { length scratch.new.sums ≡ length scratch.old.sums }
{
    match scratch.finish(alloc) {
        Ok(sum) => Ok(sum),
        Err(CombError::Memory) => Err(RuleError::Memory),
        Err(CombError::MixedSigns | CombError::Overflow | CombError::Spent) => unreachable!(),
    }
}

// Tests the references of all entries in their order.
fn check_references<S: Rows>(context: &Context<S>, entries: &[(u32, Frac)]) -> Result<(), RuleError>
    ensures { (P : Profile) (c : Certificate) (d : Derivation)
        → IsContextOf S.table P c context.now
        → MatchResult result (λ _. PassesTestsIn P c d (flat_map reference_tests entries.now))
        (StopsIn P c d (flat_map reference_tests entries.now)) }
{
    for entry in entries {
        find_used(context, entry)?;
    }
    Ok(())
}

// The constraint of an entry, tested to come before the derivation and to be live there. An entry
// with the multiplier 0 uses none, and its index is only tested to come before.
#[inline(always)]
fn find_used<'a, S: Rows>(
    context: &Context<'a, S>,
    entry: &(u32, Frac),
) -> Result<Option<Known<'a>>, RuleError>
    ensures known { (P : Profile) (c : Certificate) (d : Derivation)
        → IsContextOf S.table P c context.now
        → MatchResult result (λ o. PassesTestsIn P c d (reference_tests entry.now)
        × MatchOption o (is_nonzero entry.now ≡ false)
        (λ k. (is_nonzero entry.now ≡ true) × IsKnownAs c entry.now.0 k))
        (StopsIn P c d (reference_tests entry.now)) }
    ensures below { let n = variables context.now.problem.now in
        DerivedBelow n (S.table context.now.rows.now)
        → IfOk result (λ o. IfSome o (λ k. NamesBelow n (at (row_found k).row))) }
    ensures sound { IfOk result (λ o. IfSome o (λ k.
        IsSoundUnder S.table context.now (set_of k) (condition_of (row_found k)))) }
    ensures set { IfOk result (λ o. IfSome o (λ k.
        set_of k ≡ set_found S.table context.now entry.now.0)) }
    ensures used { IfOk result (λ o. MatchOption o (is_nonzero entry.now ≡ false)
        (λ _. is_nonzero entry.now ≡ true)) }
{
    if is_used(entry) {
        Ok(Some(context.find(entry.0)?))
    } else {
        context.check_earlier(entry.0)?;
        Ok(None)
    }
}

// Whether an entry counts: its multiplier isn't 0.
fn is_used(entry: &(u32, Frac)) -> bool
    ensures { result ≡ is_nonzero entry.now }
{
    entry.1.numer() != 0
}
