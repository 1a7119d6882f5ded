//! Rows: the nonzero coefficients of a constraint.
//!
//! A [`Row`] lists its variables in rising order with their coefficients, none of which is 0. In
//! contracts it is a finite map from variables to coefficients, so rows with the same coefficients
//! are equal however they were made. A row can share its entries with its clones.
ghost use Rattle.std.specs.Prelude.{All, ◌≡◌, ◌↔◌, ◌<◌, nat_eq, IsTrue, IfOk, OnOk, MatchOption};
ghost use Rattle.std.specs.Prelude.{filter, ℕ, ◌∷◌, []};
ghost use Rattle.std.specs.List.Sorted.{IsPermutation, IsNonDecreasingBy, IsStrictlyIncreasing};
ghost use Rattle.std.specs.{FinMap.entries, FinMap.from_sorted, List.IsDistinct};
ghost use Rattle.vipr_spec.specs.Fraction.{zero_ℚ, IsBounded};
ghost use Rattle.vipr_spec.specs.Constraint.{at, NamesBelow, HasNoZeros};
ghost use Rattle.vipr_spec.specs.{Reading.is_nonzero, Reading.row_of, Shape.RowFits};
ghost use Rattle.vipr_linear.specs.Row.{RisesFrom, AreEntries, variables_of, IsFirstRepeated};

use crate::row_entries::RowEntries;
use std::alloc::{AllocError, Global};
use std::collections::BTreeSet;
use std::marker::Model;
use vipr_frac::Frac;

/// A finite map from variables to nonzero coefficients.
#[derive(Debug, Drop)]
pub struct Row {
    kept: RowEntries,
}

impl Model for Row {
    ghost use Rattle.std.specs.Coded.{coded_ℕ};
    ghost use Rattle.std.specs.Ordering.{nat_cmp};
    ghost use Rattle.std.specs.FinMap.{FinMap, code, from_sorted};
    ghost use Rattle.vipr_spec.specs.Fraction.{ℚ, coded_ℚ};
    ghost use Rattle.vipr_linear.specs.Row.{AreEntries, kept_items};

    ghost Value = { FinMap nat_cmp ℚ };

    ghost coded = { code coded_ℕ coded_ℚ };

    ghost view = { λ a. from_sorted (kept_items a.kept) };

    ghost invariant = { λ a. AreEntries (kept_items a.kept) };
}

impl Clone for Row {
    ghost use Rattle.std.specs.Prelude.{◌≡◌};

    ghost is_clone = { λ row copy. copy ≡ row };

    fn clone(&self) -> Result<Row, AllocError> {
        Ok(Row {
            kept: self.kept.try_copy()?,
        })
    }
}

/// Why pairs are no row.
#[derive(Clone, Copy, Debug, PartialEq, Eq)]
pub enum RowError {
    /// The variable of the first pair whose variable stood before.
    Repeated(u32),
    /// A growth was refused.
    Memory,
}

impl From<AllocError> for RowError {
    ghost use Rattle.vipr_linear.specs.declared.row.RowError.{RowError};
    ghost use Rattle.vipr_linear.specs.declared.row.RowError.TheVariants.{Memory};

    ghost from_gives = { λ _ e. e ≡ Memory };

    fn from(_error: AllocError) -> RowError {
        RowError::Memory
    }
}

impl Row {
    /// The row of these coefficients, in any order. Coefficients 0 are dropped.
    pub fn from_pairs(alloc: Global, pairs: Vec<(u32, Frac)>) -> Result<Row, RowError>
        ensures row { IfOk result (λ row. row ≡ row_of pairs.items) }
        ensures distinct { OnOk result (IsDistinct nat_eq (variables_of pairs.items)) }
        ensures repeated { (v : ℕ) → result ≡ Err (RowError.Repeated v)
            → IsFirstRepeated (variables_of pairs.items) v }
    {
        let mut entries = in_order(alloc, pairs)?;
        drop_zeros(&mut entries);
        Ok(Row {
            kept: RowEntries::Own(entries),
        })
    }

    /// The row of these coefficients, in any order, if the variables differ. Coefficients 0 are
    /// dropped. It takes no memory.
    #[inline(always)]
    pub fn from_distinct(pairs: Vec<(u32, Frac)>) -> Row
        requires { IsDistinct nat_eq (variables_of pairs.items) }
        ensures row { result ≡ row_of pairs.items }
        ensures fits { RowFits result }
    {
        let mut entries = distinct_in_order(pairs);
        drop_zeros(&mut entries);
        Row {
            kept: RowEntries::Own(entries),
        }
    }

    /// The row of one coefficient, or of none if that is 0. It takes no memory.
    #[inline(always)]
    pub fn of_one(alloc: Global, variable: u32, coefficient: Frac) -> Row
        ensures row { result ≡ row_of ((variable, coefficient) ∷ []) }
        ensures fits { RowFits result }
    {
        if coefficient.is_zero() {
            return Row {
                kept: RowEntries::Own(Vec::new(alloc)),
            };
        }
        Row {
            kept: RowEntries::One((variable, coefficient)),
        }
    }

    /// Makes it the row of one coefficient, or of none if that is 0. It takes no memory.
    #[inline(always)]
    pub fn set_one(&mut self, alloc: Global, variable: u32, coefficient: Frac)
        ensures row { self.new ≡ row_of ((variable, coefficient) ∷ []) }
        ensures fits { RowFits self.new }
    {
        match &mut self.kept {
            RowEntries::One(entry) if !coefficient.is_zero() => *entry = (variable, coefficient),
            _ => self.set_one_anew(alloc, variable, coefficient),
        }
    }

    // Makes it such a row, if it had no entry or is to have none.
    #[inline(never)]
    fn set_one_anew(&mut self, alloc: Global, variable: u32, coefficient: Frac)
        ensures row { self.new ≡ row_of ((variable, coefficient) ∷ []) }
        ensures fits { RowFits self.new }
    {
        *self = Row::of_one(alloc, variable, coefficient);
    }

    /// The row of coefficients that are not 0, whose variables rise.
    pub(crate) fn from_rising(entries: Vec<(u32, Frac)>) -> Row
        requires { AreEntries entries.items }
        ensures { result ≡ from_sorted entries.items }
    {
        Row {
            kept: RowEntries::Own(entries),
        }
    }

    /// This row in a form whose clones share its entries: a clone then takes no memory.
    pub fn shared(self, alloc: Global) -> Result<Row, AllocError>
        ensures { IfOk result (λ row. row ≡ self) }
    {
        Ok(Row {
            kept: self.kept.shared(alloc)?,
        })
    }

    /// The variables with their coefficients, in rising order.
    pub fn entries(&self) -> &[(u32, Frac)]
        ensures list { result.now ≡ entries self.now }
        ensures rising { RisesFrom 0 result.now }
        ensures no_zeros { HasNoZeros self.now }
        ensures fits { RowFits self.now }
    {
        self.kept.as_slice()
    }

    /// The coefficient of a variable, 0 if it isn't in the row.
    pub fn coefficient(&self, variable: u32) -> Frac
        ensures { result ≡ at self.now variable }
    {
        let entries = self.kept.as_slice();
        match entries.binary_search_by_key(&variable, |entry| entry.0) {
            Ok(place) => entries[place].1,
            Err(_) => Frac::zero(),
        }
    }

    /// Whether it has no variable from `n` on.
    pub fn names_below(&self, n: u32) -> bool
        ensures { IsTrue result ↔ NamesBelow n (at self.now) }
    {
        ends_below(self.entries(), n)
    }

    /// Whether both share their entries, as a row and its clones do. `true` says that the rows are
    /// equal.
    pub(crate) fn is_one(&self, other: &Row) -> bool
        ensures { IsTrue result → self.now ≡ other.now }
    {
        self.kept.is_one(&other.kept)
    }

    /// Whether the coefficients are the same.
    pub fn is_same(&self, other: &Row) -> bool
        ensures { IsTrue result ↔ ((j : ℕ) → at self.now j ≡ at other.now j) }
    {
        self.is_one(other) || self.entries() == other.entries()
    }

    /// Shares the entries of another row from now on, if both have the same ones.
    pub fn share_with(&mut self, other: &Row) -> Result<(), AllocError>
        ensures { self.new ≡ self.old }
    {
        let is_same = self.entries() == other.entries();
        if !is_same {
            return Ok(());
        }
        *self = other.clone()?;
        Ok(())
    }

    /// Whether it has no variable.
    pub fn is_empty(&self) -> bool
        ensures { IsTrue result ↔ ((j : ℕ) → at self.now j ≡ zero_ℚ) }
    {
        self.entries().is_empty()
    }
}

/// A value for each variable that is not 0.
#[derive(Debug, Drop)]
pub struct Solution(pub Row);

// Whether all variables are below `n`, by the last, which is the greatest.
fn ends_below(entries: &[(u32, Frac)], n: u32) -> bool
    requires { RisesFrom 0 entries.now }
    ensures { IsTrue result ↔ All (λ e. e.0 < n) entries.now }
{
    if entries.is_empty() {
        return true;
    }
    entries[entries.len() - 1].0 < n
}

// The pairs in rising order of their variables.
fn in_order(alloc: Global, pairs: Vec<(u32, Frac)>) -> Result<Vec<(u32, Frac)>, RowError>
    ensures permutation { IfOk result (λ v. IsPermutation pairs.items v.items) }
    ensures distinct { OnOk result (IsDistinct nat_eq (variables_of pairs.items)) }
    ensures rising { IfOk result (λ v. IsStrictlyIncreasing (variables_of v.items)) }
    ensures repeated { (v : ℕ) → result ≡ Err (RowError.Repeated v)
        → IsFirstRepeated (variables_of pairs.items) v }
{
    if rises(&pairs) {
        return Ok(pairs);
    }
    if let Some(v) = first_repeated(alloc, &pairs)? {
        return Err(RowError::Repeated(v));
    }
    let mut sorted = pairs;
    sort_by_variable(&mut sorted);
    Ok(sorted)
}

// Pairs whose variables differ, in rising order of these.
fn distinct_in_order(pairs: Vec<(u32, Frac)>) -> Vec<(u32, Frac)>
    requires { IsDistinct nat_eq (variables_of pairs.items) }
    ensures permutation { IsPermutation pairs.items result.items }
    ensures rising { IsStrictlyIncreasing (variables_of result.items) }
{
    if rises(&pairs) {
        return pairs;
    }
    let mut sorted = pairs;
    sort_by_variable(&mut sorted);
    sorted
}

// Whether the variables rise, each standing once.
fn rises(pairs: &[(u32, Frac)]) -> bool
    ensures { IsTrue result ↔ IsStrictlyIncreasing (variables_of pairs.now) }
{
    for i in 1..pairs.len() {
        if pairs[i].0 <= pairs[i - 1].0 {
            return false;
        }
    }
    true
}

// The first variable that stood before.
fn first_repeated(alloc: Global, pairs: &[(u32, Frac)]) -> Result<Option<u32>, AllocError>
    ensures { IfOk result (λ r. MatchOption r (IsDistinct nat_eq (variables_of pairs.now))
        (λ v. IsFirstRepeated (variables_of pairs.now) v)) }
{
    let mut seen = BTreeSet::new(alloc);
    for pair in pairs {
        if !seen.insert(pair.0)? {
            return Ok(Some(pair.0));
        }
    }
    Ok(None)
}

fn sort_by_variable(pairs: &mut Vec<(u32, Frac)>)
    ensures permutation { IsPermutation pairs.old.items pairs.new.items }
    ensures sorted { IsNonDecreasingBy (λ p. p.0) pairs.new.items }
{
    pairs.sort_unstable_by_key(|pair| pair.0);
}

#[inline(never)]
fn drop_zeros(pairs: &mut Vec<(u32, Frac)>)
    ensures kept { pairs.new.items ≡ filter is_nonzero pairs.old.items }
    ensures bounded { All (λ p. IsBounded p.1) pairs.new.items }
{
    pairs.retain(|pair| !pair.1.is_zero());
}
