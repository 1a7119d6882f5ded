//! A sum at each place, with the list of the touched places.
//!
//! What goes over the sums takes time for the touched places alone.
ghost use Rattle.std.specs.Prelude.{◌≡◌, ◌≢◌, ◌↔◌, ◌<◌, ℕ, false, true, replicate, All, IsTrue};
ghost use Rattle.std.specs.Prelude.{IsOk, IfOk, OnOk, OnErr, length, slice_index_or, slice_set};
ghost use Rattle.vipr_spec.specs.Fraction.{zero_ℚ, IsBounded};
ghost use Rattle.vipr_spec.specs.{Constraint.at, MoreEntries.TermFits};
ghost use Rattle.vipr_linear.specs.Accumulator.{with_term, with_terms, TermsFitIn};
ghost use Rattle.vipr_linear.specs.Touched.{Touching, CoversNonzero, HasRowEntries};
ghost use Rattle.vipr_linear.specs.Touched.{nonzero_entries};
ghost use Rattle.vipr_linear.specs.{Row.AreEntries, Values.with_set};

use crate::row::Row;
use std::alloc::{AllocError, Global};
use std::marker::Model;
use vipr_frac::{Frac, Overflow, Partial};

/// The touched places: a mark at each place, and a list of the marked ones.
#[derive(Debug, Drop)]
struct Touched {
    marks: Vec<bool>,
    list: Vec<u32>,
}

impl Model for Touched {
    ghost use Rattle.std.specs.Prelude.{List, Bool, vec_capacity};
    ghost use Rattle.std.specs.Coded.{coded_list, coded_bool};
    ghost use Rattle.vipr_linear.specs.Touched.{AreTouched};

    ghost Value = { List Bool };

    ghost coded = { coded_list coded_bool };

    ghost view = { λ a. a.marks.items };

    ghost invariant = { λ a. AreTouched a.marks.items a.list.items (vec_capacity a.list) };
}

impl Touched {
    fn new(alloc: Global, n: usize) -> Result<Touched, AllocError>
        ensures { IfOk result (λ touched. touched ≡ replicate n false) }
    {
        Ok(Touched {
            marks: vec![in alloc; false; n]?,
            list: Vec::with_capacity(alloc, n)?,
        })
    }

    #[inline(always)]
    fn touch(&mut self, place: u32)
        requires { place < length self.old }
        ensures { self.new ≡ slice_set self.old place true }
    {
        if self.marks[place as usize] {
            return;
        }
        self.list.push(place).unwrap();
        self.marks[place as usize] = true;
    }

    // The touched places, each once.
    #[inline(always)]
    fn places(&self) -> &[u32]
        ensures { Touching self.now result.now }
    {
        self.list.as_slice()
    }

    fn clear(&mut self)
        ensures { self.new ≡ replicate (length self.old) false }
    {
        for place in self.list.iter() {
            self.marks[*place as usize] = false;
        }
        self.list.clear();
    }
}

/// A sum at each place, 0 at first. It remembers which places were touched.
#[derive(Debug, Drop)]
pub struct Places {
    sums: Vec<Partial>,
    touched: Touched,
}

impl Model for Places {
    ghost use Rattle.std.specs.Prelude.{List};
    ghost use Rattle.std.specs.Coded.{coded_list};
    ghost use Rattle.vipr_spec.specs.Fraction.{ℚ, coded_ℚ};
    ghost use Rattle.vipr_linear.specs.Touched.{AreCovered};

    ghost Value = { List ℚ };

    ghost coded = { coded_list coded_ℚ };

    ghost view = { λ a. a.sums.items };

    ghost invariant = { λ a. AreCovered a.sums.items a.touched };
}

impl Places {
    /// The places below `n`, each with the sum 0.
    pub fn new(alloc: Global, n: usize) -> Result<Places, AllocError>
        ensures { IfOk result (λ places. places ≡ replicate n zero_ℚ) }
    {
        Ok(Places {
            sums: vec![in alloc; Partial::zero(); n]?,
            touched: Touched::new(alloc, n)?,
        })
    }

    /// The sum at each place.
    #[inline(always)]
    pub fn sums(&self) -> &[Partial]
        ensures { result.now ≡ self.now }
    {
        self.sums.as_slice()
    }

    /// The touched places, in no order. A sum that isn't 0 is at one of them.
    #[inline(always)]
    pub fn touched(&self) -> &[u32]
        ensures within { All (λ place. place < length self.now) result.now }
        ensures nonzero { CoversNonzero self.now result.now }
    {
        self.touched.places()
    }

    /// Adds a product to the sum at a place. If the product or the new sum is out of bound, the
    /// sums stay as they were.
    #[inline(always)]
    pub fn add_product(
        &mut self,
        place: u32,
        multiplier: Frac,
        coefficient: Frac,
    ) -> Result<(), Overflow>
        requires { place < length self.old }
        ensures fits { IsOk result
            ↔ TermFits (slice_index_or self.old place zero_ℚ) multiplier coefficient }
        ensures sum { OnOk result
            (self.new ≡ with_term self.old multiplier (place, coefficient)) }
        ensures kept { OnErr result (self.new ≡ self.old) }
    {
        self.add_term(multiplier, &(place, coefficient))
    }

    // Adds the multiple of an entry to the sum of its variable. The entry is read once its place is
    // touched: so its words are together where they are tested.
    #[inline(always)]
    fn add_term(&mut self, multiplier: Frac, entry: &(u32, Frac)) -> Result<(), Overflow>
        requires { entry.now.0 < length self.old }
        ensures fits { IsOk result
            ↔ TermFits (slice_index_or self.old entry.now.0 zero_ℚ) multiplier entry.now.1 }
        ensures sum { OnOk result (self.new ≡ with_term self.old multiplier entry.now) }
        ensures kept { OnErr result (self.new ≡ self.old) }
    {
        self.touched.touch(entry.0);
        self.sums[entry.0 as usize].add_product(multiplier, entry.1)
    }

    /// Adds the multiple of each entry to the sum of its variable, in order.
    pub(crate) fn add_terms(
        &mut self,
        entries: &[(u32, Frac)],
        multiplier: Frac,
    ) -> Result<(), Overflow>
        requires { All (λ e. e.0 < length self.old) entries.now }
        ensures fits { IsOk result ↔ TermsFitIn self.old multiplier entries.now }
        ensures sums { OnOk result (self.new ≡ with_terms self.old multiplier entries.now) }
        ensures places { length self.new ≡ length self.old }
    {
        for entry in entries {
            self.add_term(multiplier, entry)?;
        }
        Ok(())
    }

    fn set_at(&mut self, place: u32, coefficient: Frac)
        requires { place < length self.old }
        ensures { self.new ≡ slice_set self.old place coefficient }
    {
        self.touched.touch(place);
        self.sums[place as usize] = Partial::of(coefficient);
    }

    /// Makes the sum of each variable that an entry names its coefficient. Entries past the last
    /// place are left out.
    pub(crate) fn set(&mut self, entries: &[(u32, Frac)])
        ensures { self.new ≡ with_set self.old entries.now }
    {
        for (variable, coefficient) in entries {
            if (*variable as usize) < self.sums().len() {
                self.set_at(*variable, *coefficient);
            }
        }
    }

    /// Makes all sums 0. It takes time for the touched places alone.
    pub fn reset(&mut self)
        ensures { self.new ≡ replicate (length self.old) zero_ℚ }
    {
        for place in self.touched.places() {
            self.sums[*place as usize] = Partial::zero();
        }
        self.touched.clear();
    }

    /// The sums that are not 0 as the entries of a row.
    pub(crate) fn nonzero(&mut self, alloc: Global) -> Result<Vec<(u32, Frac)>, AllocError>
        ensures entries { IfOk result (λ v. AreEntries v.items) }
        ensures sums { IfOk result (λ v. HasRowEntries self.old v.items) }
        ensures kept { self.new ≡ self.old }
    {
        let touched = &mut self.touched;
        touched.list.sort_unstable();
        nonzero_sums(alloc, &self.sums, touched.list.as_slice())
    }

    /// Whether the sums are the coefficients of a row.
    pub(crate) fn are_row(&self, row: &Row) -> bool
        ensures { IsTrue result
            ↔ ((j : ℕ) → slice_index_or self.now j zero_ℚ ≡ at row.now j) }
    {
        let (sums, places) = (self.sums.as_slice(), self.touched.places());
        let entries = row.entries();
        have_each(sums, entries) && count_nonzero(sums, places) == entries.len()
    }

    /// Whether all sums are 0.
    pub(crate) fn are_zero(&self) -> bool
        ensures { IsTrue result ↔ ((j : ℕ) → slice_index_or self.now j zero_ℚ ≡ zero_ℚ) }
    {
        for place in self.touched() {
            if !self.sums[*place as usize].is_zero() {
                return false;
            }
        }
        true
    }
}

// The sums at these places that are not 0, with the places.
fn nonzero_sums(
    alloc: Global,
    sums: &[Partial],
    places: &[u32],
) -> Result<Vec<(u32, Frac)>, AllocError>
    requires { All (λ j. j < length sums.now) places.now }
    ensures kept { IfOk result (λ v. v.items ≡ nonzero_entries sums.now places.now) }
    ensures bounded { IfOk result (λ v. All (λ e. IsBounded e.1) v.items) }
{
    let mut entries = Vec::with_capacity(alloc, places.len())?;
    for variable in places {
        let sum = sums[*variable as usize].value();
        if !sum.is_zero() {
            entries.push((*variable, sum))?;
        }
    }
    Ok(entries)
}

// How many of the sums at these places are not 0.
fn count_nonzero(sums: &[Partial], places: &[u32]) -> usize
    requires { All (λ j. j < length sums.now) places.now }
    ensures { result ≡ length (nonzero_entries sums.now places.now) }
{
    let mut count = 0;
    for place in places {
        if !sums[*place as usize].is_zero() {
            count += 1;
        }
    }
    count
}

// Whether the sum of each variable that an entry names is its coefficient.
fn have_each(sums: &[Partial], entries: &[(u32, Frac)]) -> bool
    requires { All (λ e. e.1 ≢ zero_ℚ) entries.now }
    ensures { IsTrue result
        ↔ All (λ e. slice_index_or sums.now e.0 zero_ℚ ≡ e.1) entries.now }
{
    for (variable, coefficient) in entries {
        let place = *variable as usize;
        if place >= sums.len() || !sums[place].is(*coefficient) {
            return false;
        }
    }
    true
}
