//! The set of variables that have to be whole.
//!
//! [`Ints`] keeps the variables in rising order, each once. It answers whether a variable is in the
//! set, and lists them all.
ghost use Rattle.std.specs.Prelude.{◌≡◌, ◌↔◌, IsTrue, IfOk};
ghost use Rattle.std.specs.{FinSet.from_list, List.Sorted.IsStrictlyIncreasing};
ghost use Rattle.vipr_spec.specs.Constraint.{at, IsInteger, IsWholeRow};
ghost use Rattle.vipr_linear.specs.Rounding.{MarksEach};

use crate::row::Row;
use std::alloc::{AllocError, Global};
use std::marker::Model;

/// A set of variables: those that have to be whole.
#[derive(Debug, Drop)]
pub struct Ints {
    indices: Vec<u32>,
    // whether each variable up to the last is in the set; none if few of them are
    marks: Vec<bool>,
    // a row that is known to have whole coefficients at these variables alone
    whole: Option<Row>,
}

impl Model for Ints {
    ghost use Rattle.std.specs.Coded.{coded_ℕ};
    ghost use Rattle.std.specs.FinSet.{FinSet, code, from_list};
    ghost use Rattle.std.specs.Ordering.{nat_cmp};
    ghost use Rattle.vipr_linear.specs.Rounding.{AreIntegers};

    ghost Value = { FinSet nat_cmp };

    ghost coded = { code coded_ℕ };

    ghost view = { λ a. from_list a.indices.items };

    ghost invariant = { λ a. AreIntegers a.indices.items a.marks.items a.whole };
}

impl Ints {
    /// The set of these variables, in any order, of which some may occur twice.
    pub fn from_indices(alloc: Global, indices: Vec<u32>) -> Result<Ints, AllocError>
        ensures { IfOk result (λ ints. ints ≡ from_list indices.items) }
    {
        let mut indices = indices;
        indices.sort_unstable();
        indices.dedup();
        Ok(Ints {
            marks: marks_of(alloc, &indices)?,
            indices,
            whole: None,
        })
    }

    /// Whether a variable is one of them.
    pub fn contains(&self, variable: u32) -> bool
        ensures { IsTrue result ↔ IsInteger self.now variable }
    {
        match self.marks.get(variable as usize) {
            Some(is_marked) => *is_marked,
            None => self.indices.binary_search(&variable).is_ok(),
        }
    }

    /// The variables, in rising order.
    pub fn indices(&self) -> &[u32]
        ensures set { from_list result.now ≡ self.now }
        ensures rising { IsStrictlyIncreasing result.now }
    {
        self.indices.as_slice()
    }

    /// Keeps a row whose coefficients are whole and at these variables.
    pub(crate) fn set_whole(&mut self, row: Row)
        requires { IsWholeRow self.old (at row) }
        ensures { self.new ≡ self.old }
    {
        self.whole = Some(row);
    }

    /// Whether a row shares its entries with the one that is kept. `true` says that its
    /// coefficients are whole and at these variables.
    pub(crate) fn knows(&self, row: &Row) -> bool
        ensures { IsTrue result → IsWholeRow self.now (at row.now) }
    {
        match &self.whole {
            Some(whole) => whole.is_one(row),
            None => false,
        }
    }
}

// A mark at each variable up to the last, if there are at most 64 times as many as these.
fn marks_of(alloc: Global, indices: &[u32]) -> Result<Vec<bool>, AllocError>
    ensures { IfOk result (λ marks. MarksEach indices.now marks.items) }
{
    let places = match indices.last() {
        Some(last) if *last as usize / 64 < indices.len() => *last as usize + 1,
        _ => 0,
    };
    let mut marks = vec![in alloc; false; places]?;
    for index in indices {
        if let Some(mark) = marks.get_mut(*index as usize) {
            *mark = true;
        }
    }
    Ok(marks)
}
