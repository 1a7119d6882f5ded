//! The assumptions that a derived constraint rests on.
//!
//! [`Assumptions`] is a set of indices. A sum rests on the union of the sets of its constraints,
//! and a split takes one assumption out of each of its branches. Clones share their indices, so a
//! long set that many constraints rest on is in memory once. A long set is in pages of bits, and a
//! union or a removal makes only those anew that it changes.
mod list;
mod merge;
mod page;
mod pages;
mod union;

ghost use Rattle.std.specs.Prelude.{◌≡◌, ◌↔◌, true, IfOk, IfSome, IsOk, IsTrue};
ghost use Rattle.std.specs.FinSet as set;
ghost use Rattle.vipr_table.specs.Rising.{IsRising};
ghost use Rattle.vipr_table.specs.{IndexList.listed_set, Sets.IsListOf};

use crate::assumptions::list::{IndexList, front_but_last, front_of};
use crate::assumptions::merge::{all_but, has_all, is_in, join};
use crate::assumptions::pages::{IndexPages, words_in_pages};
pub use crate::assumptions::union::Union;
use std::alloc::{AllocError, Global};
use std::marker::Model;
use std::slice;
use vipr_shared::Shared;

// Up to how many indices are one list.
const SHORT: usize = 256;

// From how many indices on a set in pages stays so.
const STILL_LONG: usize = 241;

// How many indices a word of a page has at least, on average.
const DENSE: usize = 2;

// Up to how many indices are few.
const FEW: usize = 8;

/// A set of the constraint indices of assumptions. Its clones share the indices.
#[derive(Debug, Drop)]
pub struct Assumptions {
    list: IndexList,
}

impl Model for Assumptions {
    ghost use Rattle.std.specs.Ordering.{nat_cmp};
    ghost use Rattle.std.specs.FinSet as set;
    ghost use Rattle.std.specs.Coded.{coded_ℕ};
    ghost use Rattle.vipr_table.specs.IndexList.{listed_set, Rises};

    ghost Value = { set.FinSet nat_cmp };

    ghost coded = { set.code coded_ℕ };

    ghost view = { λ a. listed_set a.list };

    ghost invariant = { λ a. Rises a.list };
}

impl Clone for Assumptions {
    ghost use Rattle.std.specs.Prelude.{◌≡◌};

    ghost is_clone = { λ a copy. copy ≡ a };

    fn clone(&self) -> Result<Assumptions, AllocError> {
        Ok(Assumptions {
            list: self.list.try_copy()?,
        })
    }
}

impl Assumptions {
    /// The set of no index. Takes no memory.
    pub fn empty(_alloc: Global) -> Self
        ensures { result ≡ set.empty }
    {
        Assumptions {
            list: IndexList::Nothing,
        }
    }

    /// The set of one index. Takes no memory, so it is never an error.
    pub fn single(_alloc: Global, index: u32) -> Result<Self, AllocError>
        ensures ok { IsOk result }
        ensures set { IfOk result (λ s. s ≡ set.insert set.empty index) }
    {
        Ok(Assumptions {
            list: IndexList::One(index),
        })
    }

    /// Whether no index is in the set.
    pub fn is_empty(&self) -> bool
        ensures { IsTrue result ↔ (self.now ≡ set.empty) }
    {
        match &self.list {
            IndexList::Nothing => true,
            IndexList::One(_) => false,
            IndexList::Many(count, items) => front_of(*count, items).is_empty(),
            IndexList::Longer(pages) => pages.as_ref().is_empty(),
        }
    }

    /// Whether an index is in the set.
    pub fn contains(&self, index: u32) -> bool
        ensures { result ≡ set.contains self.now index }
    {
        match &self.list {
            IndexList::Nothing => false,
            IndexList::One(only) => *only == index,
            IndexList::Many(count, items) => is_in(front_of(*count, items), index),
            IndexList::Longer(pages) => pages.as_ref().contains(index),
        }
    }

    /// The set of the indices of both.
    ///
    /// # Errors
    ///
    /// If a growth is refused.
    pub fn union(&self, alloc: Global, other: &Assumptions) -> Result<Self, AllocError>
        ensures { IfOk result (λ s. s ≡ set.union self.now other.now) }
    {
        if other.is_empty() {
            return self.clone();
        }
        if self.is_empty() {
            return other.clone();
        }
        if self.is_one(other) {
            return self.clone();
        }
        match (self.as_one(), other.as_one()) {
            (Some(ours), Some(theirs)) => {
                if has_all(ours, theirs) {
                    return self.clone();
                }
                if has_all(theirs, ours) {
                    return other.clone();
                }
                let items = join(alloc, ours, theirs)?;
                Assumptions::of_rising(alloc, items)
            }
            _ => self.joined(alloc, other),
        }
    }

    /// The set of all indices but one.
    ///
    /// # Errors
    ///
    /// If a growth is refused.
    pub fn without(&self, alloc: Global, index: u32) -> Result<Self, AllocError>
        ensures { IfOk result (λ s. s ≡ set.remove self.now index) }
    {
        if let Some(rest) = self.without_last(index)? {
            return Ok(rest);
        }
        if !self.contains(index) {
            return self.clone();
        }
        match self.as_one() {
            Some(items) => Assumptions::of_rising(alloc, all_but(alloc, items, index)?),
            None => self.shortened(alloc, index),
        }
    }

    /// The set of the indices of both, but for one of each.
    pub fn union_without(
        &self,
        alloc: Global,
        index: u32,
        other: &Assumptions,
        other_index: u32,
    ) -> Result<Self, AllocError>
        ensures { IfOk result (λ s.
            s ≡ set.union (set.remove self.now index) (set.remove other.now other_index)) }
    {
        let theirs = other.without(alloc, other_index)?;
        let Ok(ours) = self.without(alloc, index) else {
            drop(theirs);
            return Err(AllocError);
        };
        let union = ours.union(alloc, &theirs);
        drop(ours);
        drop(theirs);
        union
    }

    // Whether both share their indices. `true` says that the sets are equal.
    fn is_one(&self, other: &Assumptions) -> bool
        ensures { IsTrue result → self.now ≡ other.now }
    {
        self.list.is_one(&other.list)
    }

    // The union, which shares the pages to which nothing is added.
    fn joined(&self, alloc: Global, other: &Assumptions) -> Result<Self, AllocError>
        ensures { IfOk result (λ s. s ≡ set.union self.now other.now) }
    {
        let ours = self.pages(alloc)?;
        let Ok(theirs) = other.pages(alloc) else {
            drop(ours);
            return Err(AllocError);
        };
        let union = ours.as_ref().union(alloc, theirs.as_ref());
        let Ok(union) = union else {
            drop(ours);
            drop(theirs);
            return Err(AllocError);
        };
        if union.is_same(ours.as_ref()) {
            return self.clone();
        }
        if union.is_same(theirs.as_ref()) {
            return other.clone();
        }
        Assumptions::of_pages(alloc, union)
    }

    // The set without an index. It shares the pages that don't have that.
    fn shortened(&self, alloc: Global, index: u32) -> Result<Self, AllocError>
        ensures { IfOk result (λ s. s ≡ set.remove self.now index) }
    {
        let pages = self.pages(alloc)?;
        let rest = pages.as_ref().without(alloc, index);
        drop(pages);
        Assumptions::of_pages(alloc, rest?)
    }

    // The set without an index, if that is the last one of one list.
    #[inline(always)]
    fn without_last(&self, index: u32) -> Result<Option<Self>, AllocError>
        ensures { IfOk result (λ o. IfSome o (λ s. s ≡ set.remove self.now index)) }
    {
        match &self.list {
            IndexList::One(only) if *only == index => {
                let list = IndexList::Nothing;
                Ok(Some(Assumptions { list }))
            }
            IndexList::Many(count, items) => match front_but_last(*count, items, index)? {
                Some(list) => Ok(Some(Assumptions { list })),
                None => Ok(None),
            },
            _ => Ok(None),
        }
    }

    // The set of these indices, in any order, of which some may occur twice.
    fn of_indices(alloc: Global, indices: Vec<u32>) -> Result<Self, AllocError>
        ensures { IfOk result (λ s. s ≡ set.from_list indices.items) }
    {
        let mut indices = indices;
        indices.sort_unstable();
        indices.dedup();
        let _in_range = indices.as_slice();
        Assumptions::of_rising(alloc, indices)
    }

    // The set of these indices, each of which is greater than the one before.
    fn of_rising(alloc: Global, indices: Vec<u32>) -> Result<Self, AllocError>
        requires { IsRising indices.items }
        ensures { IfOk result (λ s. s ≡ set.from_list indices.items) }
    {
        let list = match indices.as_slice() {
            [] => IndexList::Nothing,
            [index] => IndexList::One(*index),
            items if items.len() > SHORT && is_dense(words_in_pages(items), items.len()) => {
                IndexList::Longer(Shared::new(alloc, IndexPages::of_rising(alloc, items)?)?)
            }
            _ => {
                let Ok(count) = u32::try_from(indices.len()) else {
                    return Err(AllocError);
                };
                IndexList::Many(count, Shared::new(alloc, indices)?)
            }
        };
        Ok(Assumptions { list })
    }

    // The set of these pages. They become one list if they have few indices, or few for each word.
    fn of_pages(alloc: Global, pages: IndexPages) -> Result<Self, AllocError>
        ensures { IfOk result (λ s. s ≡ pages) }
    {
        if pages.len() < STILL_LONG || !is_dense(pages.words(), pages.len()) {
            let indices = pages.indices(alloc);
            drop(pages);
            return Assumptions::of_indices(alloc, indices?);
        }
        Ok(Assumptions {
            list: IndexList::Longer(Shared::new(alloc, pages)?),
        })
    }

    // The pages of the set.
    fn pages(&self, alloc: Global) -> Result<Shared<IndexPages>, AllocError>
        ensures { IfOk result (λ pages. pages ≡ self.now) }
    {
        match &self.list {
            IndexList::Nothing => Shared::new(alloc, IndexPages::of_rising(alloc, &[])?),
            IndexList::One(index) => {
                Shared::new(alloc, IndexPages::of_rising(alloc, slice::from_ref(index))?)
            }
            IndexList::Many(count, items) => {
                Shared::new(
                    alloc,
                    IndexPages::of_rising(alloc, front_of(*count, items))?,
                )
            }
            IndexList::Longer(pages) => pages.clone(),
        }
    }

    // All indices, if they are one list.
    #[inline(always)]
    fn as_one(&self) -> Option<&[u32]>
        ensures { IfSome result (λ items. IsListOf self.now items.now) }
    {
        match &self.list {
            IndexList::Nothing => Some(&[]),
            IndexList::One(index) => Some(slice::from_ref(index)),
            IndexList::Many(count, items) => Some(front_of(*count, items)),
            IndexList::Longer(_) => None,
        }
    }

    // All indices, if they are few.
    fn as_few(&self) -> Option<&[u32]>
        ensures { IfSome result (λ few. set.from_list few.now ≡ self.now) }
    {
        match self.as_one() {
            Some(items) if items.len() <= FEW => Some(items),
            _ => None,
        }
    }

    // How many indices there are.
    fn len(&self) -> usize {
        match &self.list {
            IndexList::Nothing => 0,
            IndexList::One(_) => 1,
            IndexList::Many(count, _) => *count as usize,
            IndexList::Longer(pages) => pages.as_ref().len(),
        }
    }
}

// Whether so many indices are enough for so many words.
fn is_dense(words: usize, len: usize) -> bool {
    len / DENSE >= words
}
