//! Lists of indices that their copies share.

ghost use Rattle.std.specs.Prelude.{◌≡◌, take, IfOk, IfSome, IsTrue};
ghost use Rattle.std.specs.FinSet as set;
ghost use Rattle.vipr_table.specs.IndexList.{listed_set, Rises};
ghost use Rattle.vipr_table.specs.{Rising.IsRising};

use crate::assumptions::pages::IndexPages;
use std::alloc::AllocError;
use vipr_shared::Shared;

/// Indices in one list or in pages. Only more than one index takes memory, and a copy takes none.
#[derive(Debug, Drop)]
pub(crate) enum IndexList {
    Nothing,
    One(u32),
    /// The first so many indices of a list.
    Many(u32, Shared<Vec<u32>>),
    Longer(Shared<IndexPages>),
}

impl IndexList {
    /// A copy, which shares the lists.
    pub(crate) fn try_copy(&self) -> Result<IndexList, AllocError>
        ensures { IfOk result (λ copy. copy ≡ self.now) }
    {
        match self {
            IndexList::Nothing => Ok(IndexList::Nothing),
            IndexList::One(index) => Ok(IndexList::One(*index)),
            IndexList::Many(count, items) => Ok(IndexList::Many(*count, items.clone()?)),
            IndexList::Longer(pages) => Ok(IndexList::Longer(pages.clone()?)),
        }
    }

    /// Whether both hold one list, as a value and its copies do. `true` says that their indices are
    /// equal.
    pub(crate) fn is_one(&self, other: &IndexList) -> bool
        ensures { IsTrue result → listed_set self.now ≡ listed_set other.now }
    {
        match (self, other) {
            (IndexList::Nothing, IndexList::Nothing) => true,
            (IndexList::Many(count, items), IndexList::Many(other, others)) => {
                *count == *other && items.is_one(others)
            }
            (IndexList::Longer(pages), IndexList::Longer(others)) => pages.is_one(others),
            _ => false,
        }
    }
}

/// The first so many indices of a list.
#[inline(always)]
pub(crate) fn front_of(count: u32, items: &Shared<Vec<u32>>) -> &[u32]
    ensures { result.now ≡ take count items.now.items }
{
    let all = items.as_ref().as_slice();
    &all[..(count as usize).min(all.len())]
}

/// The first so many indices of a list but for the last one, if that is this one. It takes no
/// memory.
#[inline(always)]
pub(crate) fn front_but_last(
    count: u32,
    items: &Shared<Vec<u32>>,
    index: u32,
) -> Result<Option<IndexList>, AllocError>
    requires { IsRising (take count items.now.items) }
    ensures rises { IfOk result (λ o. IfSome o Rises) }
    ensures set { IfOk result (λ o. IfSome o (λ rest. listed_set rest
        ≡ set.remove (set.from_list (take count items.now.items)) index)) }
{
    match front_of(count, items).split_last() {
        Some((last, rest)) if *last == index => {
            if let [only] = rest {
                return Ok(Some(IndexList::One(*only)));
            }
            let items = items.clone()?;
            Ok(Some(IndexList::Many(rest.len() as u32, items)))
        }
        _ => Ok(None),
    }
}
