//! Large sets of indices in pages. They share all pages that they have in common with the sets that
//! they were made from.

ghost use Rattle.std.specs.Prelude.{◌≡◌, ◌↔◌, IfOk, IsTrue, OnOk};
ghost use Rattle.std.specs.FinSet as set;
ghost use Rattle.vipr_table.specs.{Rising.IsRising, Sets.union_of_all};

use crate::assumptions::page::{IndexPage, end_of_range, words_for};
use std::alloc::{AllocError, Global};
use std::marker::Model;
use vipr_shared::Shared;

// The indices of a page differ in so many of their last bits at most.
const PAGE_BITS: u32 = 11;

/// A set in pages. The indices of a page are those of one range of 2,048 numbers, and the pages
/// come in the order of their ranges.
#[derive(Debug, Drop)]
pub(crate) struct IndexPages {
    pages: Vec<Shared<IndexPage>>,
}

impl Model for IndexPages {
    ghost use Rattle.std.specs.Coded.{coded_ℕ};
    ghost use Rattle.std.specs.FinSet as set;
    ghost use Rattle.std.specs.Ordering.{nat_cmp};
    ghost use Rattle.vipr_table.specs.Sets.{union_of_all};

    ghost Value = { set.FinSet nat_cmp };

    ghost coded = { set.code coded_ℕ };

    ghost view = { λ p. union_of_all p.pages.items };
}

impl IndexPages {
    /// The pages of these indices.
    pub(crate) fn of_rising(alloc: Global, items: &[u32]) -> Result<IndexPages, AllocError>
        requires { IsRising items.now }
        ensures { IfOk result (λ pages. pages ≡ set.from_list items.now) }
    {
        let mut pages = Vec::new(alloc);
        let mut start = 0;
        while start < items.len() {
            let end = end_of_range(items, start, PAGE_BITS);
            pages.push(Shared::new(alloc, IndexPage::of_rising(alloc, &items[start..end])?)?)?;
            start = end;
        }
        Ok(IndexPages { pages })
    }

    /// Whether no index is in a page.
    pub(crate) fn is_empty(&self) -> bool
        ensures { IsTrue result ↔ (self.now ≡ set.empty) }
    {
        are_empty(self.pages.as_slice())
    }

    /// Whether an index is in one of the pages.
    pub(crate) fn contains(&self, index: u32) -> bool
        ensures { result ≡ set.contains self.now index }
    {
        one_has(self.pages.as_slice(), index)
    }

    /// The indices of both. Pages to which the other set adds nothing are shared.
    pub(crate) fn union(&self, alloc: Global, other: &IndexPages) -> Result<IndexPages, AllocError>
        ensures { IfOk result (λ pages. pages ≡ set.union self.now other.now) }
    {
        let pages = united(alloc, self.pages.as_slice(), other.pages.as_slice())?;
        Ok(IndexPages { pages })
    }

    /// All indices but one. Pages that don't have it are shared.
    pub(crate) fn without(&self, alloc: Global, index: u32) -> Result<IndexPages, AllocError>
        ensures { IfOk result (λ pages. pages ≡ set.remove self.now index) }
    {
        let pages = pages_without(alloc, self.pages.as_slice(), index)?;
        Ok(IndexPages { pages })
    }

    /// Whether both share all pages. `true` says that they are equal.
    pub(crate) fn is_same(&self, other: &IndexPages) -> bool
        ensures { IsTrue result → self.now ≡ other.now }
    {
        are_same(self.pages.as_slice(), other.pages.as_slice())
    }

    /// The indices of all pages.
    pub(crate) fn indices(&self, alloc: Global) -> Result<Vec<u32>, AllocError>
        ensures { IfOk result (λ v. set.from_list v.items ≡ self.now) }
    {
        let mut indices = Vec::with_capacity(alloc, self.len())?;
        add_indices(&mut indices, self.pages.as_slice())?;
        Ok(indices)
    }

    /// How many indices there are.
    pub(crate) fn len(&self) -> usize {
        let mut len = 0_usize;
        for page in &self.pages {
            len = len.saturating_add(page.as_ref().len());
        }
        len
    }

    /// How many words there are.
    pub(crate) fn words(&self) -> usize {
        let mut words = 0_usize;
        for page in &self.pages {
            words = words.saturating_add(page.as_ref().words());
        }
        words
    }
}

/// How many words the pages of these indices have.
pub(crate) fn words_in_pages(items: &[u32]) -> usize {
    words_for(items, PAGE_BITS)
}

// The range of a page.
fn range_of(page: &Shared<IndexPage>) -> u32 {
    page.as_ref().start() >> PAGE_BITS
}

// Whether no page has an index.
fn are_empty(pages: &[Shared<IndexPage>]) -> bool
    ensures { IsTrue result ↔ (union_of_all pages.now ≡ set.empty) }
{
    for page in pages {
        if !page.as_ref().is_empty() {
            return false;
        }
    }
    true
}

// Whether one of the pages has an index.
fn one_has(pages: &[Shared<IndexPage>], index: u32) -> bool
    ensures { result ≡ set.contains (union_of_all pages.now) index }
{
    for page in pages {
        if page.as_ref().contains(index) {
            return true;
        }
    }
    false
}

// Whether these pages are one by one the same.
fn are_same(pages: &[Shared<IndexPage>], others: &[Shared<IndexPage>]) -> bool
    ensures { IsTrue result → union_of_all pages.now ≡ union_of_all others.now }
{
    if pages.len() != others.len() {
        return false;
    }
    let mut i = 0;
    while i < pages.len() {
        if !pages[i].is_one(&others[i]) {
            return false;
        }
        i += 1;
    }
    true
}

// The pages of both, where those of one range are one.
fn united(
    alloc: Global,
    pages: &[Shared<IndexPage>],
    others: &[Shared<IndexPage>],
) -> Result<Vec<Shared<IndexPage>>, AllocError>
    ensures { IfOk result (λ all.
        union_of_all all.items ≡ set.union (union_of_all pages.now) (union_of_all others.now)) }
{
    let mut all = Vec::with_capacity(alloc, pages.len().max(others.len()))?;
    let mut i = 0;
    let mut j = 0;
    while i < pages.len() && j < others.len() {
        let range = range_of(&pages[i]);
        let other = range_of(&others[j]);
        if range < other {
            all.push(pages[i].clone()?)?;
            i += 1;
        } else if other < range {
            all.push(others[j].clone()?)?;
            j += 1;
        } else {
            all.push(union_of(alloc, &pages[i], &others[j])?)?;
            i += 1;
            j += 1;
        }
    }
    add_pages(&mut all, &pages[i..])?;
    add_pages(&mut all, &others[j..])?;
    Ok(all)
}

// The indices of both pages. A page to which the other adds nothing is shared.
fn union_of(
    alloc: Global,
    page: &Shared<IndexPage>,
    other: &Shared<IndexPage>,
) -> Result<Shared<IndexPage>, AllocError>
    ensures { IfOk result (λ union. union ≡ set.union page.now other.now) }
{
    if page.is_one(other) {
        return page.clone();
    }
    if page.as_ref().is_same(other.as_ref()) {
        return page.clone();
    }
    let union = page.as_ref().union(alloc, other.as_ref())?;
    if union.is_same(page.as_ref()) {
        return page.clone();
    }
    if union.is_same(other.as_ref()) {
        return other.clone();
    }
    Shared::new(alloc, union)
}

// Adds pages.
fn add_pages(
    pages: &mut Vec<Shared<IndexPage>>,
    more: &[Shared<IndexPage>],
) -> Result<(), AllocError>
    ensures { OnOk result (union_of_all pages.new.items
        ≡ set.union (union_of_all pages.old.items) (union_of_all more.now)) }
{
    for page in more {
        pages.push(page.clone()?)?;
    }
    Ok(())
}

// The pages without an index, but for one that has no other.
fn pages_without(
    alloc: Global,
    pages: &[Shared<IndexPage>],
    index: u32,
) -> Result<Vec<Shared<IndexPage>>, AllocError>
    ensures { IfOk result (λ rest.
        union_of_all rest.items ≡ set.remove (union_of_all pages.now) index) }
{
    let mut rest = Vec::with_capacity(alloc, pages.len())?;
    for page in pages {
        let left = page_without(alloc, page, index)?;
        if !left.as_ref().is_empty() {
            rest.push(left)?;
        }
    }
    Ok(rest)
}

// A page without an index. One that doesn't have it is shared.
fn page_without(
    alloc: Global,
    page: &Shared<IndexPage>,
    index: u32,
) -> Result<Shared<IndexPage>, AllocError>
    ensures { IfOk result (λ rest. rest ≡ set.remove page.now index) }
{
    if !page.as_ref().contains(index) {
        return page.clone();
    }
    Shared::new(alloc, page.as_ref().without(alloc, index)?)
}

// Adds the indices of the pages.
fn add_indices(indices: &mut Vec<u32>, pages: &[Shared<IndexPage>]) -> Result<(), AllocError>
    ensures { OnOk result (set.from_list indices.new.items
        ≡ set.union (set.from_list indices.old.items) (union_of_all pages.now)) }
{
    for page in pages {
        page.as_ref().add_to(indices)?;
    }
    Ok(())
}
