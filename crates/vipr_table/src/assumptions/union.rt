//! The union of sets that come one after another.

ghost use Rattle.std.specs.Prelude.{◌≡◌, ℕ, false, IsTrue, IfOk, OnOk};
ghost use Rattle.std.specs.FinSet as set;
ghost use Rattle.vipr_table.specs.Sets.{union_of_all};
ghost use Rattle.vipr_table.specs.Unions.{union_so_far, has_noted, NotesAtMost};

use crate::assumptions::Assumptions;
use std::alloc::{AllocError, Global};
use std::collections::BTreeSet;
use std::mem;

/// The union of the sets that were added. A large one waits below the last until that has grown to
/// about its size, so that no index is moved often. The indices of small ones wait for the end.
#[derive(Drop)]
pub struct Union {
    last: Assumptions,
    below: Vec<Assumptions>,
    // in any order, and some may occur twice
    few: Vec<u32>,
    // indices of constraints whose sets were added, but for small sets
    noted: BTreeSet<u32>,
}

fn put(place: &mut Assumptions, set: Assumptions)
    ensures { place.new ≡ set }
{
    drop(mem::replace(place, set));
}

// Whether a set is small enough to be joined at once to one of another size.
fn is_near(len: usize, other: usize) -> bool {
    len < 32 || len / 2 <= other
}

impl Union {
    /// The union of no sets. Takes no memory.
    pub fn new(alloc: Global) -> Union
        ensures none { union_so_far result ≡ set.empty }
        ensures not_noted { (i : ℕ) → has_noted result i ≡ false }
    {
        Union {
            last: Assumptions::empty(alloc),
            below: Vec::new(alloc),
            few: Vec::new(alloc),
            noted: BTreeSet::new(alloc),
        }
    }

    /// Adds the set of constraint `index`. If that is named again, it costs a look-up at most.
    pub fn add_once(
        &mut self,
        alloc: Global,
        index: u32,
        more: &Assumptions,
    ) -> Result<(), AllocError>
        requires { IsTrue (has_noted self.old index)
            → union_so_far self.old ≡ set.union (union_so_far self.old) more.now }
        ensures union { OnOk result
            (union_so_far self.new ≡ set.union (union_so_far self.old) more.now) }
        ensures noted { OnOk result (NotesAtMost index self.old self.new) }
    {
        if more.as_few().is_some() {
            return self.add(alloc, more);
        }
        if !self.noted.insert(index)? {
            return Ok(());
        }
        self.add(alloc, more)
    }

    /// Adds a set.
    #[inline(always)]
    pub fn add(&mut self, alloc: Global, more: &Assumptions) -> Result<(), AllocError>
        ensures union { OnOk result
            (union_so_far self.new ≡ set.union (union_so_far self.old) more.now) }
        ensures noted { self.new.noted ≡ self.old.noted }
    {
        if more.is_empty() {
            return Ok(());
        }
        match more.as_few() {
            Some(few) if !self.last.is_empty() => self.few.extend_from_slice(few),
            _ => self.place(alloc, more),
        }
    }

    // Joins a set to the last one, or puts it above if it is much smaller.
    fn place(&mut self, alloc: Global, more: &Assumptions) -> Result<(), AllocError>
        ensures union { OnOk result
            (union_so_far self.new ≡ set.union (union_so_far self.old) more.now) }
        ensures noted { self.new.noted ≡ self.old.noted }
    {
        if is_near(self.last.len(), more.len()) {
            let joined = self.last.union(alloc, more)?;
            put(&mut self.last, joined);
        } else {
            let last = mem::replace(&mut self.last, more.clone()?);
            self.below.push(last)?;
        }
        self.settle(alloc)
    }

    // Joins what waits to the last set, as far as it isn't much larger.
    fn settle(&mut self, alloc: Global) -> Result<(), AllocError>
        ensures union { OnOk result (union_so_far self.new ≡ union_so_far self.old) }
        ensures noted { self.new.noted ≡ self.old.noted }
    {
        while let Some(top) = self.below.pop() {
            if !is_near(top.len(), self.last.len()) {
                self.below.push(top)?;
                return Ok(());
            }
            let joined = top.union(alloc, &self.last);
            drop(top);
            put(&mut self.last, joined?);
        }
        Ok(())
    }

    /// The union of all.
    #[inline(always)]
    pub fn finish(self, alloc: Global) -> Result<Assumptions, AllocError>
        ensures { IfOk result (λ s. s ≡ union_so_far self) }
    {
        let Union {
            last,
            below,
            few,
            ..
        } = self;
        if below.is_empty() && few.is_empty() {
            return Ok(last);
        }
        with_below(alloc, below, with_few(alloc, last, few)?)
    }
}

// The union of a set with those below it, the last first.
fn with_below(
    alloc: Global,
    mut below: Vec<Assumptions>,
    last: Assumptions,
) -> Result<Assumptions, AllocError>
    ensures { IfOk result (λ s. s ≡ set.union (union_of_all below.items) last) }
{
    let mut all = last;
    while let Some(top) = below.pop() {
        let joined = top.union(alloc, &all);
        drop(top);
        let Ok(joined) = joined else {
            drop(all);
            return Err(AllocError);
        };
        put(&mut all, joined);
    }
    Ok(all)
}

// A set with these indices, which may come in any order.
fn with_few(alloc: Global, last: Assumptions, few: Vec<u32>) -> Result<Assumptions, AllocError>
    ensures { IfOk result (λ s. s ≡ set.union last (set.from_list few.items)) }
{
    if few.is_empty() {
        return Ok(last);
    }
    let Ok(few) = Assumptions::of_indices(alloc, few) else {
        drop(last);
        return Err(AllocError);
    };
    let union = last.union(alloc, &few);
    drop(few);
    drop(last);
    union
}
