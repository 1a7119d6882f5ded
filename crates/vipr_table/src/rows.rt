//! Tables of derived constraints by index.
//!
//! A [`Rows`] keeps an [`Entry`] for each derived constraint that a later derivation may refer to.
//! Derivations come in the order of their indices, and each has a last reference: `advance` forgets
//! what no derivation after the next may refer to, and `put` places an entry at the next index. In
//! contracts a table is the function from an index to its live entry. The crate has two tables: one
//! drops what is forgotten, the other keeps it and hides it.
mod expiry;
mod hasher;
mod keep_all;
mod laws;
mod live_only;

ghost use Rattle.std.specs.Prelude.{◌≡◌, ◌+◌, ◌<◌, ◌^◌, OnOk, OnErr, IfErr, option_copied};
ghost use Rattle.vipr_table.specs.Table.{expiry as expiry_of, is_live_before as live_before};
ghost use Rattle.vipr_table.specs.Table.{Table, empty_table, advance_table, put_entry};
ghost use Rattle.vipr_table.specs.Table.{entry_at, held_count as held_in};

use crate::assumptions::Assumptions;
pub use keep_all::KeepAll;
pub use laws::{names_stay_below, table_holds_what_is_live};
pub use live_only::LiveOnly;
use std::alloc::{AllocError, Global};
use vipr_linear::Constraint;

/// What a table keeps of a derived constraint.
#[derive(Debug, Drop)]
pub struct Entry {
    /// The constraint as it is stated.
    pub constraint: Constraint,
    /// The assumptions that it rests on.
    pub assumptions: Assumptions,
    /// Whether it is an assumption itself, which is never dropped.
    pub is_assumption: bool,
    /// Its last reference: the index of the last derivation that may refer to it, or none if
    /// it is never dropped.
    pub last: Option<u32>,
}

impl Entry {
    /// The last derivation that may refer to the entry, if there is one.
    fn expiry(&self) -> Option<u32>
        ensures { result ≡ expiry_of self.now }
    {
        if self.is_assumption { None } else { self.last }
    }

    /// Whether derivation `k` or a later one may refer to the entry.
    fn is_live_before(&self, k: u32) -> bool
        ensures { result ≡ live_before k self.now }
    {
        self.is_assumption || self.last.is_none_or(|last| k <= last)
    }
}

/// A table of entries by index, which forgets those that no later derivation may refer to.
pub trait Rows: Drop {
    ghost table: { Self → Table };

    /// An empty table, whose first entry gets the index `first`. Takes no memory.
    fn new(alloc: Global, first: u32) -> Self
        ensures { table result ≡ empty_table first };

    /// Forgets each entry that no derivation after the next may refer to.
    fn advance(&mut self)
        ensures { table self.new ≡ advance_table (table self.old) };

    /// Places the entry at the next index, or hands it back.
    fn put(&mut self, entry: Entry) -> Result<(), (Entry, AllocError)>
        requires { (table self.old).next + 1 < 2 ^ 32 }
        ensures ok { OnOk result (table self.new ≡ put_entry (table self.old) entry) }
        ensures err { OnErr result (table self.new ≡ table self.old) }
        ensures handed_back { IfErr result (λ p. p.0 ≡ entry) };

    /// The entry at `index`, if the next derivation may refer to it.
    fn get(&self, index: u32) -> Option<&Entry>
        ensures { option_copied result ≡ entry_at (table self.now) index };

    /// How many entries are not forgotten.
    fn held(&self) -> usize
        ensures { result ≡ held_in (table self.now) };

    /// The index that the next entry gets.
    fn next(&self) -> u32
        ensures { result ≡ (table self.now).next };
}
