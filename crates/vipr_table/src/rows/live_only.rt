//! A table that holds live entries alone.

ghost use Rattle.std.specs.Prelude.{◌≡◌};
ghost use Rattle.std.specs.Ordering.{nat_cmp};
ghost use Rattle.std.specs.FinMap as map;

use crate::rows::expiry::Order;
use crate::rows::hasher::IndexHashing;
use crate::rows::{Entry, Rows};
use indexmap::IndexMap;
use std::alloc::{AllocError, Global};
use std::marker::Model;

/// A table that holds exactly the entries that are not forgotten.
#[derive(Drop)]
pub struct LiveOnly {
    first: u32,
    next: u32,
    rows: IndexMap<u32, Entry, IndexHashing>,
    order: Order,
}

// Takes the entry at an index out, if there is one.
fn forget(rows: &mut IndexMap<u32, Entry, IndexHashing>, index: u32)
    ensures { map.from_entries {R = nat_cmp} rows.new.entries
        ≡ map.remove (map.from_entries rows.old.entries) index }
{
    rows.swap_remove(&index);
}

impl Model for LiveOnly {
    ghost use Rattle.vipr_table.specs.Table.{Table};
    ghost use Rattle.vipr_table.specs.TableCode.{table_code};

    ghost Value = { Table };

    ghost coded = { table_code };

    ghost use Rattle.std.specs.FinMap as map;
    ghost use Rattle.vipr_table.specs.Expiry.{dues, IsTied};

    ghost view = { λ a.
        record { first = a.first; next = a.next; entries = map.from_entries a.rows.entries } };

    ghost invariant = { λ a. IsTied a.next (map.from_entries a.rows.entries) (dues a.order.heap) };
}

impl Rows for LiveOnly {
    ghost table = { λ t. t };

    fn new(alloc: Global, first: u32) -> Self {
        LiveOnly {
            first,
            next: first,
            rows: IndexMap::with_hasher(alloc, IndexHashing),
            order: Order::new(alloc),
        }
    }

    fn advance(&mut self) {
        while let Some(index) = self.order.take_due(self.next) {
            forget(&mut self.rows, index);
        }
    }

    #[inline(always)]
    fn put(&mut self, entry: Entry) -> Result<(), (Entry, AllocError)> {
        let index = self.next;
        let expiry = entry.expiry();
        if let Err(e) = self.order.reserve_one() {
            return Err((entry, e));
        }
        let Ok(place) = self.rows.entry(index) else {
            return Err((entry, AllocError));
        };
        place.insert_entry(entry);
        self.order.note(expiry, index);
        self.next += 1;
        Ok(())
    }

    fn get(&self, index: u32) -> Option<&Entry> {
        let Some(entry) = self.rows.get(&index) else {
            return None;
        };
        if entry.is_live_before(self.next) {
            Some(entry)
        } else {
            None
        }
    }

    fn held(&self) -> usize {
        self.rows.len()
    }

    fn next(&self) -> u32 {
        self.next
    }
}
