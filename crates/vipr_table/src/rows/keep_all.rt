//! A table that keeps every entry.

ghost use Rattle.std.specs.Prelude.{◌≡◌, ◌<◌, length, is_some, slice_get, if◌then◌else◌};
ghost use Rattle.vipr_table.specs.KeepAll.{forget_at, entry_if_kept};

use crate::rows::expiry::Order;
use crate::rows::{Entry, Rows};
use std::alloc::{AllocError, Global};
use std::marker::Model;

/// A table that keeps every entry, and hides those that are forgotten.
#[derive(Drop)]
pub struct KeepAll {
    first: u32,
    next: u32,
    kept: Vec<Kept>,
    held: usize,
    order: Order,
}

#[derive(Drop)]
struct Kept {
    entry: Entry,
    is_forgotten: bool,
}

// Marks the entry at a place. The answer is 1 if it wasn't marked before, and else 0.
fn forget(kept: &mut Vec<Kept>, at: usize) -> usize
    requires { at < length kept.old.items }
    ensures items { kept.new.items ≡ forget_at kept.old.items at }
    ensures count { result
        ≡ (if is_some (entry_if_kept (slice_get kept.old.items at)) then 1 else 0) }
{
    let kept = &mut kept[at];
    let was_shown = !kept.is_forgotten;
    kept.is_forgotten = true;
    was_shown as usize
}

impl Model for KeepAll {
    ghost use Rattle.vipr_table.specs.Table.{Table};
    ghost use Rattle.vipr_table.specs.TableCode.{table_code};

    ghost Value = { Table };

    ghost coded = { table_code };

    ghost use Rattle.vipr_table.specs.Expiry.{dues};
    ghost use Rattle.vipr_table.specs.KeepAll.{entries_not_forgotten, IsKept};

    ghost view = { λ a.
        record {
          first = a.first;
          next = a.next;
          entries = entries_not_forgotten a.first a.kept.items;
        } };

    ghost invariant = { λ a. IsKept a.first a.next a.kept.items a.held (dues a.order.heap) };
}

impl Rows for KeepAll {
    ghost table = { λ t. t };

    fn new(alloc: Global, first: u32) -> Self {
        KeepAll {
            first,
            next: first,
            kept: Vec::new(alloc),
            held: 0,
            order: Order::new(alloc),
        }
    }

    fn advance(&mut self) {
        while let Some(index) = self.order.take_due(self.next) {
            self.held -= forget(&mut self.kept, (index - self.first) as usize);
        }
    }

    fn put(&mut self, entry: Entry) -> Result<(), (Entry, AllocError)> {
        let index = self.next;
        let expiry = entry.expiry();
        if let Err(e) = self.order.reserve_one() {
            return Err((entry, e));
        }
        let kept = Kept {
            entry,
            is_forgotten: false,
        };
        if let Err(refused) = self.kept.push(kept) {
            return Err((refused.value.entry, AllocError));
        }
        self.order.note(expiry, index);
        self.held += 1;
        self.next += 1;
        Ok(())
    }

    fn get(&self, index: u32) -> Option<&Entry> {
        if index < self.first {
            return None;
        }
        if self.next <= index {
            return None;
        }
        let kept = &self.kept[(index - self.first) as usize];
        if kept.is_forgotten {
            return None;
        }
        if kept.entry.is_live_before(self.next) {
            Some(&kept.entry)
        } else {
            None
        }
    }

    fn held(&self) -> usize {
        self.held
    }

    fn next(&self) -> u32 {
        self.next
    }
}
