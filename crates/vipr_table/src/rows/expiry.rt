//! When the entries of a table expire.

ghost use Rattle.std.specs.Prelude.{◌≡◌, ℕ, ◌<◌, ◌≤◌, OnOk, IfSome, IfNone, All, IsPermutation};
ghost use Rattle.std.specs.Prelude.{◌∷◌, []};
ghost use Rattle.std.specs.BinaryHeap.{IsHeap, heap_items, heap_len, heap_capacity};
ghost use Rattle.std.proofs.Props.{props};
ghost use Rattle.vipr_table.specs.Expiry.{due_cmp, dues, Notes};

use std::alloc::{AllocError, Global};
use std::cmp::Reverse;
use std::collections::BinaryHeap;

/// Indices in the order of the last derivation that may refer to each.
#[derive(Drop)]
pub(crate) struct Order {
    heap: BinaryHeap<Reverse<(u32, u32)>>,
    ghost ordered: { IsHeap due_cmp (heap_items heap) } by { Prim.hlevel props },
}

impl Order {
    pub(crate) fn new(alloc: Global) -> Self
        ensures { dues result.heap ≡ [] }
    {
        Order {
            heap: BinaryHeap::new(alloc),
        }
    }

    /// Makes room for one more.
    pub(crate) fn reserve_one(&mut self) -> Result<(), AllocError>
        ensures same { dues self.new.heap ≡ dues self.old.heap }
        ensures room { OnOk result (heap_len self.new.heap < heap_capacity self.new.heap) }
    {
        self.heap.reserve(1)
    }

    /// Notes when the entry at `index` expires, if it does.
    pub(crate) fn note(&mut self, expiry: Option<u32>, index: u32)
        requires { heap_len self.old.heap < heap_capacity self.old.heap }
        ensures { Notes expiry index (dues self.old.heap) (dues self.new.heap) }
    {
        if let Some(last) = expiry {
            self.heap.push(Reverse((last, index))).unwrap();
        }
    }

    /// Takes out an index whose last derivation is at most `now`.
    pub(crate) fn take_due(&mut self, now: u32) -> Option<u32>
        ensures some { IfSome result (λ index. (last : ℕ) × (last ≤ now)
            × IsPermutation (dues self.old.heap) ((last, index) ∷ dues self.new.heap)) }
        ensures unchanged { IfNone result (dues self.new.heap ≡ dues self.old.heap) }
        ensures none { IfNone result (All (λ d. now < d.0) (dues self.old.heap)) }
    {
        let Some(Reverse((last, _))) = self.heap.peek() else {
            return None;
        };
        if now < *last {
            return None;
        }
        match self.heap.pop() {
            Some(Reverse((_, index))) => Some(index),
            None => None,
        }
    }
}
