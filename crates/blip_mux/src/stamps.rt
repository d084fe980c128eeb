//! The stamps of the messages that may send, the lowest first.

ghost use Rattle.std.specs.Prelude.{◌≡◌, ◌==◌, ◌+◌, ◌<◌, ◌≤◌, cond, ℕ, IfSome, IfNone, OnOk};
ghost use Rattle.std.specs.BinaryHeap.{IsHeap, heap_items, heap_len, heap_capacity};
ghost use Rattle.std.specs.Ordering.{nat_cmp};
ghost use Rattle.std.proofs.Props.{props};
ghost use Rattle.blip_mux.specs.inner.Stamps.{times, IsLowest};

use std::alloc::{AllocError, Global};
use std::cmp::Reverse;
use std::collections::BinaryHeap;

/// Stamps, and room for more of them that was reserved.
#[derive(Drop)]
pub(crate) struct Stamps {
    heap: BinaryHeap<Reverse<u64>>,
    ghost ordered: { IsHeap (λ x y. nat_cmp y.0 x.0) (heap_items heap) } by { Prim.hlevel props },
}

impl Stamps {
    /// No stamps. Allocates nothing.
    pub(crate) fn new(alloc: Global) -> Stamps
        ensures times { (q : ℕ) → times q (heap_items result.heap) ≡ 0 }
        ensures len { heap_len result.heap ≡ 0 }
    {
        Stamps {
            heap: BinaryHeap::new(alloc),
        }
    }

    /// Reserves room for so many stamps in all.
    pub(crate) fn reserve(&mut self, count: usize) -> Result<(), AllocError>
        ensures items { heap_items self.new.heap ≡ heap_items self.old.heap }
        ensures len { heap_len self.new.heap ≡ heap_len self.old.heap }
        ensures room { heap_capacity self.old.heap ≤ heap_capacity self.new.heap }
        ensures ok { OnOk result (count ≤ heap_capacity self.new.heap) }
    {
        let more = count.saturating_sub(self.heap.len());
        self.heap.reserve(more)
    }

    /// The lowest stamp.
    pub(crate) fn lowest(&self) -> Option<u64>
        ensures some { IfSome result (λ stamp. IsLowest stamp (heap_items self.now.heap)) }
        ensures none { IfNone result ((q : ℕ) → times q (heap_items self.now.heap) ≡ 0) }
    {
        match self.heap.peek() {
            Some(lowest) => Some(lowest.0),
            None => None,
        }
    }

    /// Puts a stamp, for which there is room.
    pub(crate) fn put(&mut self, stamp: u64)
        requires { heap_len self.old.heap < heap_capacity self.old.heap }
        ensures times { (q : ℕ) → times q (heap_items self.new.heap)
            ≡ cond (stamp == q) 1 0 + times q (heap_items self.old.heap) }
        ensures len { heap_len self.new.heap ≡ heap_len self.old.heap + 1 }
        ensures room { heap_capacity self.old.heap ≤ heap_capacity self.new.heap }
    {
        let _ = self.heap.push(Reverse(stamp));
    }

    /// Takes the lowest stamp away.
    pub(crate) fn drop_lowest(&mut self, stamp: u64)
        requires { IsLowest stamp (heap_items self.old.heap) }
        ensures times { (q : ℕ) → times q (heap_items self.new.heap)
            + cond (stamp == q) 1 0 ≡ times q (heap_items self.old.heap) }
        ensures len { heap_len self.new.heap + 1 ≡ heap_len self.old.heap }
        ensures room { heap_capacity self.new.heap ≡ heap_capacity self.old.heap }
    {
        let _ = self.heap.pop();
    }
}
