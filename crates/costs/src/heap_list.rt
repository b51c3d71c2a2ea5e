// The open list as a binary heap.
ghost use Rattle.std.specs.BinaryHeap.{IsHeap, heap_items};
ghost use Rattle.std.proofs.Props.{props};
ghost use Rattle.costs.specs.Reversed.{by_reverse};

use crate::entry::Entry;
use crate::slot_list::SlotList;
use crate::store::Store;
use std::alloc::{AllocError, Global};
use std::cmp::Reverse;
use std::collections::BinaryHeap;

pub type HeapList = SlotList<Heap>;

// The library's heap serves its greatest first, so the order of the entries is reversed.
#[derive(Drop)]
pub struct Heap {
    entries: BinaryHeap<Reverse<Entry>>,
    ghost ordered: { IsHeap by_reverse (heap_items entries) } by { Prim.hlevel props },
}

impl Store for Heap {
    ghost use Rattle.std.specs.BinaryHeap.{heap_items, heap_capacity};
    ghost use Rattle.costs.specs.Bag.{sorted};
    ghost use Rattle.costs.specs.Bags.{rising_sorted};
    ghost use Rattle.costs.specs.Reversed.{unreversed};

    ghost bag = { λ heap. sorted (unreversed (heap_items heap.entries)) };

    ghost room = { λ heap. heap_capacity heap.entries };

    ghost rising = { λ heap. rising_sorted (unreversed (heap_items heap.entries)) };

    fn with_room(heap: Global, slots: usize) -> Result<Heap, AllocError> {
        let entries = BinaryHeap::with_capacity(heap, slots)?;
        Ok(Heap { entries })
    }

    #[tactic(auto, using(crate::proofs::Reversed::length_bag))]
    fn count(&self) -> usize {
        self.entries.len()
    }

    #[tactic(auto, using(crate::proofs::Reversed::peeked))]
    fn least(&self) -> Option<Entry> {
        let Reverse(least) = self.entries.peek()?;
        Some(*least)
    }

    // There is room, so the push does not fail.
    #[tactic(auto, using(crate::proofs::Reversed::length_bag, crate::proofs::Reversed::pushed))]
    fn add(&mut self, entry: Entry) {
        let _ = self.entries.push(Reverse(entry));
    }

    #[tactic(auto, using(crate::proofs::Reversed::popped))]
    fn take_least(&mut self) -> Option<Entry> {
        let Reverse(least) = self.entries.pop()?;
        Some(least)
    }

    fn clear(&mut self) {
        self.entries.clear();
    }
}
