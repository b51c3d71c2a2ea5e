// The open list over a store of entries: it knows how many slots there are, and the store what waits.
ghost use Rattle.std.specs.Prelude.{◌≡◌, ◌≤◌, length};

use crate::entry::Entry;
use crate::full::Full;
use crate::open_list::{MOST_SLOTS, OpenList};
use crate::store::Store;
use std::alloc::{AllocError, Global};

// No more wait than there are slots, and the memory for every slot is there.
#[derive(Drop)]
pub struct SlotList<S: Store> {
    store: S,
    slots: usize,
    ghost within: { length (S.bag store) ≤ slots },
    ghost reserved: { slots ≤ S.room store },
    ghost limit: { slots ≤ 2048 },
}

impl<S: Store> SlotList<S> {
    ghost use Rattle.std.specs.Prelude.{min, [], IfOk};

    // Fails only for want of memory.
    pub fn new(heap: Global, slots: usize) -> Result<SlotList<S>, AllocError>
        ensures bag { IfOk result (λ list. ⟦<SlotList<S> as OpenList>⟧.bag list ≡ []) }
        ensures slots { IfOk result (λ list. ⟦<SlotList<S> as OpenList>⟧.slots list ≡ min slots 2048) }
    {
        let slots = slots.min(MOST_SLOTS);
        let store = S::with_room(heap, slots)?;
        Ok(SlotList { store, slots })
    }
}

impl<S: Store> OpenList for SlotList<S> {
    ghost bag = { λ list. S.bag list.store };

    ghost slots = { λ list. list.slots };

    ghost sound = { λ list.
        record {
          rising = S.rising list.store;
          within = list.within;
          limit = list.limit;
        } };

    fn count(&self) -> usize {
        self.store.count()
    }

    fn slots(&self) -> usize {
        self.slots
    }

    fn look(&self) -> Option<Entry> {
        self.store.least()
    }

    #[tactic(auto, using(crate::specs::Bags::length_inserted))]
    fn put(&mut self, entry: Entry) -> Result<(), Full> {
        if self.store.count() == self.slots {
            return Err(Full);
        }
        self.store.add(entry);
        Ok(())
    }

    fn take(&mut self) -> Option<Entry> {
        self.store.take_least()
    }

    fn clear(&mut self) {
        self.store.clear();
    }
}
