// The open list in order of arrival.
ghost use Rattle.std.specs.Prelude.{◌≡◌, ◌<◌, length, IfNone, IfSome};
ghost use Rattle.costs.specs.Order.{LeastTo};

use crate::entry::Entry;
use crate::slot_list::SlotList;
use crate::store::Store;
use std::alloc::{AllocError, Global};

pub type ArrivalList = SlotList<Arrivals>;

// The entries in order of arrival, which are searched for the least.
#[derive(Drop)]
pub struct Arrivals {
    entries: Vec<Entry>,
}

impl Store for Arrivals {
    ghost use Rattle.std.specs.Prelude.{vec_capacity};
    ghost use Rattle.costs.specs.Bag.{sorted};
    ghost use Rattle.costs.specs.Bags.{rising_sorted};

    ghost bag = { λ list. sorted list.entries.items };

    ghost room = { λ list. vec_capacity list.entries };

    ghost rising = { λ list. rising_sorted list.entries.items };

    fn with_room(heap: Global, slots: usize) -> Result<Arrivals, AllocError> {
        let entries = Vec::with_capacity(heap, slots)?;
        Ok(Arrivals { entries })
    }

    #[tactic(auto, using(crate::specs::Bags::length_sorted))]
    fn count(&self) -> usize {
        self.entries.len()
    }

    #[tactic(auto, using(crate::proofs::Leasts::first_is))]
    fn least(&self) -> Option<Entry> {
        let at = least_at(&self.entries)?;
        Some(self.entries[at])
    }

    #[tactic(auto, using(crate::specs::Bags::length_sorted, crate::specs::Bags::sorted_push))]
    fn add(&mut self, entry: Entry) {
        self.entries.push_reserved(entry);
    }

    #[tactic(auto, using(crate::proofs::Leasts::first_is, crate::proofs::Leasts::rest_is))]
    fn take_least(&mut self) -> Option<Entry> {
        let at = least_at(&self.entries)?;
        Some(self.entries.remove(at))
    }

    fn clear(&mut self) {
        self.entries.clear();
    }
}

// Where the least entry stands. By a loop: a chain of adapters over pairs took a third more time.
fn least_at(entries: &[Entry]) -> Option<usize>
    ensures none { IfNone result (length entries.now ≡ 0) }
    ensures bound { IfSome result (λ i. i < length entries.now) }
    ensures least { IfSome result (λ i. LeastTo entries.now i (length entries.now)) }
{
    if entries.is_empty() {
        return None;
    }
    let mut least = 0;
    for at in 1..entries.len() {
        if entries[at].is_before(entries[least]) {
            least = at;
        }
    }
    Some(least)
}
