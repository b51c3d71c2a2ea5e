// A store of entries, over which a `SlotList` is an open list.
ghost use Rattle.std.specs.Prelude.{◌≡◌, ◌<◌, ◌≤◌, ℕ, List, [], length, IfOk};
ghost use Rattle.costs.specs.Bag.{first, inserted, rest};
ghost use Rattle.costs.specs.Order.{Rising};
ghost use Rattle.costs.specs.declared.entry.Entry.{Entry};

use crate::entry::Entry;
use std::alloc::{AllocError, Global};

// That the room stays is said of each call that changes a store: it is what the call leaves and no fact of one store, so that
// no type can hold it more plainly. Where an entry is added it is no less: the library says no more of a heap's push.
pub trait Store: Drop {
    // The entries, in rising order.
    ghost bag: { Self → List Entry };

    // For how many entries there is memory.
    ghost room: { Self → ℕ };

    // Fails only for want of memory.
    fn with_room(heap: Global, slots: usize) -> Result<Self, AllocError>
        ensures bag { IfOk result (λ store. bag store ≡ []) }
        ensures room { IfOk result (λ store. slots ≤ room store) };

    fn count(&self) -> usize
        ensures { result ≡ length (bag self.now) };

    fn least(&self) -> Option<Entry>
        ensures { result ≡ first (bag self.now) };

    fn add(&mut self, entry: Entry)
        requires { length (bag self.old) < room self.old }
        ensures bag { bag self.new ≡ inserted entry (bag self.old) }
        ensures room { room self.old ≤ room self.new };

    // Gives the least entry, which is kept no more.
    fn take_least(&mut self) -> Option<Entry>
        ensures value { result ≡ first (bag self.old) }
        ensures bag { bag self.new ≡ rest (bag self.old) }
        ensures room { room self.new ≡ room self.old };

    fn clear(&mut self)
        ensures bag { bag self.new ≡ [] }
        ensures room { room self.new ≡ room self.old };

    ghost rising: { (store : Self) → Rising (bag store) };
}
