// The open list: what waits in a search, least entry first.
ghost use Rattle.std.specs.Prelude.{◌≡◌, ℕ, List, [], length};
ghost use Rattle.costs.specs.Bag.{Sound, first, put_answer, put_bag, rest};
ghost use Rattle.costs.specs.declared.entry.Entry.{Entry};

use crate::entry::Entry;
use crate::full::Full;

// An open list that is made with more slots gets these.
pub const MOST_SLOTS: usize = 2048;

// That the slots stay is said of each call that changes a list: it is what the call leaves and no fact of one list, so that no
// type can hold it more plainly.
pub trait OpenList {
    // The entries that wait, in rising order.
    ghost bag: { Self → List Entry };

    ghost slots: { Self → ℕ };

    fn count(&self) -> usize
        ensures { result ≡ length (bag self.now) };

    fn slots(&self) -> usize
        ensures { result ≡ slots self.now };

    // The least entry.
    fn look(&self) -> Option<Entry>
        ensures { result ≡ first (bag self.now) };

    // Refused exactly if as many wait as there are slots.
    fn put(&mut self, entry: Entry) -> Result<(), Full>
        ensures value { result ≡ put_answer (slots self.old) (bag self.old) }
        ensures bag { bag self.new ≡ put_bag (slots self.old) entry (bag self.old) }
        ensures slots { slots self.new ≡ slots self.old };

    // Gives the least entry, which waits no more.
    fn take(&mut self) -> Option<Entry>
        ensures value { result ≡ first (bag self.old) }
        ensures bag { bag self.new ≡ rest (bag self.old) }
        ensures slots { slots self.new ≡ slots self.old };

    fn clear(&mut self)
        ensures bag { bag self.new ≡ [] }
        ensures slots { slots self.new ≡ slots self.old };

    ghost sound: { (list : Self) → Sound (bag list) (slots list) };
}
