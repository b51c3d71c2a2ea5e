// The best second totals of the places, and what they make useless.
ghost use Rattle.std.specs.Prelude.{◌≡◌, ◌<◌, ◌||◌, length};
ghost use Rattle.plan.specs.Rules.{at_most};
ghost use Rattle.plan.specs.Views.{place_at, with_best};

use crate::table::Table;

impl Table {
    // Whether the place or the goal has a best that makes a record with this total and estimate useless.
    pub(crate) fn blocks(&self, place: u16, second: u32, goal: u16, estimate: u32) -> bool
        requires place { place < length self.now.places.items }
        requires goal { goal < length self.now.places.items }
        ensures { result ≡ (at_most (place_at self.now place).best second || at_most (place_at self.now goal).best estimate) }
    {
        at_most(self.place(place).best, second) || at_most(self.place(goal).best, estimate)
    }

    pub(crate) fn set_best(&mut self, place: u16, second: u32)
        requires { place < length self.old.places.items }
        ensures { self.new ≡ with_best self.old place second }
    {
        self.places[usize::from(place)].best = Some(second);
    }
}

// Whether there is a best, and it is at most the total.
fn at_most(best: Option<u32>, total: u32) -> bool
    ensures { result ≡ at_most best total }
{
    best.is_some_and(|best| best <= total)
}
