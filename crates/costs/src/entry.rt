// An entry of an open list. Its fields stand in the order in which they count.
ghost use Rattle.std.specs.Prelude.{◌≡◌};
ghost use Rattle.costs.specs.Order.{before};

#[derive(Clone, Copy, Debug, PartialEq, Eq, PartialOrd, Ord)]
pub struct Entry {
    pub leading: u32,
    pub second: u32,
    pub record: u32,
}

impl Entry {
    #[tactic(auto, unfolding(crate::specs::Order::before))]
    pub fn is_before(self, other: Entry) -> bool
        ensures { result ≡ before self other }
    {
        self < other
    }
}
