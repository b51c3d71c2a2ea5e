// Finishing: the open list comes back, emptied, with the counts.
ghost use Rattle.std.specs.Prelude.{◌≡◌, []};
ghost use Rattle.plan.specs.Calls.{Finish};

use crate::counts::Counts;
use crate::state::{Phase, Plan};
use costs::kind::CostKind;
use costs::open_list::OpenList;

impl<A: CostKind + Drop, B: CostKind + Drop, Q: OpenList> Plan<A, B, Q> {
    pub(crate) fn finish(self) -> (Q, Counts)
        ensures bag { Q.bag result.0 ≡ [] }
        ensures slots { Q.slots result.0 ≡ Q.slots self.list }
        ensures counts { Finish self result.1 }
    {
        let Plan {
            leading: _,
            second: _,
            mut list,
            phase,
            table: _,
            book,
        } = self;
        let counts = match phase {
            Phase::Opened(_) => Counts {
                records: book.records.len() as u32,
                opened: book.opened,
                shown: book.choices.len() as u32,
                dropped: book.dropped,
                waiting: list.count() as u32,
            },
            Phase::Bare | Phase::Loaded => Counts::default(),
        };
        list.clear();
        (list, counts)
    }
}
