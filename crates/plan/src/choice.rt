// Looking up a choice.
ghost use Rattle.plan.specs.Calls.{LookUp};

use crate::fault::PlanFault;
use crate::state::{Phase, Plan};
use costs::kind::CostKind;
use costs::open_list::OpenList;

impl<A: CostKind, B: CostKind, Q: OpenList> Plan<A, B, Q> {
    // The leading and the second total.
    pub(crate) fn choice(&self, number: u32) -> Result<(u32, u32), PlanFault>
        ensures { LookUp self.now number result }
    {
        let Phase::Opened(_) = self.phase else {
            return Err(PlanFault::NotOpened);
        };
        let Some(chosen) = self.book.choices.as_slice().get(number as usize) else {
            return Err(PlanFault::NoChoice);
        };
        let found = self.book.record(*chosen);
        Ok((found.leading, found.second))
    }
}
