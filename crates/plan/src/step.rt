// One step of the search.
ghost use Rattle.std.specs.Prelude.{◌≡◌};
ghost use Rattle.plan.specs.Calls.{Step, ToOpen};

use crate::answer::StepAnswer;
use crate::fault::PlanFault;
use crate::parent::Parent;
use crate::record::Record;
use crate::state::{Ends, Phase, Plan};
use costs::kind::CostKind;
use costs::open_list::OpenList;
use std::marker::PhantomData;

impl<A: CostKind, B: CostKind, Q: OpenList> Plan<A, B, Q> {
    pub fn step(&mut self) -> Result<StepAnswer, PlanFault>
        ensures { Step self.old result self.new }
    {
        let Phase::Opened(ends) = self.phase else {
            return Err(PlanFault::NotOpened);
        };
        let Some(entry) = self.list.look() else {
            return Err(PlanFault::Complete);
        };
        let goal = ends.goal;
        let found = self.book.record(entry.record);
        if self
            .table
            .blocks(found.place, found.second, goal, entry.second)
        {
            let _ = self.list.take();
            self.book.dropped += 1;
            return Ok(StepAnswer::Dropped);
        }
        if found.place == goal {
            let _ = self.list.take();
            self.table.set_best(goal, found.second);
            self.book.choose(entry.record);
            return Ok(StepAnswer::Shown);
        }
        self.open_up(ends, entry.record, found)
    }

    // The least entry is that of the record `number`, which is of use and not at the goal.
    fn open_up(&mut self, ends: Ends, number: u32, found: Record) -> Result<StepAnswer, PlanFault>
        requires { ToOpen self.old ends number found }
        ensures { Step self.old result self.new }
    {
        let parent = Parent::<A, B> {
            table: &self.table,
            ends,
            number,
            found,
            kinds: PhantomData,
        };
        let children = parent.count_children();
        if children as usize > self.list.slots() - self.book.records.len() {
            return Err(PlanFault::NoRecord);
        }
        let _ = self.list.take();
        parent.add_children(&mut self.book, &mut self.list);
        self.table.set_best(found.place, found.second);
        self.book.opened += 1;
        Ok(StepAnswer::OpenedUp(children))
    }
}
