// Opening: the search for the choices between two places begins.
ghost use Rattle.std.specs.Prelude.{◌≡◌};
ghost use Rattle.plan.specs.Calls.{Opening};
ghost use Rattle.plan.specs.Requests.{Listed, Prepared, requested};
ghost use Rattle.plan.specs.Openings.{Passed, task_questions};
ghost use Rattle.plan.specs.Rules.{begun};
ghost use Rattle.plan.specs.Stages.{stage};
ghost use Rattle.plan.specs.Views.{building_in, opened};

use crate::check::check_task;
use crate::fault::PlanFault;
use crate::join::joined;
use crate::request::Request;
use crate::state::{Ends, Phase, Plan};
use crate::table::Table;
use costs::entry::Entry;
use costs::kind::CostKind;
use costs::open_list::OpenList;

impl<A: CostKind, B: CostKind, Q: OpenList> Plan<A, B, Q> {
    // Clears the list, the choices and all bests, and puts the entry of the first record.
    pub fn open(
        &mut self,
        start: u16,
        goal: u16,
        leading: &[u32],
        second: &[u32],
    ) -> Result<(), PlanFault>
        ensures { Opening self.old (record { start = start; goal = goal }) leading.now second.now result self.new }
    {
        if let Phase::Bare = self.phase {
            return Err(PlanFault::NotLoaded);
        }
        let request = Request {
            ends: Ends { start, goal },
            slots: self.list.slots(),
            leading,
            second,
        };
        check_task::<A, B>(&self.table, &request)?;
        self.begin(&request);
        Ok(())
    }

    // Begins the search that was asked for.
    #[tactic(auto, using(crate::proofs::Opening::first_joins, crate::proofs::Opening::fair_asked))]
    fn begin(&mut self, request: &Request)
        requires asked { Passed (task_questions (requested request.now (building_in A.kind B.kind self.old.table))) }
        requires slots { request.now.slots ≡ Q.slots self.old.list }
        ensures { stage self.new ≡ opened (requested request.now (building_in A.kind B.kind self.old.table)) (begun (requested request.now (building_in A.kind B.kind self.old.table))) }
    {
        let at = usize::from(request.ends.start);
        let entry = Entry {
            leading: joined::<A>(0, request.leading[at]),
            second: joined::<B>(0, request.second[at]),
            record: 0,
        };
        self.table.prepare(request);
        self.book.begin(request.ends.start);
        self.list.clear();
        let _ = self.list.put(entry);
        self.phase = Phase::Opened(request.ends);
    }
}

impl Table {
    // Writes the forecasts, and clears the bests.
    fn prepare(&mut self, request: &Request)
        requires { Listed self.old request.now }
        ensures { Prepared self.old request.now self.new }
    {
        // By number: over a zip with the forecasts the proof doesn't close, since it learns only how many
        // places were lent, and not what was written to them.
        for (at, place) in self.places.iter_mut().enumerate() {
            place.best = None;
            place.leading = request.leading[at];
            place.second = request.second[at];
        }
    }
}
