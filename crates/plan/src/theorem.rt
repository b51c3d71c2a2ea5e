// What is proved of the rules of the search, whatever code keeps to them. A call tells it to a proof.
ghost use Rattle.plan.specs.Openings.{AskedFair, Fair};
ghost use Rattle.plan.specs.Promise.{FrontierTheorem, JoinTheorem, SearchTheorem};
ghost use Rattle.plan.specs.Worked.{WorkedHotel, worked_task};

// A survey that is loaded, and a task that is opened, meet the conditions of the theorems below.
#[tactic(auto, using(crate::proofs::Fairness::asked_fair))]
pub fn asked_is_fair()
    ensures { AskedFair }
{}

// For any two kinds that keep the laws, and any fair task: after every number of steps the choices shown
// are the first ones of the frontier, with their ways; there are no more steps than slots; and once nothing
// waits, every way costs at least as much as some choice.
pub fn search_theorem()
    ensures { SearchTheorem }
{}

// Once nothing waits, the choices shown are the whole frontier, and there is none exactly if there is no way.
pub fn frontier_theorem()
    ensures { FrontierTheorem }
{}

// After every number of steps, each join that the next one makes has a result.
#[tactic(auto, using(crate::proofs::Trails::join_theorem_lem))]
pub fn join_theorem()
    ensures { JoinTheorem }
{}

// The theorem speaks of something: the worked hotel is a fair task.
pub fn worked_is_fair()
    ensures { Fair worked_task }
{}

// What the rules make of the worked hotel.
#[tactic(auto, using(crate::proofs::Example::worked_hotel))]
pub fn worked_hotel()
    ensures { WorkedHotel }
{}
