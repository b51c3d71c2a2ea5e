// What is promised of every list of calls on an opened plan.
ghost use Rattle.plan.specs.Runs.{Promised};

use costs::kind::CostKind;
use costs::open_list::OpenList;

// A call tells the promise to a proof.
pub(crate) fn promise<A: CostKind, B: CostKind, P: OpenList, Q: OpenList>()
    ensures { Promised A.CostKind B.CostKind P.OpenList Q.OpenList }
{}
