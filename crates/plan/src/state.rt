// A plan: a building in two kinds of cost, and a search in it.
ghost use Rattle.std.proofs.Props.{props};
ghost use Rattle.plan.specs.Openings.{FairBuilding};
ghost use Rattle.plan.specs.Views.{FirstFrom-prop, Indexed, Roomy, Searching, building_in, state_in, task_in};

use crate::book::Book;
use crate::table::Table;
use costs::kind::CostKind;
use costs::open_list::OpenList;

#[derive(Clone, Copy, PartialEq, Eq)]
pub enum Phase {
    Bare,
    Loaded,
    // A search between these ends.
    Opened(Ends),
}

#[derive(Clone, Copy, PartialEq, Eq)]
pub struct Ends {
    pub(crate) start: u16,
    pub(crate) goal: u16,
}

// What holds of each loaded building holds of what the table has, its passages are found from their places, an opened search is
// one that steps of the rules lead to, and its records and choices are no more than a plan has memory for.
#[derive(Drop)]
pub struct Plan<A: CostKind, B: CostKind, Q: OpenList> {
    pub(crate) leading: A,
    pub(crate) second: B,
    pub(crate) list: Q,
    pub(crate) phase: Phase,
    pub(crate) table: Table,
    pub(crate) book: Book,
    pub ghost building: { FairBuilding (building_in A.kind B.kind table) },
    pub ghost indexed: { Indexed table } by { Prim.hlevel (props, FirstFrom-prop) },
    pub ghost searching: { Searching phase (λ ends. task_in A.kind B.kind table ends (Q.slots list)) (state_in table book (Q.bag list)) } by { Prim.hlevel (props, FirstFrom-prop) },
    pub ghost roomy: { Roomy book },
}
