// Making a plan.
ghost use Rattle.std.specs.Prelude.{◌≡◌};
ghost use Rattle.plan.specs.Stages.{stage};
ghost use Rattle.plan.specs.Views.{bare};

use crate::book::Book;
use crate::state::{Phase, Plan};
use crate::table::Table;
use costs::kind::CostKind;
use costs::open_list::OpenList;

impl<A: CostKind, B: CostKind, Q: OpenList> Plan<A, B, Q> {
    pub fn new(leading: A, second: B, list: Q) -> Plan<A, B, Q>
        ensures stage { stage result ≡ bare }
        ensures list { result.list ≡ list }
    {
        Plan {
            leading,
            second,
            list,
            phase: Phase::Bare,
            table: Table::default(),
            book: Book::default(),
        }
    }
}
