// A record that is opened up.
ghost use Rattle.std.specs.Prelude.{◌≡◌};
ghost use Rattle.std.proofs.Props.{props};
ghost use Rattle.plan.specs.Views.{FirstFrom-prop};
ghost use Rattle.plan.specs.Children.{Opens};

use crate::record::Record;
use crate::state::Ends;
use crate::table::Table;
use costs::kind::CostKind;
use std::alloc::AllocError;
use std::marker::PhantomData;

// It is of use, stands at a place of the table that is not the goal, and each join of its children has a result.
pub struct Parent<'a, A: CostKind, B: CostKind> {
    pub(crate) table: &'a Table,
    pub(crate) ends: Ends,
    pub(crate) number: u32,
    pub(crate) found: Record,
    pub(crate) kinds: PhantomData<(A, B)>,
    ghost opens: { Opens A.kind B.kind table.now ends found } by { Prim.hlevel (props, FirstFrom-prop) },
}

// By hand, since a derive would ask the same of the kinds, of which there is no value here.
impl<A: CostKind, B: CostKind> Copy for Parent<'_, A, B> {}

impl<A: CostKind, B: CostKind> Clone for Parent<'_, A, B> {
    ghost is_clone = { λ x y. y ≡ x };

    ghost is_infallible = { λ _. Unit {0} };

    fn clone(&self) -> Result<Self, AllocError> {
        Ok(*self)
    }
}
