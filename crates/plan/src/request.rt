// What an opening asks for, besides the building.
use crate::state::Ends;

#[derive(Clone, Copy)]
pub struct Request<'a, 'b> {
    pub(crate) ends: Ends,
    pub(crate) slots: usize,
    // A forecast for each place, in each cost: two lists, as `Plan::open` takes them, each of any length until it is asked. One
    // list of pairs would ask more of callers, and be no plainer.
    pub(crate) leading: &'a [u32],
    pub(crate) second: &'b [u32],
}
