// The table of a plan: places and passages of the building, and where to find the passages that leave a place.
use crate::fixed_vec::FixedVec;
use crate::place::Place;
use arrayvec::ArrayVec;
use survey::passage::Passage;

// A plan's tables have a fixed memory, so that no call fails for want of it once the plan is made. The places are an `ArrayVec`, as a
// step lends one and changes it.
#[derive(Default, Drop)]
pub struct Table {
    pub(crate) places: ArrayVec<Place, 256>,
    pub(crate) passages: FixedVec<Link, 1024>,
}

// A passage, and the lowest one behind it that leaves the same place. They are linked by their numbers: a list for each place
// would have to grow, and the memory is fixed.
#[derive(Clone, Copy, Default)]
pub struct Link {
    pub(crate) passage: Passage,
    pub(crate) next: Option<u16>,
}
