// Why an entry was not put: as many wait as there are slots.
#[derive(Clone, Copy, Debug, PartialEq, Eq)]
pub struct Full;
