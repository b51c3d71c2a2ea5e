// What an accepted step did.

#[derive(Clone, Copy, Debug, PartialEq, Eq)]
pub enum StepAnswer {
    // The record was useless.
    Dropped,
    // The record is the next choice.
    Shown,
    // The record was opened up to this many children.
    OpenedUp(u32),
}
