// The counts of a search.

#[derive(Clone, Copy, Debug, Default, PartialEq, Eq)]
pub struct Counts {
    // Records used.
    pub records: u32,
    // Accepted steps, by their answer.
    pub opened: u32,
    pub shown: u32,
    pub dropped: u32,
    // Entries that wait.
    pub waiting: u32,
}
