// What the search has found at a place: two totals, and how it came there.

#[derive(Clone, Copy, Debug, Default, PartialEq, Eq)]
pub struct Record {
    pub place: u16,
    pub leading: u32,
    pub second: u32,
    // The record that it was opened up from, and the passage from there; the first record has none. The two stand side by side,
    // since a way is climbed by parents alone: one `Option` of both would be taken apart wherever a passage is read, and no
    // plainer. Records name each other by number, since they lie in a fixed memory, as no call after the making may want any.
    pub parent: Option<u32>,
    pub passage: u16,
}
