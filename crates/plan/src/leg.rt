// A leg of a way: a passage, the place that it reaches, and the totals so far.

#[derive(Clone, Copy, Debug, PartialEq, Eq)]
pub struct Leg {
    pub passage: u16,
    pub place: u16,
    pub leading: u32,
    pub second: u32,
}
