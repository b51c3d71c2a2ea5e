// A place of the plan's table.

#[derive(Clone, Copy, Default)]
pub struct Place {
    // The lowest passage that leaves it.
    pub(crate) first: Option<u16>,
    // The best second total.
    pub(crate) best: Option<u32>,
    // Its two forecasts.
    pub(crate) leading: u32,
    pub(crate) second: u32,
}
