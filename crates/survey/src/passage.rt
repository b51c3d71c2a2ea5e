// A passage of a survey, which leads one way.

#[derive(Clone, Copy, Debug, PartialEq, Eq, Default)]
pub struct Passage {
    pub from: u16,
    pub to: u16,
    pub leading: u32,
    pub second: u32,
}
