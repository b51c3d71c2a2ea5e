// Tests of the cost kinds and the open lists, and generic code over both that is proved from what they promise.
#![tactic(auto)]

pub mod either_way;
pub mod fresh;
#[cfg(test)]
mod kinds;
#[cfg(test)]
mod lists;
