// The survey file of a hotel: checking it, a view of a checked one, and the repeater lines.
#![tactic(auto)]

mod check;
pub mod decimal;
pub mod fault;
pub mod layout;
mod lines;
mod number;
mod parts;
pub mod passage;
pub mod refusal;
pub mod view;
