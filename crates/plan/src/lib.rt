// The plan: which ways there are between two places of a building, and what they cost.
#![tactic(auto)]

pub mod answer;
mod best;
mod book;
mod check;
mod children;
mod choice;
mod counts;
pub mod fault;
mod fill;
mod finish;
mod fixed_vec;
mod join;
pub mod leg;
mod listed;
mod load;
mod make;
mod numbers;
mod open;
mod parent;
mod place;
mod promise;
mod read;
pub mod record;
mod refusals;
mod request;
pub mod state;
mod step;
mod table;
pub mod theorem;
