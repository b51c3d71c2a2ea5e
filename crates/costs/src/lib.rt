// Cost kinds, and the open lists from which a search takes its next entry.
#![tactic(auto)]

pub mod arrival_list;
pub mod both;
pub mod call;
pub mod entry;
pub mod full;
pub mod heap_list;
pub mod kind;
pub mod open_list;
mod slot_list;
mod store;
pub mod sum;
pub mod worst;
