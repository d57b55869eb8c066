// Marking: a sheet and a list of calls, and a line for each.
#![tactic(auto)]

pub mod block;
pub mod desk;
pub mod input;
pub mod key;
