// The owner of a controller's state and rows, by value, for programs.
#![tactic(auto)]

pub mod owners;
pub mod rows;
pub mod store;
