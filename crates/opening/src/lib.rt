// Opening a controller: the lent rows, the root hub's record, the fresh state.
#![tactic(auto)]

pub mod heads;
pub mod hub;
pub mod open;
