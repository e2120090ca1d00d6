// One call on a controller and its five lent rows.
#![tactic(auto)]

pub mod call;
pub mod decide;
pub mod door;
pub mod look;
pub mod reply;
