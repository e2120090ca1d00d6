// A job run on a controller of its own, and its sheet printed.
#![tactic(auto)]

pub mod controller_of;
pub mod print;
pub mod run;
