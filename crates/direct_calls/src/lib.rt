// The calls that are lent no pool records, each made directly: it judges what it is lent, once, and has no requirement.
#![tactic(auto)]

pub mod bringing_up;
pub mod endpoints;
pub mod interrupts;
pub mod requests;
pub mod takes;
