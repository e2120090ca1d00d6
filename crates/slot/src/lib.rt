// One slot of the plain state in numbers, and its ranges.
#![tactic(auto)]

pub mod slot;
