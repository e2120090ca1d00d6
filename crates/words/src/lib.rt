// The state in words: the core by value, and the lent row of slots.
#![tactic(auto)]

pub mod cores;
pub mod fall;
pub mod record;
pub mod row;
