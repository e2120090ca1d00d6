// The judge of the state in words: what a call asks first, once.
#![tactic(auto)]

pub mod bounds;
pub mod judge;
pub mod scalars;
pub mod seen;
