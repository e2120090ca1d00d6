// Calls on a state as a whole: the next address, what calls on endpoints and requests ask first, what a caller may ask.
#![tactic(auto)]

pub mod calls;
pub mod left;
pub mod lent;
pub mod readers;
