// The calls on endpoints: opening, closing, and the changes of a head.
#![tactic(auto)]

pub mod calls;
pub mod heads;
pub mod lowest;
