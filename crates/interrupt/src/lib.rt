// Interrupts: acknowledged in the handler, drained afterwards, masked and rearmed, enabled and disabled.
#![tactic(auto)]

pub mod acknowledge;
pub mod answers;
pub mod calls;
pub mod drain;
