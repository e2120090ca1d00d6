// Bring-up: 000's `init_controller` as a start call and a step call that is given one register reading.
#![tactic(auto)]

pub mod answers;
pub mod busy;
pub mod calls;
pub mod stage;
