// The two schedules: links of the ring and of the frame list, the doorbell, the boundaries.
#![tactic(auto)]

pub mod bell;
pub mod links;
