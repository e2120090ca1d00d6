// A request on an endpoint: submitting it, and what the controller writes back.
#![tactic(auto)]

pub mod answers;
pub mod judge;
pub mod settle;
pub mod submit;
pub mod writeback;
