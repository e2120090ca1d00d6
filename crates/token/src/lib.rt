// The tokens of EHCI 3.5.3, a port's status, and what a request is made of: its plan, its chunks, its need.
#![tactic(auto)]

pub mod chunks;
pub mod overlay;
pub mod plan;
pub mod port;
pub mod qtd;
