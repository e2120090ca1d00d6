// The root hub: port power and the scan of the ports, over the caller's record of them.
#![tactic(auto)]

pub mod calls;
pub mod lent;
pub mod ports;
pub mod ranges;
pub mod scan;
