// The border that bench/ measures over: opening and the seventeen calls, each exported for C over plain numbers.
#![tactic(auto)]

pub mod bringing_up;
pub mod endpoints;
pub mod interrupts;
pub mod numbers;
pub mod opens;
pub mod placed;
pub mod pool_calls;
pub mod requests;
