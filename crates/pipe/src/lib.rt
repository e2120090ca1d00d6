// A slot taken apart into its endpoint, and put together again.
#![tactic(auto)]

pub mod endpoints;
pub mod slots;
