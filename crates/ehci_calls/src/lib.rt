// The three calls that are lent the pool's records, by name, each over `ehci`'s one door. The other fourteen are crate `direct_calls`.
#![tactic(auto)]

pub mod requests;
