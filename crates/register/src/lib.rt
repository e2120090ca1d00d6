// 32-bit registers as EHCI 2.3 lays them out: words and their bits, the offsets, and the writes of an answer.
#![tactic(auto)]

pub mod bits;
pub mod operational;
pub mod writes;
