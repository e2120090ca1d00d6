// A log of calls: a record of 64 bytes is a call, and what it did is a block of lines.
#![tactic(auto)]

pub mod block;
pub mod call_line;
pub mod fields;
pub mod frames;
pub mod line;
pub mod lines;
pub mod record;
pub mod records;
pub mod rows;
pub mod setups;
pub mod writes;
