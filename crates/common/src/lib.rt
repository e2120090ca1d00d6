// What every crate uses: kinds and directions, the refusals and their numbers, rows of words.
#![tactic(auto)]

pub mod answer;
pub mod kinds;
pub mod rows;
