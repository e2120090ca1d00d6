// Job sheets: the bytes of a sheet read, and the lines of its listing.
#![tactic(auto)]

pub mod few;
pub mod listing;
pub mod outcome;
pub mod record;
pub mod sheet;
