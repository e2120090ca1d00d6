// A log of calls replayed on a controller that is kept from record to record.
#![tactic(auto)]

pub mod keeper;
pub mod kept;
pub mod run;
pub mod turn;
