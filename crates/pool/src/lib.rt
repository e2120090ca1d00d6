// The pool's descriptor records: what a request's say, and what is written to them.
#![tactic(auto)]

pub mod asked;
pub mod chain;
pub mod laying;
pub mod marking;
pub mod record;
pub mod row;
pub mod tokens;
pub mod transfer;
pub mod writing;
