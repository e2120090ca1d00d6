// How many turns a program that reads until its input ends may still take.
#![tactic(auto)]

pub mod left;
