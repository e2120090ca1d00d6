// The archive that C links: `bench_port`'s functions, each exported under its name with its own clauses.
#![tactic(auto)]

mod bringing_up;
mod endpoints;
mod interrupts;
mod opens;
mod placed;
mod pool_calls;
mod requests;
