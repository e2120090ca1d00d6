// Machines with a fault, of which the promises are refuted; and what the history says on runs by hand. No code.
#![tactic(auto)]
