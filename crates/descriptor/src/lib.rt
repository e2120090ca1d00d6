// What the controller reads in memory: transfer descriptors and their page slots, queue heads, setup packets, links.
#![tactic(auto)]

pub mod head;
pub mod qtd;
pub mod setup;
pub mod slots;
