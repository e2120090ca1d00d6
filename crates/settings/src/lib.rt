// What a controller is opened with.
#![tactic(auto)]

pub mod settings;
