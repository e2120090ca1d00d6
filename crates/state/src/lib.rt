// The plain state of a controller and its ranges: definitions and their laws, no code.
#![tactic(auto)]
