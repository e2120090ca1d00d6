// The promises over any calls: specs/ has the statements, proofs/ the theorems. There is no code.
#![tactic(auto)]
