// 01's ★ examples: specs/Examples.antt has the table, proofs/Examples.antt the theorem. There is no code.
#![tactic(auto)]
