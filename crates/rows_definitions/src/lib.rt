// The definitions of other crates, computed on worked rows: the rows are proofs, and no code is here.
#![tactic(auto)]
