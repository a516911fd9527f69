// No code: a shelf of lemmas on plain values, for the proofs of the crates above.
#![tactic(auto)]
