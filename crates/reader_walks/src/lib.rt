// No code: what walks by hand over functions that take a reader need stands in proofs/.
#![tactic(auto)]
