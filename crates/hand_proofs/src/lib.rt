// No code: what the walks by hand of other crates share stands in proofs/.
#![tactic(auto)]
