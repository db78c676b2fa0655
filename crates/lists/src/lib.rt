// No code: what every crate says of lists and may use of them stands in specs/ and proofs/.
#![tactic(auto)]
