// No code: what the version of a packed scene changes, and what it does not, stands in specs/ and proofs/.
#![tactic(auto)]
