// Worked examples of the step and the theorem that the definitions yield them: all of it in specs/ and proofs/.
#![tactic(auto)]
