// Worked examples of versions and criteria (FORMAT 1.2, METHOD 6.3 and 6.4), and the theorem that the definitions
// yield each.
#![tactic(auto)]
