// Worked examples of flat scenes (FORMAT 1.2), and the theorem that the definitions yield each.
#![tactic(auto)]
