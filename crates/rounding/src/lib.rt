// Doubles as whole numbers and how far rounding moves a result: definitions and laws alone, for error bounds.
#![tactic(auto)]
