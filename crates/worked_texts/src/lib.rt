// Every worked example, texts included, as one list (specs/), and the theorem that the definitions yield it (proofs/).
#![tactic(auto)]
