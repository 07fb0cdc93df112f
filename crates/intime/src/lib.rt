// Demand 3: no code, only the statement (specs/) and its proof (proofs/).
#![tactic(auto)]
