// What the statements settle: no code, only theorems about the contracts of every layer (proofs/).
#![tactic(auto)]
