// The busy window: no code, only laws over functions of the tick (proofs/).
#![tactic(auto)]
