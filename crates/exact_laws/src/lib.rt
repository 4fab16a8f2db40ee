// The exact river: its equations for an old and a new set of half-step numbers (specs/), that it exists, that it is unique, and how
// far the computed river is from it after a step (proofs/). No code.
#![tactic(auto)]
