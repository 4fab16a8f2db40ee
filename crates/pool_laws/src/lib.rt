// The rivers of a pool keep their stretches of the shared lists: laws alone (proofs/), with no code.
#![tactic(auto)]
