// The sweep stays within one whole, and what its rows solve: laws alone (proofs/), with no code.
#![tactic(auto)]
