// The sheet's own river: what its steps do and rest on, what its sheet is known for, and the states that it may stand in: laws alone (proofs/), with no code.
#![tactic(auto)]
