// A river just loaded: what its lists hold, and that a start accepts them: laws alone (proofs/), with no code.
#![tactic(auto)]
