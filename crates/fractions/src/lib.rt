// Fractions as document 01 reads them (specs/), and their laws over a common denominator (proofs/), with no code.
#![tactic(auto)]
