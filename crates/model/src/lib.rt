// Document 01 as definitions (specs/), in its order and terms, and its bench table proved of them (proofs/). No code.
#![tactic(auto)]
