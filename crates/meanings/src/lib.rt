// What the lattices and layers mean, and that their laws hold: definitions and proofs, without code.
#![tactic(auto)]
