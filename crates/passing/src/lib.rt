// A card over any log: what never changes, what opens it, and how often that can be tried. A crate of statements and proofs alone.
#![tactic(auto)]
