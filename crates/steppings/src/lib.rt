// The steppings of a part side by side. A crate of statements, a table of cases and their proofs alone.
#![tactic(auto)]
