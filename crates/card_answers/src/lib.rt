// What a run of a card log answers: its refusals, and running a log in parts. A crate of statements and proofs alone.
#![tactic(auto)]
