// What a run answers: the table of refusals, and running a log in parts. A crate of statements and proofs alone.
#![tactic(auto)]
