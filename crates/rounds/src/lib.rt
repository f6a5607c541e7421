// A keeper over any calls: order, fairness, and that nothing else is seen. A crate of statements and proofs alone.
#![tactic(auto)]
