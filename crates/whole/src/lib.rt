// Demand 3: how the array's work falls among the bus events cannot change where an orderly log ends. Statements and proofs alone.
#![tactic(auto)]
