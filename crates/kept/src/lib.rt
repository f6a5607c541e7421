// What every step keeps: a sound state stays sound and the lent memory keeps its lengths. A crate of statements and proofs alone.
#![tactic(auto)]
