// The cases of document 01 that are to be proved. A crate of a table, a statement and its proof alone.
#![tactic(auto)]
