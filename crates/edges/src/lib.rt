// Document 01's starred edges stand in specs/Edges.antt: one table, one theorem.
#![tactic(auto)]
