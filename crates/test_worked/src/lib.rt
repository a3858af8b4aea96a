// Document 01's graphs worked by hand, P1 to P10, with rows of our own that say so: marks, rounds,
// tests, map, short graph, audits and searches.
// A table (specs/) and the proof that the definitions yield its entries (proofs/), no code.
// Uses the crates whose definitions the table is about, among them `mark_entry`, `mark_entry_fast`,
// `reduce_entry`, `audit_entry` and `graph_find`.
#![tactic(auto)]
