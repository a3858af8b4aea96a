// Source lines have no influence: of graphs that differ only in the source lines of their hops
// (transitions), everything but the lines themselves is the same.
// "Order and equality go by the first three" numbers of a hop, and marking and faults ignore the
// fourth. Equal are check's answer, rings, the rounds, the marked set of each sense, the marks, the
// round question, find and the audit, and the map, the short graph's counts and what reduce
// returns; the short hops differ in lines alone, and so through the repeated reduction. A
// definition (specs/) and theorems (proofs/), no code.
// Uses the crates whose definitions it speaks of, from `graph_check` and `graph_find` to
// `mark_entry`, `reduce_entry`, `audit_entry` and `shrink_entry`.
#![tactic(auto)]
