// Silent (tau) reachability and rings (silent cycles): what silent hops lead to, what a ring is,
// and which state is the lowest on one.
// Hops labelled 0 are silent. The definitions serve row 5 of document 01 (a ring exists), marking
// and the audit. The silent hops are a chosen set; the code here makes its flags, and `walk_reach`
// searches along it. That a graph without rings has a rank that decreases along every silent hop is
// proved here; walks along silent hops end by it.
// Uses `walk_reach` for reachability along a set of hops, `lts` for the closure of a relation.
#![tactic(auto)]

pub mod chosen; // chosen.rt: the silent hops as flags, one a hop
