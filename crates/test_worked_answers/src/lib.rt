// Answers worked by hand: which row refuses a graph in `check`, `mark`, `reduce` and `audit`, in
// which order and at which place, and audits that are ours.
// A table (specs/) and the proof that the definitions yield its entries (proofs/), no code. A wrong
// answer that alters a definition is tried here, where a check takes seconds.
// Uses `graph_check`, `mark_entry`, `reduce_entry` and `audit_entry` for the definitions.
#![tactic(auto)]
