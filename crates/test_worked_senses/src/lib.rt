// The graphs worked by hand for the senses of tau-confluence (document 02, wish 7): their marks
// under the four senses, and what reducing in a sense leaves.
// A table (specs/) and the proof that the definitions yield its entries (proofs/), no code.
// Uses `mark_senses` and `reduce_entry` for the definitions.
#![tactic(auto)]
