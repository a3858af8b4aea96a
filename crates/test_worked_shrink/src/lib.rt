// The graphs worked by hand for the repeated reduction (document 02, wish 13): what `shrink`
// returns and leaves under a sense, or why it refuses.
// A table (specs/) and the proof that the definitions yield its entries (proofs/), no code.
// Uses `shrink_iterate` and `shrink_entry` for the definitions.
#![tactic(auto)]
