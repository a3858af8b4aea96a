// The graphs worked by hand for source lines (document 02, wish 2): which line each short hop
// carries, and what is refused.
// A table (specs/) and the proof that the definitions yield its entries (proofs/), no code.
// Uses `reduce_smallest_line`, `reduce_short_graph` and `reduce_entry` for the definitions.
#![tactic(auto)]
