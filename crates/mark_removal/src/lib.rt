// What marks keep while hops that do not close lose theirs, for any condition: that removing marks
// one by one, in whatever order, ends with the greatest set that the condition keeps.
// The marks contain that set throughout, since a hop of it closes with any set that contains it. If
// every marked hop closes, the set that the marks are is that set. Definitions (specs/) and laws
// (proofs/), no code: `mark_sweeps` removes by strong confluence, `mark_batch_sweeps` by the weaker
// senses.
// Uses `mark_confluence` for the set that marks are and the list of marks of a set, `base_fixpoint`
// for sets of hops and conditions on them.
#![tactic(auto)]
