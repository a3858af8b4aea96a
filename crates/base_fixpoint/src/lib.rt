// The greatest fixpoint of a monotone condition on a finite set of pairs: rounds that drop the
// pairs that fail it become stationary, and leave the greatest set that the condition keeps.
// It is proved once, for any condition that asks no more where more pairs are left.
// `mark_confluence` applies it to the condition of document 01 (strong confluence), `mark_senses`
// to that of each sense. Definitions (specs/) and theorems (proofs/), no code; it knows nothing of
// hops.
// Uses `base_bounded` for chains of sets.
#![tactic(auto)]
