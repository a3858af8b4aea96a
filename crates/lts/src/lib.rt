// The theory of tau-confluence and branching bisimulation over any labelled transition systems.
// It proves that without silent (tau) cycles each class of a confluent set has one representative,
// that the map to the reduced system keeps branching bisimilarity, that such maps compose, and that
// reducing by the greatest set of R8 leaves no hop in any set of R8. Definitions (specs/) and
// theorems (proofs/), no code.
// Uses no other crate.
#![tactic(auto)]
