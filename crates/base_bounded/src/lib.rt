// Bounded quantifiers over the numbers below a bound: all pass a test, some passes, the least that
// passes, how many pass; and the list and the sum of a function's values.
// Every statement over the places of a hop list or the states of a graph is made with these. The
// laws of chains say that a descending chain of finite sets becomes stationary, by which the proofs
// show that repetitions end. The laws of slots say where each number stands after a counting sort
// by key. Definitions (specs/) and laws (proofs/), no code.
// Uses no other crate.
#![tactic(auto)]
