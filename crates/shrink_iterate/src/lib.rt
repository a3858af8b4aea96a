// Reduction repeated until no hop is marked: the map to the last graph has no fault, none of its
// hops is marked, and fewer reductions led to it than there were states, under R8 at most one.
// It is defined twice: by recursion with a bound, as the code loops, and as a relation without a
// bound. Definitions (specs/) and theorems (proofs/), no code; `shrink` rests on it.
// Uses `reduce_entry` and `audit_of_reduce` for one reduction, `shrink_compose` for the composed
// map.
#![tactic(auto)]
