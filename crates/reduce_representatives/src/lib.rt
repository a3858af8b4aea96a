// The representative of each class of states joined by marked hops (its normal form, the one state
// that no marked hop leaves), the new numbers of the representatives, and the map.
// The marks are given, as any set of silent (tau) hops without cycles: who marked, and why the
// states of a class are equivalent, is stated in the crates that use this one. Each state follows
// its first marked hop; path compression keeps later walks short. It serves the short graph and
// `reduce`.
// Uses `graph` for hops, `mark_confluence` for the set that marks are, `lts` and `walk_silent` for
// what a class and a normal form are.
#![tactic(auto)]

pub mod follow; // follow.rt: where first marked hops lead, and the representatives
pub mod renumber; // renumber.rt: new numbers and the map

// How many new numbers the table has: how many representatives stand below each state that can be,
// and below the one past the last.
pub const NUMBERS: usize = graph::MOST_STATES + 1;
