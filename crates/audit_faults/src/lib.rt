// The faults of a map between two graphs, taken as a branching bisimulation given by a function:
// the three sums of the fault count, and which fault is first.
// The definitions serve the audit and what a count of 0 means; the code computes the first two
// sums. Each hop (transition) of graph 1 is mapped and looked up in graph 2 once, by binary search;
// the table of the places found says which hops are lost (here) and which are matched
// (`audit_matched` and `audit_unmatched`).
// Uses `graph_index` for the search among a state's hops, `walk_silent` for "s leads by zero or
// more silent hops".
#![tactic(auto)]

pub mod mapped; // mapped.rt: two graphs and a map between them, as one value
pub mod images; // images.rt: where the hops of graph 1 stand in graph 2
pub mod first; // first.rt: the figures of a fault where there is none
pub mod lost; // lost.rt: the first two sums, by the hops of graph 1

// A fault: its kind, 1, 2 or 3 in document 01's order; the place of its hop, in graph 1 for kind 2
// and in graph 2 for kind 3; the state of graph 1, for kind 3. What a kind lacks is 0, and so are
// all three where there is no fault.
#[derive(Clone, Copy)]
pub struct Fault {
    pub kind: u32,
    pub place: usize,
    pub state: u16,
}

// What a sum returns: how many faults there are, of one kind or of all, and the first of them.
#[derive(Clone, Copy)]
pub struct Share {
    pub faults: u32,
    pub first: Option<Fault>,
}
