// The entry `mark`: which silent (tau) hops belong to some confluent set of the sense asked, one
// mark a hop, or why the graph is refused.
// Refusals come in the order 1 to 4, 19 (no such sense), 5 (a ring exists), 6 (output too short).
// Sense 1 is marked by the worklist, the others by sweeps over batches.
// Uses `mark_worklist_loop` and `mark_batch_sweeps` for the marking, `mark_senses`, `walk_rings`
// and `graph_check` for the refusals, `graph_index` for the graph with its table of first places,
// and `base_outputs` for what is written.
#![tactic(auto)]

pub mod mark; // mark.rt: the entry `mark`
