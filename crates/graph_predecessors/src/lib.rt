// The predecessor index of a graph: for each state the places of the hops (transitions) that end in
// it.
// It is built once by a counting sort of the places on the target state, which is read in the hop
// list itself: a copy of the targets would take more stack than `mark` has left. The worklist
// marking asks it for the hops into the two ends of a hop that fell (lost its mark).
// Uses `graph` for hops, `graph_counting_sort` for the sort, and `graph_successors` for what is
// required of a hop list.
#![tactic(auto)]

ghost use Rattle.graph.specs.Hops.{count};
ghost use Rattle.graph_successors.specs.Internal.SuccessorIndex.{Indexable};
ghost use Rattle.graph_predecessors.specs.Internal.PredecessorIndex.{PredecessorStarts, PredecessorPlaces};

use graph::hops::hop_count;
use graph::{MOST_HOPS, NUMBERS_A_HOP, TO_COLUMN};
use graph_counting_sort::Column;
use graph_successors::STARTS;

// Where the hops into each state begin.
pub fn predecessor_starts(hops: &[u16]) -> [u16; STARTS]
    requires { Indexable hops.now }
    ensures { PredecessorStarts hops.now result }
{
    let targets = Column {
        table: hops,
        width: NUMBERS_A_HOP,
        column: TO_COLUMN,
        n: hop_count(hops),
    };
    targets.key_starts()
}

// Each place in its slot: with no order the sort puts the places themselves.
pub fn places_of(hops: &[u16], begins: &[u16; STARTS]) -> [u16; MOST_HOPS]
    requires ready { Indexable hops.now }
    requires begins { PredecessorStarts hops.now begins.now }
    ensures { PredecessorPlaces hops.now (count hops.now) result }
{
    let targets = Column {
        table: hops,
        width: NUMBERS_A_HOP,
        column: TO_COLUMN,
        n: hop_count(hops),
    };
    targets.fill(None, *begins)
}
