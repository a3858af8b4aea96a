// The successor index of a graph: for each state the place where its outgoing hops (transitions)
// begin in the ascending hop list.
// One linear pass builds the table of first places; `graph_index` searches by it. It serves rings,
// marking, the round question and the audit, and either graph, so a state is a bare number here.
// Only `Rest` is of the old graph, since marking alone uses it.
// Uses `graph` for hops and the search, `graph_check` for what an admitted graph is.
#![tactic(auto)]

ghost use Rattle.std.specs.Prelude.{◌≡◌, ◌+◌};
ghost use Rattle.graph.specs.Search.{first_of};
ghost use Rattle.graph_successors.specs.Internal.SuccessorIndex.{SuccessorIndex, Indexable};

use graph::hops::{hop_at, hop_count};
use graph::{MOST_STATES, OldState};

// How many places the table has: one for each state that can be, and one past the last.
pub const STARTS: usize = MOST_STATES + 1;

// The hops of a state from place `at` on; `past` is the place past its last.
// Its fact `Row` is a clause and no ghost field: it has the label that is tried, which is no part
// of the rest of a row.
#[derive(Clone, Copy)]
pub struct Rest {
    pub state: OldState,
    pub at: usize,
    pub past: usize,
}

// Where the hops of the states after s begin, `at` being where those of s do.
fn pass(hops: &[u16], at: usize, s: usize) -> usize
    requires ready { Indexable hops.now }
    requires first { at ≡ first_of hops.now s }
    ensures { result ≡ first_of hops.now (s + 1) }
{
    let n = hop_count(hops);
    for i in at..n {
        if usize::from(hop_at(hops, i).from) > s {
            return i;
        }
    }
    n
}

// Fills the table: a place for each state that can be, and one past the last. It is lent, since a
// returned one would stand on the stack twice.
pub fn put_starts(hops: &[u16], starts: &mut [u16; STARTS])
    requires { Indexable hops.now }
    ensures { SuccessorIndex hops.now starts.new }
{
    let mut at = 0;
    for s in 0..STARTS {
        starts[s] = at as u16;
        at = pass(hops, at, s);
    }
}
