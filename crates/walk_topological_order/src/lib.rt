// The silent (tau) hops of a graph without rings (silent cycles) in reverse topological order:
// those that leave a hop's end stand before it (`TopologicalOrder`).
// One pass along this order, or backwards, carries a property along all walks of silent hops. A
// state is placed when all its silent hops lead to placed states; then its own silent hops are
// appended. Passes over the states, downward and upward alternately, go on until all are placed:
// where silent hops lead upward only or downward only, that takes two passes at most.
// Uses `graph_index` for the hops of a state, `walk_acyclic` for the test of one state, and
// `walk_rings` for a graph without rings.
#![tactic(auto)]

ghost use Rattle.std.specs.Prelude.{◌≡◌, ◌+◌, ◌<◌, ◌≤◌, length};
ghost use Rattle.graph.specs.Hops.{count, labelled};
ghost use Rattle.base_bounded.specs.Quantifiers.{tally};
ghost use Rattle.walk_topological_order.specs.Internal.TopologicalOrder.{TopologicalOrder};
ghost use Rattle.walk_topological_order.specs.Internal.Ordering.{RowAppended, OrderedSoFar, PlacedOrStuck, OnlyState, PassGains};

use graph::hops::label_at;
use graph::{MOST_HOPS, MOST_STATES, OldState};
use graph_index::Indexed;
use walk_acyclic::ends_ranked;
use walk_rings::Ringless;

// How far it has come: which states are placed, how many these are, and how many places the order
// has so far.
#[derive(Drop)]
struct Progress {
    placed: [bool; MOST_STATES],
    states: usize,
    places: usize,
}

// Appends the places of v's silent hops, which are the first of its hops, to the order; returns how
// long it is then.
fn put_row(graph: Indexed<'_>, v: OldState, sorted: &mut [u16; MOST_HOPS], n: usize) -> usize
    requires state { v.0 < graph.shape.states }
    requires fits { n + tally (count graph.index.hops.now) (labelled graph.index.hops.now v.0 0) ≤ count graph.index.hops.now }
    requires capacity { count graph.index.hops.now ≤ length sorted.old }
    ensures { RowAppended graph.entry.index.hops.now v.0 sorted.old n sorted.new result }
{
    let mut at = n;
    for i in graph.index.first(v.0)..graph.index.past(v.0) {
        if label_at(graph.index.hops, i).0 != 0 {
            return at;
        }
        sorted[at] = i as u16;
        at += 1;
    }
    at
}

impl Progress {
    // Places v if it can be placed now and is not yet.
    fn place_one(&mut self, graph: Indexed<'_>, v: OldState, sorted: &mut [u16; MOST_HOPS])
        requires state { v.0 < graph.shape.states }
        requires ordered { OrderedSoFar graph.index.hops.now graph.shape.states sorted.old self.old }
        ensures ordered { OrderedSoFar graph.entry.index.hops.now graph.entry.shape.states sorted.new self.new }
        ensures tried { PlacedOrStuck graph.entry.index.hops.now (OnlyState v.0) self.old self.new }
    {
        let at = usize::from(v.0);
        if self.placed[at] {
            return;
        }
        let is_ready = ends_ranked(graph, v, &self.placed);
        if !is_ready {
            return;
        }
        self.placed[at] = true;
        self.states += 1;
        self.places = put_row(graph, v, sorted, self.places);
    }

    // One pass: tries every state once, downward or upward.
    fn place_each(&mut self, ringless: Ringless<'_>, down: bool, sorted: &mut [u16; MOST_HOPS])
        requires { OrderedSoFar ringless.graph.index.hops.now ringless.graph.shape.states sorted.old self.old }
        ensures { PassGains ringless.entry.graph.index.hops.now ringless.entry.graph.shape.states self.old sorted.new self.new }
    {
        let n = ringless.graph.shape.states as u16;
        if down {
            for v in (0..n).rev() {
                self.place_one(ringless.graph, OldState(v), sorted);
            }
        } else {
            for v in 0..n {
                self.place_one(ringless.graph, OldState(v), sorted);
            }
        }
    }
}

// The order of the silent hops of a graph without rings; returns how many places it has. Each pass
// places at least one state: one of the least rank among those that are left.
pub fn order_of(ringless: Ringless<'_>, sorted: &mut [u16; MOST_HOPS]) -> usize
    requires { count ringless.graph.index.hops.now ≤ length sorted.old }
    ensures { TopologicalOrder ringless.entry.graph.index.hops.now sorted.new result }
{
    let mut order = Progress {
        placed: [false; MOST_STATES],
        states: 0,
        places: 0,
    };
    let mut down = true;
    // `while`: how many passes it takes depends on the hops.
    while order.states < ringless.graph.shape.states as usize {
        order.place_each(ringless, down, sorted);
        down = !down;
    }
    order.places
}
