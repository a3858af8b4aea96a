// Which hops (transitions) of graph 2 a state of graph 1 can match, by itself or after silent (tau)
// hops to a state with the same image: for the third sum of the fault count.
// The hops of the states with that image that a search has reached put a stamp on hops of graph 2,
// at the places that a table has for them. Each state has a stamp of its own, so that no stamp is
// ever cleared. `audit_unmatched` counts the hops without it.
// Uses `audit_faults` for where each mapped hop stands in graph 2, `graph_index` for the hops of a
// state.
#![tactic(auto)]

ghost use Rattle.std.specs.Prelude.{◌≡◌, ◌+◌, ◌<◌, ◌≤◌, length, get_or, map, set};
ghost use Rattle.graph.specs.Hops.{count};
ghost use Rattle.graph.specs.Search.{first_of};
ghost use Rattle.graph.specs.Answers.{most_hops};
ghost use Rattle.graph_successors.specs.Internal.SuccessorIndex.{SuccessorIndex};
ghost use Rattle.audit_matched.specs.Internal.Stamps.{StampedUpTo, StampedFrom};

use audit_faults::images::Located;
use base_flag::Flag;
use graph::{MOST_HOPS, NewState, OldState};
use graph_index::Index;
use graph_successors::STARTS;

// Stamps the hop of graph 2 that is the image of the hop at place i of graph 1. Where graph 2 has
// no such hop, its place is past the stamps, and nothing is stamped.
fn stamp_hop(images: &[u16; MOST_HOPS], stamps: &mut [u16], k: u16, i: usize)
    requires { i < most_hops }
    ensures { stamps.new ≡ set stamps.old (get_or images.now i 0) k }
{
    let p = usize::from(images[i]);
    if p < stamps.len() {
        stamps[p] = k;
    }
}

// Stamps the images of the hops of the state u of graph 1, if u is visited and its map is r.
fn stamp_state<F: Flag>(
    located: Located<'_>,
    starts1: &[u16; STARTS],
    seen: &[F],
    stamps: &mut [u16],
    r: NewState,
    k: u16,
    u: OldState,
)
    requires table { SuccessorIndex located.mapped.hops1.now starts1.now }
    requires seen { located.mapped.shape1.states ≤ length seen.now }
    requires stamps { count located.mapped.hops2.now ≤ length stamps.old }
    requires state { u.0 < located.mapped.shape1.states }
    ensures { StampedFrom located.entry.mapped.hops1.now located.entry.mapped.hops2.now
        located.entry.mapped.map.now (map F.raised seen.now) r.0 k
        (first_of located.entry.mapped.hops1.now u.0) (first_of located.entry.mapped.hops1.now (u.0 + 1)) stamps.old stamps.new }
{
    let index1 = Index {
        hops: located.mapped.hops1,
        starts: starts1,
    };
    let v = located.mapped.image(u);
    if seen[usize::from(u.0)].is_raised() & (v == r) {
        for i in index1.first(u.0)..index1.past(u.0) {
            stamp_hop(located.images, stamps, k, i);
        }
    }
}

// Stamps the images of the hops of every such state of graph 1, by its table of first places. Most
// states are not visited, so that is asked before anything else. A `bool` or a byte says of each
// state whether it is visited.
pub fn stamp_all<F: Flag>(
    located: Located<'_>,
    starts1: &[u16; STARTS],
    seen: &[F],
    stamps: &mut [u16],
    r: NewState,
    k: u16,
)
    requires table { SuccessorIndex located.mapped.hops1.now starts1.now }
    requires seen { located.mapped.shape1.states ≤ length seen.now }
    requires stamps { count located.mapped.hops2.now ≤ length stamps.old }
    ensures { StampedUpTo located.entry.mapped.hops1.now located.entry.mapped.hops2.now
        located.entry.mapped.map.now (map F.raised seen.now) r.0 k (count located.entry.mapped.hops1.now)
        stamps.old stamps.new }
{
    for u in 0..located.mapped.shape1.states as u16 {
        if seen[usize::from(u)].is_raised() {
            stamp_state(located, starts1, seen, stamps, r, k, OldState(u));
        }
    }
}
