// Whether a graph has a ring (silent cycle), and which is the lowest state on one. A graph without
// rings is a `Ringless`: what works on such graphs alone takes one, and asks nothing of it.
// This is the answer of row 5 of document 01, for the entries that refuse such a graph. If all
// states can be ranked there is no ring, and no further search is made. Else a breadth-first search
// along the silent (tau) hops from each state without a rank, in ascending order, asks whether it
// leads back.
// Uses `graph_index` for the graph with its table of first places, `walk_acyclic` for the ranks,
// `walk_reach` and `walk_silent` for the search.
#![tactic(auto)]

ghost use Rattle.std.specs.Prelude.{◌≡◌, ◌<◌, ◌≤◌, length};
ghost use Rattle.base_bounded.specs.Quantifiers.{any};
ghost use Rattle.graph.specs.Hops.{count};
ghost use Rattle.graph.specs.Answers.{answer_of};
ghost use Rattle.walk_reach.specs.Internal.Frontier.{Space};
ghost use Rattle.walk_reach.specs.Internal.Reach.{Chooses};
ghost use Rattle.walk_silent.specs.Silent.{silent_at, on_ring, ring_answer};
ghost use Rattle.walk_rings.specs.Internal.Ring.{leads_back_at, IsLowest};

use graph::hops::{from_at, hop_count, label_at, to_at};
use graph::{MOST_STATES, OldState, Refusal};
use graph_index::Indexed;
use walk_acyclic::Ranking;
use walk_reach::reach;
use walk_silent::chosen::silent_flags;

// An admitted graph without rings and its table of first places: what row 5 lets pass.
#[derive(Clone, Copy)]
pub struct Ringless<'a> {
    pub graph: Indexed<'a>,
    ghost free: { (ring_answer graph.shape graph.index.hops.now).number ≡ 0 },
}

// Whether the hop at the place leads silently from a visited state to s.
#[tactic(auto, unfolding(crate::specs::Internal::Ring::leads_back_at, walk_reach::specs::Internal::Frontier::visited))]
fn returns_at(graph: Indexed<'_>, i: usize, s: OldState, seen: &[bool]) -> bool
    requires capacity { graph.shape.states ≤ length seen.now }
    requires place { i < count graph.index.hops.now }
    ensures { result ≡ leads_back_at graph.entry.index.hops.now seen.now s.0 i }
{
    let hops = graph.index.hops;
    label_at(hops, i).0 == 0 && to_at(hops, i) == s && seen[usize::from(from_at(hops, i).0)]
}

// Whether some hop does.
fn returns(graph: Indexed<'_>, s: OldState, seen: &[bool]) -> bool
    requires { graph.shape.states ≤ length seen.now }
    ensures { result ≡ any (count graph.entry.index.hops.now) (leads_back_at graph.entry.index.hops.now seen.now s.0) }
{
    (0..hop_count(graph.index.hops)).any(|i| returns_at(graph, i, s, seen))
}

// Whether s is on a ring: no ranked state is; any other is if it leads to a state that has a silent
// hop to it.
fn is_on_ring(
    ranking: &Ranking<'_>,
    silent: &[bool],
    s: OldState,
    seen: &mut [bool],
    queue: &mut [u16],
) -> bool
    requires flags { count ranking.now.graph.index.hops.now ≤ length silent.now }
    requires silent { Chooses ranking.now.graph.index.hops.now (silent_at ranking.now.graph.index.hops.now) silent.now }
    requires state { s.0 < ranking.now.graph.shape.states }
    requires space { Space ranking.now.graph.shape.states seen.old queue.old }
    ensures { result ≡ on_ring ranking.now.graph.index.hops.now ranking.now.graph.shape.states s.0 }
{
    if ranking.ranked[usize::from(s.0)] {
        return false;
    }
    reach(ranking.graph, silent, s, seen, queue);
    returns(ranking.graph, s, seen)
}

// The lowest state on a ring: by a search from each state that is not ranked.
fn lowest_unranked(ranking: &Ranking<'_>) -> Option<OldState>
    ensures { IsLowest ranking.now.graph.shape ranking.now.graph.index.hops.now result }
{
    let graph = ranking.graph;
    let silent = silent_flags(graph.index.hops);
    let mut seen = [false; MOST_STATES];
    let mut queue = [0u16; MOST_STATES];
    for s in 0..graph.shape.states as u16 {
        if is_on_ring(ranking, &silent, OldState(s), &mut seen, &mut queue) {
            return Some(OldState(s));
        }
    }
    None
}

// The lowest state on a ring. In a graph without rings all states are ranked, so that no search is
// made.
pub fn lowest_on_ring(graph: Indexed<'_>) -> Option<OldState>
    ensures { IsLowest graph.entry.shape graph.entry.index.hops.now result }
{
    let mut ranking = Ranking {
        graph,
        ranked: [false; MOST_STATES],
    };
    if ranking.rank_all() == graph.shape.states as usize {
        return None;
    }
    lowest_unranked(&ranking)
}

// Row 5, by the table of first places, which the caller has made and needs again.
pub fn check_rings(graph: Indexed<'_>) -> Result<(), Refusal>
    ensures { answer_of result ≡ ring_answer graph.entry.shape graph.entry.index.hops.now }
{
    match lowest_on_ring(graph) {
        Some(s) => Err(Refusal::Ring(usize::from(s.0))),
        None => Ok(()),
    }
}
