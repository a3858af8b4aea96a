// Which hops the next round of the worklist marking tests, found from those that fell (lost their
// marks) in the round before.
// For each fallen hop s3 to s4 it visits the hops s1, a, s3 into s3. For each of these it visits
// the silent (tau) hops of s1 where s1 has at most a few hops more than lead to s4, else the hops
// into s4, of which those labelled a answer. So a pair costs at most the hops into s4 and those
// few, and is met for one fallen hop at most.
// Uses `mark_worklist_push` for what one such pair brings to the queue and for the hops into a
// state, `graph_index` for those out of it.
#![tactic(auto)]

ghost use Rattle.std.specs.Prelude.{◌≡◌, ◌<◌, ◌≤◌, length};
ghost use Rattle.graph.specs.Hops.{count};
ghost use Rattle.graph_successors.specs.Internal.SuccessorIndex.{Indexable};
ghost use Rattle.mark_worklist_push.specs.Internal.Queue.{Leaving, Queue, Pushed, Trying, ClosedBy, ClosedByAny, PlacesBelow};
ghost use Rattle.mark_worklist_push.specs.Internal.Facts.{leaving_prop};

use graph::MOST_STATES;
use graph::hops::{from_at, hop_count, to_at};
use mark_worklist_push::{Predecessors, Worklist, push_into, push_out};

// Where s1 has at most this many hops more than lead to s4, its own hops are gone over: that needs
// no search where none of them is marked.
const FEW: usize = 16;

// What a later round goes by: the graph with its marks and its predecessor index, and whether a
// marked hop leaves a state. It is a few references, and goes by value.
#[derive(Clone, Copy)]
pub struct RoundGraph<'a> {
    pub graph: Predecessors<'a>,
    pub leaving: &'a [bool; MOST_STATES],
    ghost leaves: { Leaving graph.marked.index.hops.now graph.marked.marks.now leaving.now } by { leaving_prop _ _ _ },
}

// The states that a marked hop leaves. Marks are only taken, so one that none leaves stays so.
pub fn leaving_of(hops: &[u16], marks: &[u8]) -> [bool; MOST_STATES]
    requires ready { Indexable hops.now }
    requires capacity { count hops.now ≤ length marks.now }
    ensures { Leaving hops.now marks.now result }
{
    let mut leaving = [false; MOST_STATES];
    for i in 0..hop_count(hops) {
        if marks[i] == 1 {
            leaving[usize::from(from_at(hops, i).0)] = true;
        }
    }
    leaving
}

// Pushes the silent hops for which the hop at place j is one to try and the end of the hop at place
// p is an s4, by the way that costs less.
fn push_hop(round: RoundGraph<'_>, worklist: &mut Worklist<'_>, j: usize, p: usize)
    requires queue { Queue round.graph.marked.index.hops.now worklist.old }
    requires tried { j < count round.graph.marked.index.hops.now }
    requires fallen { p < count round.graph.marked.index.hops.now }
    ensures { Pushed round.entry.graph.marked.index.hops.now round.entry.graph.marked.marks.now
        (Trying round.entry.graph.marked.index.hops.now j p) worklist.old worklist.new }
{
    let graph = round.graph;
    let index = graph.marked.index;
    let s1 = from_at(index.hops, j).0;
    let leaves = round.leaving[usize::from(s1)];
    if !leaves {
        return;
    }
    let s4 = to_at(index.hops, p).0;
    if index.past(s1) + graph.begin(s4) <= graph.end(s4) + index.first(s1) + FEW {
        push_out(graph.marked, worklist, j, p);
    } else {
        push_into(graph, worklist, j, p);
    }
}

// Pushes the marked hops of which the hop at place p, s3 to s4, is a closing hop: each hop into s3
// is one to try.
fn push_fallen(round: RoundGraph<'_>, worklist: &mut Worklist<'_>, p: usize)
    requires queue { Queue round.graph.marked.index.hops.now worklist.old }
    requires fallen { p < count round.graph.marked.index.hops.now }
    ensures { Pushed round.entry.graph.marked.index.hops.now round.entry.graph.marked.marks.now
        (ClosedBy round.entry.graph.marked.index.hops.now p) worklist.old worklist.new }
{
    let s3 = from_at(round.graph.marked.index.hops, p);
    for &j in round.graph.hops_into(s3.0) {
        push_hop(round, worklist, usize::from(j), p);
    }
}

// Pushes the marked hops of which one of the fallen hops is a closing hop.
pub fn next_queue(round: RoundGraph<'_>, fallen: &[u16], worklist: &mut Worklist<'_>)
    requires queue { Queue round.graph.marked.index.hops.now worklist.old }
    requires fallen { PlacesBelow round.graph.marked.index.hops.now fallen.now }
    ensures { Pushed round.entry.graph.marked.index.hops.now round.entry.graph.marked.marks.now
        (ClosedByAny round.entry.graph.marked.index.hops.now fallen.now) worklist.old worklist.new }
{
    for &p in fallen {
        push_fallen(round, worklist, usize::from(p));
    }
}
