// Whether a silent (tau) hop that satisfied the confluence condition in the round before still
// does: the test of a later round of the worklist marking.
// Of the hops from its start only those to a state that a hop which fell in the round before leaves
// are tried again; the others are answered as they were. The like hop and the first hop of a label
// are found by binary search.
// Uses `mark_confluence` for the condition and the set that marks are, `graph` for hops and their
// order, `graph_index` for the hops of a state, those of a label, and the search among them,
// `graph_successors` for those from a place on, `mark_diamond` for the trial of one hop, and
// `base_flag` for the table of dirty states, which may be of `bool` or of bytes.
#![tactic(auto)]

ghost use Rattle.std.specs.Prelude.{◌≡◌, ◌<◌, map};
ghost use Rattle.graph.specs.Hops.{count};
ghost use Rattle.graph.specs.Answers.{most_states};
ghost use Rattle.mark_confluence.specs.Internal.Rounds.{answered, closes_at};
ghost use Rattle.mark_confluence.specs.Internal.MarkSet.{mark_set};
ghost use Rattle.mark_diamond_retest.specs.Internal.Retest.{CleanAnswered};

use base_flag::Flag;
use graph::hops::{from_at, label_at, to_at};
use graph::{MOST_STATES, OldState};
use graph_index::Marked;
use graph_successors::Rest;
use mark_diamond::is_answered;

// Y of the hop at place j against a silent hop to s2. The merge of `mark_diamond` would pass over
// most of s2's hops here, so the like hop and the place of the label are found by binary search.
fn passes(graph: Marked<'_>, s2: OldState, j: usize) -> bool
    requires place { j < count graph.index.hops.now }
    requires asked { s2.0 < most_states }
    ensures { result ≡ answered graph.entry.index.hops.now (mark_set graph.entry.index.hops.now graph.entry.marks.now) s2.0 j }
{
    let index = graph.index;
    let s3 = to_at(index.hops, j);
    let a = label_at(index.hops, j);
    if index.leads_to(s2.0, a, s3.0) {
        return true;
    }
    let rest = Rest {
        state: s2,
        at: index.first_labelled(s2.0, a),
        past: index.past(s2.0),
    };
    is_answered(graph, rest, j)
}

// X of a silent hop, the one at place i, tested again: of the hops from its start only those to
// dirty states are tried, since the others are answered as before.
pub fn closes_again<F: Flag>(graph: Marked<'_>, dirty: &[F; MOST_STATES], i: usize) -> bool
    requires place { i < count graph.index.hops.now }
    requires others { CleanAnswered graph.index.hops.now graph.marks.now (map F.raised dirty.now) i }
    ensures { result ≡ closes_at graph.entry.index.hops.now (mark_set graph.entry.index.hops.now graph.entry.marks.now) i }
{
    let index = graph.index;
    let s1 = from_at(index.hops, i);
    let s2 = to_at(index.hops, i);
    for j in index.first(s1.0)..index.past(s1.0) {
        let is_dirty = dirty[usize::from(to_at(index.hops, j).0)].is_raised();
        if is_dirty && !passes(graph, s2, j) {
            return false;
        }
    }
    true
}
