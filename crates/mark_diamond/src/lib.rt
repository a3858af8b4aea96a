// Whether a silent (tau) hop s1 to s2 satisfies the confluence condition of document 01 with the
// set that a list of marks is: whether each hop of s1 is answered from s2.
// Each hop of s1 is tried once. The hops of s1 and of s2 are merged in list order: where s2 has the
// like hop no more is asked, else `mark_diamond_search` looks for one that closes the diamond.
// `mark_sweeps` asks it of each marked hop, `mark_worklist_round` of each silent hop in the first
// round; `mark_diamond_retest` uses the trial of one hop (`is_answered`).
// Uses `mark_confluence` for the condition and the set that marks are, `graph` for hops and the
// search, `graph_index` for where the hops of a state stand, `graph_successors` for those from a
// place on, and `mark_diamond_search` for one diamond.
#![tactic(auto)]

ghost use Rattle.std.specs.Prelude.{◌≡◌, ◌<◌, ◌≤◌, eqb, ◌&&◌};
ghost use Rattle.graph.specs.Hops.{count, label, to};
ghost use Rattle.graph.specs.Answers.{most_states};
ghost use Rattle.mark_confluence.specs.Internal.Rounds.{answered, closes_at};
ghost use Rattle.mark_confluence.specs.Internal.MarkSet.{mark_set};
ghost use Rattle.graph_successors.specs.Internal.Row.{Row};
ghost use Rattle.mark_diamond.specs.Internal.Skipped.{Skipped};

use graph::hops::{from_at, hop_of, label_at, to_at};
use graph::search::{find_ahead, is_at, place_of};
use graph::{Label, OldState};
use graph_index::{Index, Marked};
use graph_successors::Rest;
use mark_diamond_search::{hop_answers, is_closed};

// The first place from `at` on whose label is not below a, or `past`.
fn skip(index: Index<'_>, at: usize, past: usize, a: Label) -> usize
    requires before { at ≤ past }
    requires within { past ≤ count index.hops.now }
    ensures { Skipped index.entry.hops.now at past a.0 result }
{
    for k in at..past {
        if label_at(index.hops, k).0 >= a.0 {
            return k;
        }
    }
    past
}

// Y: whether the hop at place j is answered from the state of `rest`, which holds that state's hops
// of the label of j or above.
pub fn is_answered(graph: Marked<'_>, rest: Rest, j: usize) -> bool
    requires place { j < count graph.index.hops.now }
    requires row { Row graph.index.hops.now rest.state.0 (label graph.index.hops.now j) rest.at rest.past }
    requires asked { rest.state.0 < most_states }
    ensures { result ≡ answered graph.entry.index.hops.now (mark_set graph.entry.index.hops.now graph.entry.marks.now) rest.state.0 j }
{
    let a = label_at(graph.index.hops, j);
    let s3 = to_at(graph.index.hops, j);
    let is_silent = a.0 == 0;
    if is_silent && is_closed(graph, s3, rest.state) {
        return true;
    }
    hop_answers(graph, rest, a, s3)
}

// Whether the hop at place j is silent and leads to s2, as the hop under test does: s2 itself
// answers it, and none of its hops is looked at.
fn stays(index: Index<'_>, s2: OldState, j: usize) -> bool
    requires { j < count index.hops.now }
    ensures { result ≡ (eqb (label index.entry.hops.now j) 0 && eqb (to index.entry.hops.now j) s2.0) }
{
    label_at(index.hops, j).0 == 0 && to_at(index.hops, j) == s2
}

// X of a silent hop, the one at place i: whether each hop from its start is answered from its end.
pub fn closes_at(graph: Marked<'_>, i: usize) -> bool
    requires { i < count graph.index.hops.now }
    ensures { result ≡ closes_at graph.entry.index.hops.now (mark_set graph.entry.index.hops.now graph.entry.marks.now) i }
{
    let index = graph.index;
    let s1 = from_at(index.hops, i);
    let s2 = to_at(index.hops, i);
    let past = index.past(s2.0);
    let mut at = index.first(s2.0);
    let mut same = at;
    for j in index.first(s1.0)..index.past(s1.0) {
        if !stays(index, s2, j) {
            let a = label_at(index.hops, j);
            at = skip(index, at, past, a);
            let found = find_ahead(
                index.hops,
                hop_of(s2.0, a.0, to_at(index.hops, j).0),
                same,
                past,
            );
            same = place_of(found);
            let rest = Rest {
                state: s2,
                at,
                past,
            };
            // Where s2 has the like hop, s4 is s3 itself, and no more is asked.
            if !is_at(found) && !is_answered(graph, rest, j) {
                return false;
            }
        }
    }
    true
}
