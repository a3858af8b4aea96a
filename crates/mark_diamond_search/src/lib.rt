// Whether one confluence diamond closes: whether s2 has a hop labelled a to s3 or to the end of a
// marked silent (tau) hop of s3.
// Three ways: where s2's hops of that label are far fewer than s3's silent hops, or far more, each
// of the few is looked up among the many by binary search; else `mark_diamond_merge` merges both.
// `mark_diamond` asks it for a hop tried where s2 has no like hop.
// Uses `mark_confluence` for the condition and the set that marks are, `graph` for hops,
// `graph_index` for where the hops of a state stand and the search among them, `graph_successors`
// for those from a place on, and `mark_diamond_merge` for which of two lists is far shorter, for
// the merge, and for the mark of a hop that was searched for.
#![tactic(auto)]

ghost use Rattle.std.specs.Prelude.{◌≡◌, ◌<◌, ◌≤◌};
ghost use Rattle.graph.specs.Hops.{count};
ghost use Rattle.graph.specs.Answers.{most_states};
ghost use Rattle.mark_confluence.specs.Rounds.{closing, hop_answers};
ghost use Rattle.mark_confluence.specs.Internal.MarkSet.{mark_set};
ghost use Rattle.graph_successors.specs.Internal.Row.{Row};

use graph::hops::{hop_of, label_at, to_at};
use graph::{Label, OldState};
use graph_index::{Index, Marked};
use graph_successors::Rest;
use mark_diamond_merge::{is_fewer, is_held, row_answers};

// Z: s3 is s4, or the silent hop from s3 to s4 is marked.
pub fn is_closed(graph: Marked<'_>, s3: OldState, s4: OldState) -> bool
    requires { s3.0 < most_states }
    ensures { result ≡ closing (mark_set graph.entry.index.hops.now graph.entry.marks.now) s3.0 s4.0 }
{
    s3 == s4 || is_held(graph.marks, graph.index.find(hop_of(s3.0, 0, s4.0)))
}

// Whether a hop labelled a of `rest` leads to an s4 that closes s3, each of these hops asked.
fn few_answer(graph: Marked<'_>, rest: Rest, a: Label, s3: OldState) -> bool
    requires row { Row graph.index.hops.now rest.state.0 a.0 rest.at rest.past }
    requires state { s3.0 < most_states }
    ensures { result ≡ hop_answers graph.entry.index.hops.now (closing (mark_set graph.entry.index.hops.now graph.entry.marks.now)) rest.state.0 a.0 s3.0 }
{
    for k in rest.at..rest.past {
        if label_at(graph.index.hops, k) != a {
            return false;
        }
        if is_closed(graph, s3, to_at(graph.index.hops, k)) {
            return true;
        }
    }
    false
}

// Whether a hop labelled a of s2 leads to an s4 that closes s3, s3 itself and the end of each of
// its marked hops asked.
fn ends_answer(graph: Marked<'_>, s2: OldState, a: Label, s3: OldState) -> bool
    requires asked { s2.0 < most_states }
    requires state { s3.0 < most_states }
    ensures { result ≡ hop_answers graph.entry.index.hops.now (closing (mark_set graph.entry.index.hops.now graph.entry.marks.now)) s2.0 a.0 s3.0 }
{
    let index = graph.index;
    if index.leads_to(s2.0, a, s3.0) {
        return true;
    }
    for i in index.first(s3.0)..index.past(s3.0) {
        if label_at(index.hops, i).0 != 0 {
            return false;
        }
        let is_marked = graph.marks[i] == 1;
        if is_marked && index.leads_to(s2.0, a, to_at(index.hops, i).0) {
            return true;
        }
    }
    false
}

// Whether a hop labelled a of `rest` leads to an s4 that closes s3: if s2's hops labelled a or s3's
// silent hops are far fewer, each of these is looked up, else both are merged.
fn long_answer(graph: Marked<'_>, rest: Rest, a: Label, s3: OldState) -> bool
    requires row { Row graph.index.hops.now rest.state.0 a.0 rest.at rest.past }
    requires asked { rest.state.0 < most_states }
    requires state { s3.0 < most_states }
    ensures { result ≡ hop_answers graph.entry.index.hops.now (closing (mark_set graph.entry.index.hops.now graph.entry.marks.now)) rest.state.0 a.0 s3.0 }
{
    let index = graph.index;
    let ends = Rest {
        state: s3,
        at: index.first(s3.0),
        past: index.past(s3.0),
    };
    if is_fewer(index, ends, Label(0), rest, a) {
        return ends_answer(graph, rest.state, a, s3);
    }
    if is_fewer(index, rest, a, ends, Label(0)) {
        return few_answer(graph, rest, a, s3);
    }
    row_answers(graph, rest, a, s3)
}

// Whether at most one hop of `rest` is labelled a: then the others need not be counted.
fn is_single(index: Index<'_>, rest: Rest, a: Label) -> bool
    requires { rest.past ≤ count index.hops.now }
{
    rest.at >= rest.past || rest.at + 1 >= rest.past || label_at(index.hops, rest.at + 1) != a
}

// Whether a hop labelled a of `rest` leads to an s4 that closes s3.
// Not inlined: the trial of a hop mostly ends before it comes here, and is short without it.
#[inline(never)]
pub fn hop_answers(graph: Marked<'_>, rest: Rest, a: Label, s3: OldState) -> bool
    requires row { Row graph.index.hops.now rest.state.0 a.0 rest.at rest.past }
    requires asked { rest.state.0 < most_states }
    requires state { s3.0 < most_states }
    ensures { result ≡ hop_answers graph.entry.index.hops.now (closing (mark_set graph.entry.index.hops.now graph.entry.marks.now)) rest.state.0 a.0 s3.0 }
{
    if is_single(graph.index, rest, a) {
        few_answer(graph, rest, a, s3)
    } else {
        long_answer(graph, rest, a, s3)
    }
}
