// Whether one confluence diamond closes, by a merge of two sorted lists: whether s2 has a hop
// labelled a to s3 or to the end of a marked silent (tau) hop of s3.
// The hops of s2 with that label and the silent hops of s3 both ascend by their ends, so both are
// walked side by side: each search goes on from where the one before it ended.
// `mark_diamond_search` takes this way where neither list is far shorter than the other.
// Uses `mark_confluence` for the condition and the set that marks are, `graph` for hops and the
// search, `graph_index` for where the hops of a state stand, and `graph_successors` for those from
// a place on.
#![tactic(auto)]

ghost use Rattle.std.specs.Prelude.{◌≡◌, ℕ, ◌<◌, ◌≤◌, length, Ok};
ghost use Rattle.graph.specs.Hops.{count};
ghost use Rattle.graph.specs.Answers.{most_states};
ghost use Rattle.mark_confluence.specs.Rounds.{closing, hop_answers};
ghost use Rattle.mark_confluence.specs.Internal.MarkSet.{mark_set};
ghost use Rattle.graph_successors.specs.Internal.Row.{Row};
ghost use Rattle.mark_diamond_merge.specs.Internal.Found.{found_marked};

use graph::hops::{hop_of, label_at, to_at};
use graph::search::{find_ahead, place_of};
use graph::{Label, OldState};
use graph_index::{Index, Marked};
use graph_successors::Rest;

// Whether the hops labelled a that `few` begins with are far fewer than those labelled b that
// `many` begins with: both are counted side by side, one of the first for each eight of the second.
// `mark_diamond_search` chooses by this between ways that all have the same answer.
pub fn is_fewer(index: Index<'_>, few: Rest, a: Label, many: Rest, b: Label) -> bool
    requires row { few.past ≤ count index.hops.now }
    requires other { many.past ≤ count index.hops.now }
{
    let mut m = few.at;
    for k in (many.at..many.past).step_by(8) {
        if label_at(index.hops, k) != b {
            return false;
        }
        if m >= few.past || label_at(index.hops, m) != a {
            return true;
        }
        m += 1;
    }
    false
}

// Whether a hop that was searched for was found, and is marked.
pub fn is_held(marks: &[u8], found: Result<usize, usize>) -> bool
    requires { (p : ℕ) → found ≡ Ok p → p < length marks.now }
    ensures { result ≡ found_marked marks.now found }
{
    match found {
        Ok(p) => marks[p] == 1,
        Err(_) => false,
    }
}

// Whether a hop labelled a of `rest` leads to an s4 that closes s3. `m` goes along s3's hops with
// the ends of those of `rest`: it never goes back.
pub fn row_answers(graph: Marked<'_>, rest: Rest, a: Label, s3: OldState) -> bool
    requires row { Row graph.index.hops.now rest.state.0 a.0 rest.at rest.past }
    requires state { s3.0 < most_states }
    ensures { result ≡ hop_answers graph.entry.index.hops.now (closing (mark_set graph.entry.index.hops.now graph.entry.marks.now)) rest.state.0 a.0 s3.0 }
{
    let index = graph.index;
    let end = index.past(s3.0);
    let mut m = index.first(s3.0);
    for k in rest.at..rest.past {
        if label_at(index.hops, k) != a {
            return false;
        }
        let s4 = to_at(index.hops, k);
        if s3 == s4 {
            return true;
        }
        let found = find_ahead(index.hops, hop_of(s3.0, 0, s4.0), m, end);
        if is_held(graph.marks, found) {
            return true;
        }
        m = place_of(found);
    }
    false
}
