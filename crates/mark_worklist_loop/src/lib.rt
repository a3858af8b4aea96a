// The marked set of strong confluence (R1) by a worklist, for a checked graph, with the number of
// its tests: document 02's faster marking.
// The first round tests every silent (tau) hop, each later one those of which a diamond may have
// been closed by a hop that fell in the round before. Rounds are synchronous: a round tests against
// the marks as they were when it began, and takes the marks of what fell at its end. Callers that
// have checked the graph call `mark_rounds`: `mark`, `mark_fast`, `reduce`, `shrink`, the program.
// Uses `mark_worklist` for which hops a round tests and that the others survive it,
// `mark_worklist_next` to find them and for what a later round goes by, `mark_worklist_round` for
// the parts of a round, `mark_worklist_push` for the worklist and the graph with its predecessor
// index, `graph_index` for the hop list with its table and its marks, and `graph_predecessors` for
// the hops into a state.
#![tactic(auto)]

ghost use Rattle.std.specs.Prelude.{◌≡◌, ◌≤◌, Bool, List, length, take};
ghost use Rattle.base_outputs.specs.Output.{on_front};
ghost use Rattle.graph.specs.Hops.{count};
ghost use Rattle.graph.specs.Answers.{most_hops};
ghost use Rattle.mark_confluence.specs.Rounds.{marked};
ghost use Rattle.mark_confluence.specs.Marks.{marks_of};
ghost use Rattle.graph_successors.specs.Internal.SuccessorIndex.{SuccessorIndex, Indexable};
ghost use Rattle.mark_worklist.specs.Tests.{tests_of};
ghost use Rattle.mark_worklist_push.specs.Internal.Queue.{queued, PlacesBelow};
ghost use Rattle.mark_worklist_round.specs.Internal.Round.{DirtyStates, SkipsClean, Tested, Cleared, Emptied};
ghost use Rattle.mark_worklist_loop.specs.Internal.BetweenRounds.{AfterSome};

use graph::MOST_HOPS;
use graph_index::{Index, Marked};
use graph_predecessors::{places_of, predecessor_starts};
use graph_successors::STARTS;
use mark_confluence::start_marks;
use mark_worklist_next::{RoundGraph, leaving_of, next_queue};
use mark_worklist_push::{Predecessors, Worklist};
use mark_worklist_round::{dirty_of, list_silent, test_first, test_worklist, unmark_fallen};

// A later round, of the hops on the worklist: those to the dirty states, which the `left` fallen
// hops leave, are tried. The dirty states are made in here: among what `later_rounds` keeps they
// would take `zf_mark` over the stack that the header promises.
#[inline(always)]
fn test_dirty(
    graph: Marked<'_>,
    left: usize,
    worklist: &mut Worklist<'_>,
    fallen: &mut [u16; MOST_HOPS],
) -> usize
    requires left { left ≤ most_hops }
    requires fallen { PlacesBelow graph.index.hops.now (take left fallen.old) }
    requires most { worklist.old.len ≤ most_hops }
    requires capacity { worklist.old.len ≤ length worklist.old.places.now }
    requires places { PlacesBelow graph.index.hops.now (queued worklist.old) }
    requires clean { (dirty : List Bool) → DirtyStates graph.index.hops.now (take left fallen.old) dirty →
        SkipsClean graph.index.hops.now graph.marks.now dirty (queued worklist.old) }
    requires flags { count graph.index.hops.now ≤ length worklist.old.flags.now }
    ensures tested { Tested graph.entry.index.hops.now graph.entry.marks.now (queued worklist.old) (take result fallen.new) }
    ensures within { result ≤ most_hops }
    ensures cleared { Cleared graph.entry.index.hops.now (queued worklist.old) worklist.old.flags.now worklist.new.flags.now }
    ensures emptied { Emptied worklist.old worklist.new }
{
    let dirty = dirty_of(graph.index.hops, &fallen[..left]);
    test_worklist(graph, &dirty, worklist, fallen)
}

// The rounds after the first, in which `lost` hops fell; returns the number of all tests. The
// predecessor index and the flags are made here, since most graphs need none: nothing falls in
// their first round.
fn later_rounds(
    index: Index<'_>,
    marks: &mut [u8],
    queue: &mut [u16; MOST_HOPS],
    fallen: &mut [u16; MOST_HOPS],
    lost: usize,
    tests: usize,
) -> usize
    requires marks { count index.hops.now ≤ length marks.old }
    requires lost { lost ≤ most_hops }
    requires after { AfterSome index.hops.now marks.old marks.old (take lost fallen.old) tests }
    ensures tests { result ≡ tests_of index.entry.hops.now }
    ensures writes { marks.new ≡ on_front (marks_of index.entry.hops.now (marked index.entry.hops.now)) marks.old }
{
    let begins = predecessor_starts(index.hops);
    let places = places_of(index.hops, &begins);
    let leaving = leaving_of(index.hops, marks);
    let mut flags = [false; MOST_HOPS];
    let mut worklist = Worklist {
        flags: &mut flags,
        places: queue,
        len: 0,
    };
    let mut left = lost;
    let mut sum = tests;
    // `while`: how many rounds it takes depends on what falls.
    while left > 0 {
        let round = RoundGraph {
            graph: Predecessors {
                marked: Marked { index, marks },
                begins: &begins,
                places: &places,
            },
            leaving: &leaving,
        };
        next_queue(round, &fallen[..left], &mut worklist);
        sum += worklist.len;
        left = test_dirty(round.graph.marked, left, &mut worklist, fallen);
        unmark_fallen(marks, &fallen[..left]);
    }
    sum
}

// Marks by rounds; returns the number of tests.
pub fn mark_rounds(index: Index<'_>, marks: &mut [u8]) -> usize
    requires { count index.hops.now ≤ length marks.old }
    ensures tests { result ≡ tests_of index.entry.hops.now }
    ensures writes { marks.new ≡ on_front (marks_of index.entry.hops.now (marked index.entry.hops.now)) marks.old }
{
    let mut queue = [0u16; MOST_HOPS];
    let mut fallen = [0u16; MOST_HOPS];
    start_marks(index.hops, marks);
    let n = list_silent(index.hops, &mut queue);
    let lost = test_first(Marked { index, marks }, &queue[..n], &mut fallen);
    if lost == 0 {
        return n;
    }
    unmark_fallen(marks, &fallen[..lost]);
    later_rounds(index, marks, &mut queue, &mut fallen, lost, n)
}
