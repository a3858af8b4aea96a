// The parts of one round of the worklist marking: the hops to test are listed, tested against the
// marks as they are, and those that fail lose their marks at the end.
// The first round tests each silent (tau) hop in full; a later one tries only the hops to a state
// that a fallen hop leaves. `mark_worklist_loop` puts the parts together.
// Uses `mark_diamond` and `mark_diamond_retest` for the two tests, `mark_worklist` for which hops
// the first round tests, `mark_worklist_push` for the queue, `graph_index` for the hop list with
// its table and its marks, and `base_flag` for tables that may be of `bool` or of bytes.
#![tactic(auto)]

ghost use Rattle.std.specs.Prelude.{◌<◌, ◌≤◌, length, map, take, All};
ghost use Rattle.graph.specs.Hops.{count};
ghost use Rattle.graph.specs.Answers.{most_hops};
ghost use Rattle.graph_successors.specs.Internal.SuccessorIndex.{Indexable};
ghost use Rattle.mark_worklist.specs.Tests.{tested_in};
ghost use Rattle.mark_worklist_push.specs.Internal.Queue.{queued, PlacesBelow};
ghost use Rattle.mark_worklist_round.specs.Internal.Round.{Enumerates, DirtyStates, SkipsClean, Tested, Cleared, Emptied, Unmarked};

use base_flag::Flag;
use graph::hops::{from_at, hop_count, label_at};
use graph::{MOST_HOPS, MOST_STATES};
use graph_index::Marked;
use mark_diamond::closes_at;
use mark_diamond_retest::closes_again;
use mark_worklist_push::Worklist;

// Lists the silent hops: the first round tests them all. Returns how many there are. Each place is
// written behind the list, and kept if its hop is silent, so that no write depends on a branch that
// is hard to predict.
pub fn list_silent(hops: &[u16], queue: &mut [u16; MOST_HOPS]) -> usize
    requires { Indexable hops.now }
    ensures lists { Enumerates (count hops.now) (tested_in hops.now 0) (take result queue.new) }
    ensures within { result ≤ most_hops }
{
    let mut n = 0;
    for i in 0..hop_count(hops) {
        queue[n] = i as u16;
        let is_silent = label_at(hops, i).0 == 0;
        if is_silent {
            n += 1;
        }
    }
    n
}

// The dirty states, those that a fallen hop leaves. Of the hops tried only those to a dirty state
// can have lost an answer.
pub fn dirty_of(hops: &[u16], fallen: &[u16]) -> [bool; MOST_STATES]
    requires ready { Indexable hops.now }
    requires places { PlacesBelow hops.now fallen.now }
    ensures { DirtyStates hops.now fallen.now result }
{
    let mut dirty = [false; MOST_STATES];
    for &p in fallen {
        let s = from_at(hops, usize::from(p));
        dirty[usize::from(s.0)] = true;
    }
    dirty
}

// The first round: tests the hops of the queue against the marks, which stay as they are, and tries
// every hop; lists those that do not close, and returns how many. The count is returned beside the
// array: a struct of the two would have to hold the array's length as a fact, which the type gives.
pub fn test_first(graph: Marked<'_>, queue: &[u16], fallen: &mut [u16; MOST_HOPS]) -> usize
    requires most { length queue.now ≤ most_hops }
    requires places { PlacesBelow graph.index.hops.now queue.now }
    ensures tested { Tested graph.entry.index.hops.now graph.entry.marks.now queue.now (take result fallen.new) }
    ensures within { result ≤ length queue.now }
{
    let mut lost = 0;
    for &i in queue {
        let closes = closes_at(graph, usize::from(i));
        if !closes {
            fallen[lost] = i;
            lost += 1;
        }
    }
    lost
}

// A later round: the same, with only the hops to dirty states tried, and the flags of the queue
// cleared.
pub fn test_again<F: Flag, G: Flag>(
    graph: Marked<'_>,
    dirty: &[F; MOST_STATES],
    queue: &[u16],
    flags: &mut [G; MOST_HOPS],
    fallen: &mut [u16; MOST_HOPS],
) -> usize
    requires most { length queue.now ≤ most_hops }
    requires places { PlacesBelow graph.index.hops.now queue.now }
    requires clean { SkipsClean graph.index.hops.now graph.marks.now (map F.raised dirty.now) queue.now }
    ensures tested { Tested graph.entry.index.hops.now graph.entry.marks.now queue.now (take result fallen.new) }
    ensures within { result ≤ length queue.now }
    ensures cleared { Cleared graph.entry.index.hops.now queue.now (map G.raised flags.old) (map G.raised flags.new) }
{
    let mut lost = 0;
    for &i in queue {
        flags[usize::from(i)] = G::of(false);
        let closes = closes_again(graph, dirty, usize::from(i));
        if !closes {
            fallen[lost] = i;
            lost += 1;
        }
    }
    lost
}

// The same of the hops on the worklist, which is empty afterwards.
pub fn test_worklist(
    graph: Marked<'_>,
    dirty: &[bool; MOST_STATES],
    worklist: &mut Worklist<'_>,
    fallen: &mut [u16; MOST_HOPS],
) -> usize
    requires most { worklist.old.len ≤ most_hops }
    requires capacity { worklist.old.len ≤ length worklist.old.places.now }
    requires places { PlacesBelow graph.index.hops.now (queued worklist.old) }
    requires clean { SkipsClean graph.index.hops.now graph.marks.now dirty.now (queued worklist.old) }
    requires flags { count graph.index.hops.now ≤ length worklist.old.flags.now }
    ensures tested { Tested graph.entry.index.hops.now graph.entry.marks.now (queued worklist.old) (take result fallen.new) }
    ensures within { result ≤ worklist.old.len }
    ensures cleared { Cleared graph.entry.index.hops.now (queued worklist.old) worklist.old.flags.now worklist.new.flags.now }
    ensures emptied { Emptied worklist.old worklist.new }
{
    let queue = &worklist.places[..worklist.len];
    let lost = test_again(graph, dirty, queue, worklist.flags, fallen);
    worklist.len = 0;
    lost
}

// Takes the marks of the fallen hops.
pub fn unmark_fallen(marks: &mut [u8], fallen: &[u16])
    requires { All (λ p. p < length marks.old) fallen.now }
    ensures { Unmarked marks.old fallen.now marks.new }
{
    for &p in fallen {
        marks[usize::from(p)] = 0;
    }
}
