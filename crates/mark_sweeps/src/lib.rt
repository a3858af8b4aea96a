// The marked set of strong confluence (R1) by sweeps in place, for a checked graph: a marked silent
// (tau) hop that fails the condition loses its mark at once, until a sweep takes none.
// Marks start at 1 for every silent hop; a sweep visits the places in list order. The marks contain
// the marked set throughout, and at the fixpoint they are a confluent set. The entries mark sense 1
// with `mark_worklist_loop`, which leaves the same marks (`mark_entry_fast: sweeps_same_marks`);
// this is the plain algorithm, with a proof that needs no rounds.
// Uses `mark_confluence` for the marked set and its theorems, `mark_removal` for what marks keep
// under removal, for any condition, `graph_successors` for the table of first places, `graph_index`
// for a hop list with it, and `mark_diamond` for the test of a hop.
#![tactic(auto)]

ghost use Rattle.std.specs.Prelude.{◌≡◌, ◌<◌, ◌≤◌, length};
ghost use Rattle.base_outputs.specs.Output.{on_front};
ghost use Rattle.graph.specs.Hops.{count};
ghost use Rattle.mark_confluence.specs.Rounds.{marked};
ghost use Rattle.mark_confluence.specs.Marks.{marks_of};
ghost use Rattle.mark_removal.specs.Internal.Removal.{Marking, Swept};
ghost use Rattle.mark_sweeps.specs.Internal.Sweep.{ClosesIfMarked, ClosesUpTo};
ghost use Rattle.graph_successors.specs.Internal.SuccessorIndex.{Indexable};

use graph::hops::hop_count;
use graph_index::{Index, Marked};
use graph_successors::{STARTS, put_starts};
use mark_confluence::start_marks;
use mark_diamond::closes_at;

// Takes the mark of the hop at place i if it does not close; returns how many marks went.
// That is 0 or 1, and no `bool`: a sweep adds it up, and its contract counts.
fn test_at(index: Index<'_>, marks: &mut [u8], i: usize) -> usize
    requires marking { Marking index.hops.now (marked index.hops.now) marks.old }
    requires place { i < count index.hops.now }
    ensures { Swept index.entry.hops.now (marked index.entry.hops.now) (ClosesIfMarked index.entry.hops.now i)
        marks.old marks.new result }
{
    if marks[i] == 0 || closes_at(Marked { index, marks }, i) {
        return 0;
    }
    marks[i] = 0;
    1
}

// One sweep; returns how many marks went.
fn sweep(index: Index<'_>, marks: &mut [u8]) -> usize
    requires { Marking index.hops.now (marked index.hops.now) marks.old }
    ensures { Swept index.entry.hops.now (marked index.entry.hops.now) (ClosesUpTo index.entry.hops.now (count index.entry.hops.now))
        marks.old marks.new result }
{
    let mut lost = 0;
    for i in 0..hop_count(index.hops) {
        lost += test_at(index, marks, i);
    }
    lost
}

// Sweeps until one takes no mark.
fn sweep_to_fixpoint(index: Index<'_>, marks: &mut [u8])
    requires { Marking index.hops.now (marked index.hops.now) marks.old }
    ensures { marks.new ≡ on_front (marks_of index.entry.hops.now (marked index.entry.hops.now)) marks.old }
{
    // `while`: how many sweeps it takes depends on the marks.
    while sweep(index, marks) > 0 {}
}

// Marks by sweeps. No entry calls it: `mark` marks sense 1 by rounds, which leave the same marks.
pub fn mark_all(hops: &[u16], marks: &mut [u8])
    requires ready { Indexable hops.now }
    requires capacity { count hops.now ≤ length marks.old }
    ensures { marks.new ≡ on_front (marks_of hops.now (marked hops.now)) marks.old }
{
    let mut starts = [0u16; STARTS];
    put_starts(hops, &mut starts);
    start_marks(hops, marks);
    sweep_to_fixpoint(
        Index {
            hops,
            starts: &starts,
        },
        marks,
    );
}
