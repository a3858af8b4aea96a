// One iteration of the repeated reduction: the graph is marked in the sense asked and, if a hop is
// marked, it is reduced and the maps are composed.
// The short hops replace the hops in place. After a reduction under R8 nothing is marked, so none
// follows. It serves `shrink`, which repeats it until nothing is marked.
// Uses `graph_index` for the graph with its table of first places, `reduce_entry` for the marking,
// `reduce_by_marks` for the reduction and `shrink_compose` for the map.
#![tactic(auto)]

ghost use Rattle.std.specs.Prelude.{◌≡◌, cond, not, ◌&&◌, ◌<◌, ◌≤◌, length, eqb};
ghost use Rattle.base_bounded.specs.Quantifiers.{any};
ghost use Rattle.base_outputs.specs.Output.{on_front};
ghost use Rattle.graph.specs.Hops.{count, between};
ghost use Rattle.graph.specs.Answers.{most_states};
ghost use Rattle.mark_confluence.specs.Internal.MarkSet.{is_marked};
ghost use Rattle.mark_confluence.specs.Marks.{marks_of};
ghost use Rattle.mark_senses.specs.Senses.{marked_by};
ghost use Rattle.mark_senses.specs.Internal.Numbers.{sense_number};
ghost use Rattle.reduce_representatives.specs.Reducible.{Reducible};
ghost use Rattle.shrink_compose.specs.Internal.Composed.{Into};
ghost use Rattle.shrink_iterate.specs.Iterate.{some_marked, marks_some, next_stage};
ghost use Rattle.shrink_step.specs.Internal.Progress.{stage_of};

use base_outputs::put_front;
use graph::hops::{hop_count, part};
use graph::{MOST_HOPS, MOST_NUMBERS, MOST_STATES, Shape};
use graph_index::{Index, Indexed};
use graph_successors::{STARTS, put_starts};
use mark_senses::Sense;
use reduce_by_marks::reduce_marked;
use reduce_entry::entry::mark_by_sense;
use shrink_compose::put_composed;
use walk_rings::Ringless;

// How far the repetition has come, besides the hops and the map; and whether there may be more to
// do.
// `more` stands among what the one loop carries, since it is the condition of that loop.
#[derive(Clone, Copy)]
pub struct Progress {
    pub shape: Shape,
    pub hops: usize,
    pub reductions: usize,
    pub more: bool,
}

// Whether one of the marks stands.
fn is_any(marks: &[u8]) -> bool
    ensures { result ≡ any (length marks.now) (is_marked marks.now) }
{
    marks.iter().any(|m| *m == 1)
}

// Marks a graph that every row lets pass, and returns whether some hop is marked.
fn mark_stage(shape: Shape, hops: &[u16], sense: Sense, marks: &mut [u8]) -> bool
    requires reducible { Reducible shape hops.now }
    requires capacity { count hops.now ≤ length marks.old }
    ensures some { result ≡ some_marked (sense_number sense) shape hops.now }
    ensures marked { marks.new ≡
        on_front (marks_of hops.now (marked_by (sense_number sense) shape hops.now)) marks.old }
{
    let mut starts = [0u16; STARTS];
    put_starts(hops, &mut starts);
    let graph = Indexed {
        shape,
        index: Index {
            hops,
            starts: &starts,
        },
    };
    mark_by_sense(Ringless { graph }, sense, marks);
    is_any(&marks[..hop_count(hops)])
}

// One iteration, on the graph at the front of the hops. Where nothing is marked all stays as it
// was, and there is no more to do; nor is there after a reduction under R8, which leaves nothing
// that R8 marks (`shrink_iterate`: `next_still`).
pub fn step(at: Progress, hops: &mut [u16], sense: Sense, map: &mut [u16]) -> Progress
    requires reducible { Reducible at.shape (between hops.old 0 at.hops) }
    requires there { at.hops ≤ count hops.old }
    requires few { length map.old ≤ most_states }
    requires into { Into map.old at.shape.states }
    requires counted { at.reductions < most_states }
    ensures more { result.more ≡ (marks_some (sense_number sense) (stage_of at hops.old map.old) && not (eqb (sense_number sense) 8)) }
    ensures stepped { stage_of result hops.new map.new ≡
        cond (marks_some (sense_number sense) (stage_of at hops.old map.old))
        (next_stage (sense_number sense) (stage_of at hops.old map.old))
        (stage_of at hops.old map.old) }
    ensures there { result.hops ≤ count hops.new }
{
    let seen = part(hops, 0, at.hops);
    let mut marks = [0u8; MOST_HOPS];
    if !mark_stage(at.shape, seen, sense, &mut marks) {
        return Progress { more: false, ..at };
    }
    let mut next = [0u16; MOST_STATES];
    let mut short = [0u16; MOST_NUMBERS];
    let made = reduce_marked(at.shape, seen, &marks, &mut next, &mut short);
    put_composed(map, &next[..at.shape.states as usize]);
    put_front(hops, part(&short, 0, made.hops));
    Progress {
        shape: made.shape,
        hops: made.hops,
        reductions: at.reductions + 1,
        more: sense != Sense::R8,
    }
}
