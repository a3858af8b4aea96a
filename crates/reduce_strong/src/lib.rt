// The reduction by strong confluence (sense R1): the marks, the map and the short graph (quotient)
// of an admitted graph without rings (silent cycles).
// It is `reduce` in sense 1 without its checks, and it leaves the marks as well. It stands apart
// from `reduce_entry`, since the program, which calls it, needs nothing of the other senses.
// Uses `walk_rings` for the graph with its table of first places, `mark_worklist_loop` for the
// marks and `reduce_by_marks` for the map and the short graph.
#![tactic(auto)]

ghost use Rattle.std.specs.Prelude.{◌≡◌, ◌≤◌, length};
ghost use Rattle.base_outputs.specs.Output.{on_front};
ghost use Rattle.graph.specs.Hops.{count, flat};
ghost use Rattle.mark_confluence.specs.Rounds.{marked};
ghost use Rattle.mark_confluence.specs.Marks.{marks_of};
ghost use Rattle.reduce_short_graph.specs.Short.{map_list, short_hops};
ghost use Rattle.reduce_by_marks.specs.Internal.ByMarks.{short_graph};

use mark_worklist_loop::mark_rounds;
use reduce_by_marks::{ShortGraph, reduce_marked};
use walk_rings::Ringless;

// Marks by rounds, and reduces along the marks. All three stand at the outputs' fronts; returns
// what the short graph has besides.
pub fn reduce_strong(
    ringless: Ringless<'_>,
    marks: &mut [u8],
    map: &mut [u16],
    short: &mut [u16],
) -> ShortGraph
    requires marks_capacity { count ringless.graph.index.hops.now ≤ length marks.old }
    requires map_capacity { ringless.graph.shape.states ≤ length map.old }
    requires short_capacity { length ringless.graph.index.hops.now ≤ length short.old }
    ensures returned { result ≡
        short_graph ringless.entry.graph.shape ringless.entry.graph.index.hops.now (marked ringless.entry.graph.index.hops.now) }
    ensures marked { marks.new ≡
        on_front (marks_of ringless.entry.graph.index.hops.now (marked ringless.entry.graph.index.hops.now)) marks.old }
    ensures mapped { map.new ≡
        on_front
        (map_list ringless.entry.graph.shape ringless.entry.graph.index.hops.now (marked ringless.entry.graph.index.hops.now))
        map.old }
    ensures shortened { short.new ≡
        on_front
        (flat (short_hops ringless.entry.graph.shape ringless.entry.graph.index.hops.now (marked ringless.entry.graph.index.hops.now)))
        short.old }
{
    let graph = ringless.graph;
    mark_rounds(graph.index, marks);
    reduce_marked(graph.shape, graph.index.hops, marks, map, short)
}
