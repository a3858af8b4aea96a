// The entry `shrink`: reduction repeated in the sense asked until no hop is marked, with the last
// graph, the map from first states to last, and the number of reductions.
// It refuses as `reduce` does, and checks once: every short graph passes the checks.
// Uses `reduce_entry` for the checks, `shrink_step` for one reduction and its map, `shrink_iterate`
// for what it all means.
#![tactic(auto)]

ghost use Rattle.std.specs.Prelude.{◌≡◌, ◌≤◌, length};
ghost use Rattle.base_outputs.specs.Output.{on_front};
ghost use Rattle.graph.specs.Hops.{count, between};
ghost use Rattle.mark_senses.specs.Internal.Numbers.{sense_number};
ghost use Rattle.reduce_representatives.specs.Reducible.{Reducible};
ghost use Rattle.shrink_iterate.specs.Iterate.{last_stage};
ghost use Rattle.shrink_step.specs.Internal.Progress.{stage_of};
ghost use Rattle.shrink_entry.specs.Shrink.{shrinking_of, shrink_of, shrink_map_output, shrink_hops_output};
ghost use Rattle.shrink_entry.specs.Internal.Last.{last_graph};

use base_outputs::put_front;
use graph::answers::answer_of;
use graph::hops::{hop_count, part};
use graph::{Answer, MOST_NUMBERS, Refusal, Shape};
use mark_senses::Sense;
use reduce_entry::NO_SHAPE;
use reduce_entry::entry::check_reduce;
use shrink_compose::put_identity;
use shrink_step::{Progress, step};

// The last graph besides its hops, how many these are, and the number of reductions that marked
// something.
#[derive(Clone, Copy)]
pub struct LastGraph {
    pub shape: Shape,
    pub hops: usize,
    pub reductions: usize,
}

// The figures of an answer: why the graph is refused, or that it is not; the last graph's counts
// and initial state, and the number of reductions that marked something (all 0 with a refusal).
#[derive(Clone, Copy)]
pub struct Shrinking {
    pub answer: Answer,
    pub shape: Shape,
    pub hops: usize,
    pub reductions: usize,
}

impl From<Result<LastGraph, Refusal>> for Shrinking {
    ghost from_gives = { λ r x. x ≡ shrinking_of r };

    fn from(outcome: Result<LastGraph, Refusal>) -> Shrinking {
        let (shape, hops, reductions) = match outcome {
            Ok(last) => (last.shape, last.hops, last.reductions),
            Err(_) => (NO_SHAPE, 0, 0),
        };
        Shrinking {
            answer: answer_of(&outcome),
            shape,
            hops,
            reductions,
        }
    }
}

// Iterates until nothing is marked, from a graph at the front of the hops; the map is made anew.
fn repeat(shape: Shape, hops: &mut [u16], n: usize, sense: Sense, map: &mut [u16]) -> Progress
    requires reducible { Reducible shape (between hops.old 0 n) }
    requires there { n ≤ count hops.old }
    requires sized { length map.old ≡ shape.states }
    ensures last { stage_of result hops.new map.new ≡ last_stage (sense_number sense) shape (between hops.old 0 n) }
    ensures there { result.hops ≤ count hops.new }
{
    put_identity(map);
    let mut at = Progress {
        shape,
        hops: n,
        reductions: 0,
        more: true,
    };
    // `while`: how many reductions it takes depends on what each leaves.
    while at.more {
        at = step(at, hops, sense, map);
    }
    at
}

// The last graph of a graph that every row lets pass. The hops of the stages on the way stand in a
// list local to the call, so that the output past the last hops stays as it was.
fn accepted_shrinking(
    shape: Shape,
    hops: &[u16],
    sense: Sense,
    map: &mut [u16],
    short: &mut [u16],
) -> LastGraph
    requires reducible { Reducible shape hops.now }
    requires map_capacity { shape.states ≤ length map.old }
    requires short_capacity { length hops.now ≤ length short.old }
    ensures returned { result ≡ last_graph (last_stage (sense_number sense) shape hops.now) }
    ensures mapped { map.new ≡ on_front (last_stage (sense_number sense) shape hops.now).map map.old }
    ensures shortened { short.new ≡ on_front (last_stage (sense_number sense) shape hops.now).hops short.old }
{
    let states = shape.states as usize;
    let n = hop_count(hops);
    let mut last = [0u16; MOST_NUMBERS];
    put_front(&mut last, hops);
    let reached = repeat(shape, &mut last, n, sense, &mut map[..states]);
    let m = reached.hops;
    put_front(short, part(&last, 0, m));
    LastGraph {
        shape: reached.shape,
        hops: m,
        reductions: reached.reductions,
    }
}

// The entry. A refusal writes nothing; acceptance writes the map and the last hops, and nothing
// past them.
// The sense is a number: any may be asked for, and row 19 refuses one that no sense has.
#[tactic(auto, using(crate::proofs::Accepted::goes_on))]
pub fn shrink(
    shape: Shape,
    hops: &[u16],
    sense: u32,
    map: &mut [u16],
    short: &mut [u16],
) -> Result<LastGraph, Refusal>
    ensures returned { shrinking_of result ≡ shrink_of shape hops.now sense (length map.old) (length short.old) }
    ensures mapped { map.new ≡ shrink_map_output shape hops.now sense map.old short.old }
    ensures shortened { short.new ≡ shrink_hops_output shape hops.now sense map.old short.old }
{
    let sense = check_reduce(shape, hops, sense, map.len(), short.len())?;
    Ok(accepted_shrinking(shape, hops, sense, map, short))
}
