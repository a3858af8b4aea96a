// The entry `reduce`: the map and the short graph of a graph without rings, in the sense asked, or
// the row that refuses it.
ghost use Rattle.std.specs.Prelude.{◌≡◌, ◌≤◌, length, IfOk};
ghost use Rattle.base_outputs.specs.Output.{on_front};
ghost use Rattle.graph.specs.Hops.{count, flat};
ghost use Rattle.graph.specs.Answers.{answer_of};
ghost use Rattle.mark_confluence.specs.Marks.{marks_of};
ghost use Rattle.mark_senses.specs.Senses.{marked_by};
ghost use Rattle.mark_senses.specs.Internal.Numbers.{sense_number};
ghost use Rattle.reduce_by_marks.specs.Internal.ByMarks.{short_graph};
ghost use Rattle.reduce_entry.specs.Reduce.{reduction_of, reduce_answer, reduce_of, map_output, short_output, reduced_map, reduced_hops};
ghost use Rattle.reduce_entry.specs.Internal.Refusal.{later_answer};

use graph::{MOST_HOPS, Refusal, Shape};
use graph_check::check;
use graph_index::{Index, Indexed};
use graph_successors::{STARTS, put_starts};
use mark_batch_sweeps::mark_by_sweeps;
use mark_senses::Sense;
use mark_worklist_loop::mark_rounds;
use reduce_by_marks::{ShortGraph, reduce_marked};
use walk_rings::{Ringless, check_rings};

// Rows 19, 5 and 6 of an admitted graph; if none refuses, the sense with the number.
fn check_later(
    graph: Indexed<'_>,
    sense: u32,
    entries: usize,
    numbers: usize,
) -> Result<Sense, Refusal>
    ensures answers { answer_of result ≡ later_answer graph.entry.shape graph.entry.index.hops.now sense entries numbers }
    ensures sense { IfOk result (λ s. sense_number s ≡ sense) }
{
    let sense = Sense::try_from(sense)?;
    check_rings(graph)?;
    if (entries < graph.shape.states as usize) | (numbers < graph.index.hops.len()) {
        return Err(Refusal::OutputTooShort);
    }
    Ok(sense)
}

// The checks alone: rows 1 to 4, then 19, 5 and 6; if none refuses, the sense with the number.
pub fn check_reduce(
    shape: Shape,
    hops: &[u16],
    sense: u32,
    entries: usize,
    numbers: usize,
) -> Result<Sense, Refusal>
    ensures answers { answer_of result ≡ reduce_answer shape hops.now sense entries numbers }
    ensures sense { IfOk result (λ s. sense_number s ≡ sense) }
{
    check(shape, hops)?;
    let mut starts = [0u16; STARTS];
    put_starts(hops, &mut starts);
    let graph = Indexed {
        shape,
        index: Index {
            hops,
            starts: &starts,
        },
    };
    check_later(graph, sense, entries, numbers)
}

// Marks in the sense: R1 by rounds with a worklist, any other by sweeps.
// It serves `reduce` and the repeated reduction. `mark` has a choice of its own: with one function
// for all, R1 would take as much stack as the other senses.
pub fn mark_by_sense(ringless: Ringless<'_>, sense: Sense, marks: &mut [u8])
    requires { count ringless.graph.index.hops.now ≤ length marks.old }
    ensures { marks.new ≡
        on_front
        (marks_of ringless.entry.graph.index.hops.now
        (marked_by (sense_number sense) ringless.entry.graph.shape ringless.entry.graph.index.hops.now))
        marks.old }
{
    match sense {
        Sense::R1 => {
            mark_rounds(ringless.graph.index, marks);
        }
        Sense::R2 | Sense::R3 | Sense::R8 => mark_by_sweeps(ringless, sense, marks),
    }
}

// The same of the sense with the given number. Any number may be asked: what is no sense's number
// has the marks of R8, as `sense_of` says.
pub fn mark_in(ringless: Ringless<'_>, sense: u32, marks: &mut [u8])
    requires { count ringless.graph.index.hops.now ≤ length marks.old }
    ensures { marks.new ≡
        on_front
        (marks_of ringless.entry.graph.index.hops.now
        (marked_by sense ringless.entry.graph.shape ringless.entry.graph.index.hops.now))
        marks.old }
{
    mark_by_sense(ringless, Sense::of_number(sense), marks);
}

// The reduction of a graph that every row lets pass: it is marked in the sense, and reduced along
// the marks.
fn accepted_reduction(
    ringless: Ringless<'_>,
    sense: Sense,
    map: &mut [u16],
    short: &mut [u16],
) -> ShortGraph
    requires map_capacity { ringless.graph.shape.states ≤ length map.old }
    requires short_capacity { length ringless.graph.index.hops.now ≤ length short.old }
    ensures returned { result ≡
        short_graph ringless.entry.graph.shape ringless.entry.graph.index.hops.now
        (marked_by (sense_number sense) ringless.entry.graph.shape ringless.entry.graph.index.hops.now) }
    ensures mapped { map.new ≡
        on_front (reduced_map ringless.entry.graph.shape ringless.entry.graph.index.hops.now (sense_number sense)) map.old }
    ensures shortened { short.new ≡
        on_front (flat (reduced_hops ringless.entry.graph.shape ringless.entry.graph.index.hops.now (sense_number sense))) short.old }
{
    let mut marks = [0u8; MOST_HOPS];
    mark_by_sense(ringless, sense, &mut marks);
    let graph = ringless.graph;
    reduce_marked(graph.shape, graph.index.hops, &marks, map, short)
}

// The entry. A refusal writes nothing; acceptance writes the map and the short hops, and nothing
// past them. The table of first places is made once, for row 5 and for marking.
// The sense is a number: any may be asked for, and row 19 refuses one that no sense has.
pub fn reduce(
    shape: Shape,
    hops: &[u16],
    sense: u32,
    map: &mut [u16],
    short: &mut [u16],
) -> Result<ShortGraph, Refusal>
    ensures returned { reduction_of result ≡ reduce_of shape hops.now sense (length map.old) (length short.old) }
    ensures mapped { map.new ≡ map_output shape hops.now sense map.old short.old }
    ensures shortened { short.new ≡ short_output shape hops.now sense map.old short.old }
{
    check(shape, hops)?;
    let mut starts = [0u16; STARTS];
    put_starts(hops, &mut starts);
    let graph = Indexed {
        shape,
        index: Index {
            hops,
            starts: &starts,
        },
    };
    let sense = check_later(graph, sense, map.len(), short.len())?;
    let ringless = Ringless { graph };
    Ok(accepted_reduction(ringless, sense, map, short))
}
