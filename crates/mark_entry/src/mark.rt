// The entry `mark`: the marks of a graph without rings in the sense asked, or the row that refuses
// it.
ghost use Rattle.std.specs.Prelude.{◌≡◌, ◌≤◌, length};
ghost use Rattle.base_outputs.specs.Output.{on_front};
ghost use Rattle.graph.specs.Hops.{count};
ghost use Rattle.graph.specs.Answers.{and_then, answer_of, capacity_answer};
ghost use Rattle.walk_silent.specs.Silent.{ring_answer};
ghost use Rattle.mark_confluence.specs.Marks.{marks_of};
ghost use Rattle.mark_senses.specs.Senses.{marked_by};
ghost use Rattle.mark_senses.specs.Internal.Numbers.{sense_number};
ghost use Rattle.mark_entry.specs.Mark.{mark_answer, mark_output};

use graph::hops::hop_count;
use graph::{Refusal, Shape};
use graph_check::check;
use graph_index::{Index, Indexed};
use graph_successors::{STARTS, put_starts};
use mark_batch_sweeps::mark_by_sweeps;
use mark_senses::Sense;
use mark_worklist_loop::mark_rounds;
use walk_rings::{Ringless, check_rings};

// Rows 5 and 6 of an admitted graph.
pub fn check_later(graph: Indexed<'_>, capacity: usize) -> Result<(), Refusal>
    ensures { answer_of result ≡
        and_then (ring_answer graph.entry.shape graph.entry.index.hops.now) (capacity_answer (count graph.entry.index.hops.now) capacity) }
{
    check_rings(graph)?;
    if capacity < hop_count(graph.index.hops) {
        return Err(Refusal::OutputTooShort);
    }
    Ok(())
}

// The answer alone: rows 1 to 4, then 19, then 5, then 6.
pub fn check_mark(shape: Shape, hops: &[u16], sense: u32, marks: &[u8]) -> Result<(), Refusal>
    ensures { answer_of result ≡ mark_answer shape hops.now sense marks.now }
{
    check(shape, hops)?;
    Sense::try_from(sense)?;
    let mut starts = [0u16; STARTS];
    put_starts(hops, &mut starts);
    let graph = Indexed {
        shape,
        index: Index {
            hops,
            starts: &starts,
        },
    };
    check_later(graph, marks.len())
}

// Marks in the sense: R1 by the worklist, any other by sweeps over batches. `reduce` makes this
// choice in a function of its own: in a common one both would share a frame, and R1 would take the
// stack of the others.
fn mark_in(ringless: Ringless<'_>, sense: Sense, marks: &mut [u8])
    requires { count ringless.graph.index.hops.now ≤ length marks.old }
    ensures { marks.new ≡
        on_front
        (marks_of ringless.entry.graph.index.hops.now
        (marked_by (sense_number sense) ringless.entry.graph.shape ringless.entry.graph.index.hops.now))
        marks.old }
{
    match sense {
        Sense::R1 => {
            mark_rounds(ringless.graph.index, marks);
        }
        Sense::R2 | Sense::R3 | Sense::R8 => mark_by_sweeps(ringless, sense, marks),
    }
}

// The entry. A refusal writes nothing; acceptance writes one mark a hop and nothing past them. The
// table of first places is made once, for row 5 and for marking.
// The sense is a number: any may be asked for, and row 19 refuses one that no sense has.
pub fn mark(shape: Shape, hops: &[u16], sense: u32, marks: &mut [u8]) -> Result<(), Refusal>
    ensures answers { answer_of result ≡ mark_answer shape hops.now sense marks.old }
    ensures writes { marks.new ≡ mark_output shape hops.now sense marks.old }
{
    check(shape, hops)?;
    let sense = Sense::try_from(sense)?;
    let mut starts = [0u16; STARTS];
    put_starts(hops, &mut starts);
    let graph = Indexed {
        shape,
        index: Index {
            hops,
            starts: &starts,
        },
    };
    check_later(graph, marks.len())?;
    let ringless = Ringless { graph };
    mark_in(ringless, sense, marks);
    Ok(())
}
