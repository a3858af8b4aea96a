// `shrink` for the C ABI: which figures it writes into the answer slice, and which number it
// returns.
// `capi` exports the function unchanged. Where the answer slice is too short only the answer is
// computed, and the map and the last hops are left as they were.
// Uses `shrink_entry` for `shrink`, `reduce_entry` for its answer alone, and `c_answer` for what is
// written and returned.
#![tactic(auto)]

ghost use Rattle.std.specs.Prelude.{◌≡◌, length};
ghost use Rattle.reduce_entry.specs.Reduce.{reduce_answer};
ghost use Rattle.shrink_entry.specs.Shrink.{shrink_of, shrink_map_output, shrink_hops_output};
ghost use Rattle.c_answer.specs.Numbers.{shape_of, returned, answer_after, unless_short};
ghost use Rattle.c_shrink.specs.Numbers.{shrinking_numbers};

use c_answer::{put_answer, short_number};
use graph::Shape;
use graph::answers::answer_of;
use reduce_entry::entry::check_reduce;
use shrink_entry::{Shrinking, shrink};

// An answer, the last graph's counts and initial state, and the number of reductions.
fn put_shrinking(out: &mut [u64], shrinking: Shrinking) -> u32
    ensures returns { result ≡ returned shrinking.answer 8 (length out.old) }
    ensures figures { out.new ≡ answer_after 8 (shrinking_numbers shrinking) out.old }
{
    let shape = shrinking.shape;
    let figures = [
        u64::from(shape.states),
        u64::from(shape.labels),
        shrinking.hops as u64,
        u64::from(shape.initial),
        shrinking.reductions as u64,
    ];
    put_answer(out, shrinking.answer, &figures)
}

// Where the answer slice is too short, only the answer is found, and nothing is reduced.
#[tactic(auto, using(c_answer::proofs::AnswerAfter::outputs, crate::proofs::Results::shrunk_answer))]
pub fn shrink_into(
    states: u32,
    labels: u32,
    initial: u32,
    hops: &[u16],
    sense: u32,
    map: &mut [u16],
    short: &mut [u16],
    answer: &mut [u64],
) -> u32
    ensures returns { result ≡
        returned
        (reduce_answer (shape_of states labels initial) hops.now sense (length map.old) (length short.old))
        8
        (length answer.old) }
    ensures mapped { map.new ≡
        unless_short 8
        answer.old
        (shrink_map_output (shape_of states labels initial) hops.now sense map.old short.old)
        map.old }
    ensures shortened { short.new ≡
        unless_short 8
        answer.old
        (shrink_hops_output (shape_of states labels initial) hops.now sense map.old short.old)
        short.old }
    ensures figures { answer.new ≡
        answer_after 8
        (shrinking_numbers (shrink_of (shape_of states labels initial) hops.now sense (length map.old) (length short.old)))
        answer.old }
{
    let shape = Shape {
        states,
        labels,
        initial,
    };
    if answer.len() < 8 {
        let checked = check_reduce(shape, hops, sense, map.len(), short.len());
        return short_number(answer_of(&checked), answer.len(), 8);
    }
    let outcome = shrink(shape, hops, sense, map, short);
    put_shrinking(answer, Shrinking::from(outcome))
}
