// `reduce` for the C ABI: which figures it writes into the answer slice, and which number it
// returns.
// `capi` exports the function unchanged. Where the answer slice is too short only the answer is
// computed, and the map and the short hops are left as they were.
// Uses `reduce_entry` for `reduce` and `c_answer` for what is written and returned.
#![tactic(auto)]

ghost use Rattle.std.specs.Prelude.{◌≡◌, length};
ghost use Rattle.reduce_entry.specs.Reduce.{reduce_answer, reduce_of, map_output, short_output};
ghost use Rattle.c_answer.specs.Numbers.{shape_of, returned, answer_after, unless_short};
ghost use Rattle.c_reduce.specs.Numbers.{reduction_numbers};

use c_answer::{put_answer, short_number};
use graph::Shape;
use graph::answers::answer_of;
use reduce_entry::Reduction;
use reduce_entry::entry::{check_reduce, reduce};

// An answer, and the short graph's counts and initial state.
fn put_reduction(out: &mut [u64], reduction: Reduction) -> u32
    ensures returns { result ≡ returned reduction.answer 7 (length out.old) }
    ensures figures { out.new ≡ answer_after 7 (reduction_numbers reduction) out.old }
{
    let shape = reduction.shape;
    let figures = [
        u64::from(shape.states),
        u64::from(shape.labels),
        reduction.hops as u64,
        u64::from(shape.initial),
    ];
    put_answer(out, reduction.answer, &figures)
}

// Where the answer slice is too short, only the answer is found, and nothing is reduced.
#[tactic(auto, using(c_answer::proofs::AnswerAfter::outputs, crate::proofs::Results::reduced_answer))]
pub fn reduce_into(
    states: u32,
    labels: u32,
    initial: u32,
    hops: &[u16],
    sense: u32,
    map: &mut [u16],
    short: &mut [u16],
    answer: &mut [u64],
) -> u32
    ensures returns { result ≡
        returned
        (reduce_answer (shape_of states labels initial) hops.now sense (length map.old) (length short.old))
        7
        (length answer.old) }
    ensures mapped { map.new ≡
        unless_short 7
        answer.old
        (map_output (shape_of states labels initial) hops.now sense map.old short.old)
        map.old }
    ensures shortened { short.new ≡
        unless_short 7
        answer.old
        (short_output (shape_of states labels initial) hops.now sense map.old short.old)
        short.old }
    ensures figures { answer.new ≡
        answer_after 7
        (reduction_numbers (reduce_of (shape_of states labels initial) hops.now sense (length map.old) (length short.old)))
        answer.old }
{
    let shape = Shape {
        states,
        labels,
        initial,
    };
    if answer.len() < 7 {
        let checked = check_reduce(shape, hops, sense, map.len(), short.len());
        return short_number(answer_of(&checked), answer.len(), 7);
    }
    let outcome = reduce(shape, hops, sense, map, short);
    put_reduction(answer, Reduction::from(outcome))
}
