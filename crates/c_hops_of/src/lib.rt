// The outgoing hops (transitions) of a state for the C ABI: start and length of a part of the hop
// list that the caller has.
// `capi` exports the function unchanged.
// Uses `graph_hops_of` for where the part stands, `c_answer` for what is written and returned, and
// `base_outputs` to write it.
#![tactic(auto)]

ghost use Rattle.std.specs.Prelude.{◌≡◌, length};
ghost use Rattle.graph.specs.Answers.{accepted};
ghost use Rattle.graph_hops_of.specs.HopsOf.{chosen, span_of};
ghost use Rattle.c_answer.specs.Numbers.{shape_of, returned, answer_after};
ghost use Rattle.c_hops_of.specs.Numbers.{span_numbers};

use base_outputs::put_front;
use graph::Shape;
use graph_hops_of::span_of;

#[tactic(auto, using(c_answer::proofs::Answers::returns_number, c_answer::proofs::AnswerAfter::outputs))]
pub fn hops_of_into(
    side: u32,
    state: u32,
    states1: u32,
    labels1: u32,
    initial1: u32,
    hops1: &[u16],
    states2: u32,
    labels2: u32,
    initial2: u32,
    hops2: &[u16],
    answer: &mut [u64],
) -> u32
    ensures returns { result ≡ returned accepted 2 (length answer.old) }
    ensures figures { answer.new ≡
        answer_after 2
        (span_numbers
        (span_of
        (chosen side state (shape_of states1 labels1 initial1) hops1.now (shape_of states2 labels2 initial2) hops2.now)
        state
        hops1.now
        hops2.now))
        answer.old }
{
    let shape1 = Shape {
        states: states1,
        labels: labels1,
        initial: initial1,
    };
    let shape2 = Shape {
        states: states2,
        labels: labels2,
        initial: initial2,
    };
    if answer.len() < 2 {
        return 6;
    }
    let span = span_of(side, state, shape1, hops1, shape2, hops2);
    let figures = [span.start as u64, span.length as u64];
    put_front(answer, &figures);
    0
}
