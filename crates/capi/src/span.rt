// Hops of a state, by start and length.
ghost use Rattle.std.specs.Prelude.{◌≡◌, length};
ghost use Rattle.graph.specs.Answers.{accepted};
ghost use Rattle.graph_hops_of.specs.HopsOf.{chosen, span_of};
ghost use Rattle.c_answer.specs.Numbers.{shape_of, returned, answer_after};
ghost use Rattle.c_hops_of.specs.Numbers.{span_numbers};

use c_hops_of::hops_of_into;

#[unsafe(no_mangle)]
pub extern "C" fn zf_hops_of(
    side: u32,
    state: u32,
    states1: u32,
    labels1: u32,
    initial1: u32,
    hops1: &[u16],
    states2: u32,
    labels2: u32,
    initial2: u32,
    hops2: &[u16],
    answer: &mut [u64],
) -> u32
    ensures returns { result ≡ returned accepted 2 (length answer.old) }
    ensures figures { answer.new ≡
        answer_after 2
        (span_numbers
        (span_of
        (chosen side state (shape_of states1 labels1 initial1) hops1.now (shape_of states2 labels2 initial2) hops2.now)
        state
        hops1.now
        hops2.now))
        answer.old }
{
    hops_of_into(
        side, state, states1, labels1, initial1, hops1, states2, labels2, initial2, hops2, answer,
    )
}
