// Check, both markings and the round question.
ghost use Rattle.std.specs.Prelude.{◌≡◌, [], length};
ghost use Rattle.graph_check.specs.Check.{check_of};
ghost use Rattle.mark_entry.specs.Mark.{mark_answer, mark_output};
ghost use Rattle.mark_entry_round.specs.Question.{question_answer, question_of};
ghost use Rattle.c_answer.specs.Numbers.{shape_of, numbers_of, returned, answer_after, unless_short};
ghost use Rattle.mark_entry_fast.specs.Fast.{mark_fast_of};
ghost use Rattle.c_mark.specs.Numbers.{round_numbers, counted_numbers};

use c_mark::{check_into, mark_fast_into, mark_into, round_into};

#[unsafe(no_mangle)]
pub extern "C" fn zf_check(
    states: u32,
    labels: u32,
    initial: u32,
    hops: &[u16],
    answer: &mut [u64],
) -> u32
    ensures returns { result ≡ returned (check_of (shape_of states labels initial) hops.now) 3 (length answer.old) }
    ensures figures { answer.new ≡
        answer_after 3 (numbers_of (check_of (shape_of states labels initial) hops.now) []) answer.old }
{
    check_into(states, labels, initial, hops, answer)
}

#[unsafe(no_mangle)]
pub extern "C" fn zf_mark(
    states: u32,
    labels: u32,
    initial: u32,
    hops: &[u16],
    sense: u32,
    marks: &mut [u8],
    answer: &mut [u64],
) -> u32
    ensures returns { result ≡
        returned (mark_answer (shape_of states labels initial) hops.now sense marks.old) 3 (length answer.old) }
    ensures marks { marks.new ≡
        unless_short 3
        answer.old
        (mark_output (shape_of states labels initial) hops.now sense marks.old)
        marks.old }
    ensures figures { answer.new ≡
        answer_after 3 (numbers_of (mark_answer (shape_of states labels initial) hops.now sense marks.old) []) answer.old }
{
    mark_into(states, labels, initial, hops, sense, marks, answer)
}

#[unsafe(no_mangle)]
pub extern "C" fn zf_mark_fast(
    states: u32,
    labels: u32,
    initial: u32,
    hops: &[u16],
    marks: &mut [u8],
    answer: &mut [u64],
) -> u32
    ensures returns { result ≡
        returned (mark_answer (shape_of states labels initial) hops.now 1 marks.old) 4 (length answer.old) }
    ensures marks { marks.new ≡
        unless_short 4
        answer.old
        (mark_output (shape_of states labels initial) hops.now 1 marks.old)
        marks.old }
    ensures figures { answer.new ≡
        answer_after 4 (counted_numbers (mark_fast_of (shape_of states labels initial) hops.now marks.old)) answer.old }
{
    mark_fast_into(states, labels, initial, hops, marks, answer)
}

#[unsafe(no_mangle)]
pub extern "C" fn zf_round(
    states: u32,
    labels: u32,
    initial: u32,
    hops: &[u16],
    place: u64,
    rounds: u32,
    answer: &mut [u64],
) -> u32
    ensures returns { result ≡
        returned (question_answer (shape_of states labels initial) hops.now place rounds) 4 (length answer.old) }
    ensures figures { answer.new ≡
        answer_after 4 (round_numbers (question_of (shape_of states labels initial) hops.now place rounds)) answer.old }
{
    round_into(states, labels, initial, hops, place, rounds, answer)
}
