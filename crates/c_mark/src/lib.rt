// `check`, both markings and the round question for the C ABI: which figures each entry writes into
// the answer slice, and which number it returns.
// `capi` exports these functions unchanged. Where the answer slice is too short a marking computes
// only the answer, and leaves the marks as they were.
// Uses `graph_check` for `check`, `mark_entry` for `mark`, `mark_entry_fast` for the faster
// marking, `mark_entry_round` for the round question, and `c_answer` for what is written and
// returned.
#![tactic(auto)]

ghost use Rattle.std.specs.Prelude.{◌≡◌, [], length};
ghost use Rattle.graph_check.specs.Check.{check_of};
ghost use Rattle.mark_entry.specs.Mark.{mark_answer, mark_output};
ghost use Rattle.mark_entry_round.specs.Question.{question_answer, question_of};
ghost use Rattle.c_answer.specs.Numbers.{shape_of, numbers_of, returned, answer_after, unless_short};
ghost use Rattle.mark_entry_fast.specs.Fast.{mark_fast_of};
ghost use Rattle.c_mark.specs.Numbers.{round_numbers, counted_numbers};

use c_answer::{put_figure_answer, put_plain_answer, short_number};
use graph::Shape;
use graph::answers::answer_of;
use graph_check::check;
use mark_entry::mark::{check_mark, mark};
use mark_entry_fast::{Counted, mark_fast};
use mark_entry_round::RoundAnswer;
use mark_entry_round::question::round_question;

pub fn check_into(states: u32, labels: u32, initial: u32, hops: &[u16], answer: &mut [u64]) -> u32
    ensures returns { result ≡ returned (check_of (shape_of states labels initial) hops.now) 3 (length answer.old) }
    ensures figures { answer.new ≡
        answer_after 3 (numbers_of (check_of (shape_of states labels initial) hops.now) []) answer.old }
{
    let shape = Shape {
        states,
        labels,
        initial,
    };
    let checked = check(shape, hops);
    put_plain_answer(answer, answer_of(&checked))
}

// Where the answer slice is too short, only the answer is found, and nothing is marked.
#[tactic(auto, using(c_answer::proofs::AnswerAfter::outputs))]
pub fn mark_into(
    states: u32,
    labels: u32,
    initial: u32,
    hops: &[u16],
    sense: u32,
    marks: &mut [u8],
    answer: &mut [u64],
) -> u32
    ensures returns { result ≡
        returned (mark_answer (shape_of states labels initial) hops.now sense marks.old) 3 (length answer.old) }
    ensures marks { marks.new ≡
        unless_short 3
        answer.old
        (mark_output (shape_of states labels initial) hops.now sense marks.old)
        marks.old }
    ensures figures { answer.new ≡
        answer_after 3 (numbers_of (mark_answer (shape_of states labels initial) hops.now sense marks.old) []) answer.old }
{
    let shape = Shape {
        states,
        labels,
        initial,
    };
    if answer.len() < 3 {
        let unwritten = check_mark(shape, hops, sense, marks);
        return short_number(answer_of(&unwritten), answer.len(), 3);
    }
    let marked = mark(shape, hops, sense, marks);
    put_plain_answer(answer, answer_of(&marked))
}

// The same in sense 1, with the number of tests.
#[tactic(auto, using(c_answer::proofs::AnswerAfter::outputs), unfolding(mark_entry_fast::specs::Fast::mark_fast_of))]
pub fn mark_fast_into(
    states: u32,
    labels: u32,
    initial: u32,
    hops: &[u16],
    marks: &mut [u8],
    answer: &mut [u64],
) -> u32
    ensures returns { result ≡
        returned (mark_answer (shape_of states labels initial) hops.now 1 marks.old) 4 (length answer.old) }
    ensures marks { marks.new ≡
        unless_short 4
        answer.old
        (mark_output (shape_of states labels initial) hops.now 1 marks.old)
        marks.old }
    ensures figures { answer.new ≡
        answer_after 4 (counted_numbers (mark_fast_of (shape_of states labels initial) hops.now marks.old)) answer.old }
{
    let shape = Shape {
        states,
        labels,
        initial,
    };
    if answer.len() < 4 {
        let unwritten = check_mark(shape, hops, 1, marks);
        return short_number(answer_of(&unwritten), answer.len(), 4);
    }
    let counted = Counted::from(mark_fast(shape, hops, marks));
    put_figure_answer(answer, counted.answer, counted.tests as u64)
}

#[tactic(auto, unfolding(mark_entry_round::specs::Question::question_of))]
pub fn round_into(
    states: u32,
    labels: u32,
    initial: u32,
    hops: &[u16],
    place: u64,
    rounds: u32,
    answer: &mut [u64],
) -> u32
    ensures returns { result ≡
        returned (question_answer (shape_of states labels initial) hops.now place rounds) 4 (length answer.old) }
    ensures figures { answer.new ≡
        answer_after 4 (round_numbers (question_of (shape_of states labels initial) hops.now place rounds)) answer.old }
{
    let shape = Shape {
        states,
        labels,
        initial,
    };
    let question = RoundAnswer::from(round_question(shape, hops, place as usize, rounds));
    put_figure_answer(answer, question.answer, u64::from(question.survives))
}
