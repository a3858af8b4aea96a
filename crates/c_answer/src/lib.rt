// What the entries of the C ABI return to their callers: the figures at the front of the answer
// slice, and the number that is returned. An answer slice too short gets nothing, and 6 is returned
// unless the entry itself refuses. The crates c_* build only the figures of their own entries, as a
// small array, and end with `put_answer`, which puts the answer's three numbers before them, or
// with one of the two functions over it. Where nothing else may be written either, they compute the
// answer alone and end with `short_number`. `c_hops_of` needs neither: its entry refuses nothing
// itself, so it has no answer, and puts its figures alone.
// Uses `graph` for answers, and `base_outputs` for what a slice holds afterwards and to write it.
#![tactic(auto)]

ghost use Rattle.std.specs.Prelude.{◌≡◌, [], ◌∷◌, ◌+◌, ◌<◌, ◌≤◌, length};
ghost use Rattle.base_outputs.specs.Internal.Output.{over_at};
ghost use Rattle.c_answer.specs.Numbers.{numbers_of, returned, answer_after};

use base_outputs::{put_at, put_front};
use graph::Answer;

// The number where the answer slice is too short for n figures: a refusal's own, else 6.
#[tactic(auto, using(crate::proofs::Answers::returns_number))]
pub fn short_number(a: Answer, capacity: usize, n: usize) -> u32
    requires { capacity < n }
    ensures { result ≡ returned a n capacity }
{
    let is_accepted = a.number == 0;
    if is_accepted { 6 } else { a.number }
}

// Writes an answer's number, table and place and behind them the entry's own figures, if the answer
// slice is long enough, and returns the entry's return value.
#[tactic(auto, using(crate::proofs::Answers::returns_number, crate::proofs::AnswerAfter::outputs))]
pub fn put_answer(out: &mut [u64], a: Answer, figures: &[u64]) -> u32
    ensures returns { result ≡ returned a (3 + length figures.now) (length out.old) }
    ensures figures { out.new ≡
        answer_after (3 + length figures.now) (numbers_of a figures.now) out.old }
{
    let n = 3 + figures.len();
    if out.len() < n {
        return short_number(a, out.len(), n);
    }
    let numbers = [u64::from(a.number), u64::from(a.table), a.place as u64];
    put_front(out, &numbers);
    put_at(out, 3, figures);
    a.number
}

// For an entry that writes its answer and no more.
pub fn put_plain_answer(out: &mut [u64], a: Answer) -> u32
    ensures returns { result ≡ returned a 3 (length out.old) }
    ensures figures { out.new ≡ answer_after 3 (numbers_of a []) out.old }
{
    let figures: [u64; 0] = [];
    put_answer(out, a, &figures)
}

// For an entry that writes its answer and one figure.
pub fn put_figure_answer(out: &mut [u64], a: Answer, figure: u64) -> u32
    ensures returns { result ≡ returned a 4 (length out.old) }
    ensures figures { out.new ≡ answer_after 4 (numbers_of a (figure ∷ [])) out.old }
{
    let figures = [figure];
    put_answer(out, a, &figures)
}
