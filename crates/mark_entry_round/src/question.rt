// The entry: rows 1 to 4, then 9, then 10, and then the equations.
ghost use Rattle.std.specs.Prelude.{◌≡◌, ◌<◌, ◌≤◌};
ghost use Rattle.graph.specs.Answers.{answer_of};
ghost use Rattle.graph.specs.Hops.{count, from, label, to};
ghost use Rattle.graph_check.specs.Check.{Admitted};
ghost use Rattle.mark_confluence.specs.Rounds.{survives};
ghost use Rattle.mark_entry_round.specs.Question.{most_rounds, silent_place, few_rounds, question_answer, round_answer_of, question_of};

use graph::hops::{hop_count, label_at};
use graph::{MOST_HOPS, Refusal, Shape};
use graph_check::check;
use graph_index::Index;
use graph_successors::{STARTS, put_starts};
use mark_equations::x;

// "k from 0 to 4"
const MOST_ROUNDS: usize = 4;

// The table of answers: one a hop for each number of rounds.
const KNOWN: usize = (MOST_ROUNDS + 1) * MOST_HOPS;

// Row 9.
fn check_place(hops: &[u16], place: usize) -> Result<(), Refusal>
    ensures { answer_of result ≡ silent_place hops.now place }
{
    if hop_count(hops) <= place || label_at(hops, place).0 != 0 {
        return Err(Refusal::NotSilent);
    }
    Ok(())
}

// Row 10.
fn check_rounds(rounds: u32) -> Result<(), Refusal>
    ensures { answer_of result ≡ few_rounds rounds }
{
    if MOST_ROUNDS < rounds as usize {
        return Err(Refusal::TooManyRounds);
    }
    Ok(())
}

// The first row that speaks.
fn check_question(shape: Shape, hops: &[u16], place: usize, rounds: u32) -> Result<(), Refusal>
    ensures { answer_of result ≡ question_answer shape hops.now place rounds }
{
    check(shape, hops)?;
    check_place(hops, place)?;
    check_rounds(rounds)
}

// The equations, with nothing known yet.
fn survives_rounds(shape: Shape, hops: &[u16], place: usize, rounds: usize) -> bool
    requires admitted { Admitted shape hops.now }
    requires place { place < count hops.now }
    requires silent { label hops.now place ≡ 0 }
    requires few { rounds ≤ most_rounds }
    ensures { result ≡ survives hops.now rounds (from hops.now place) (to hops.now place) }
{
    let mut starts = [0u16; STARTS];
    put_starts(hops, &mut starts);
    let index = Index {
        hops,
        starts: &starts,
    };
    let mut known = [0u8; KNOWN];
    x(index, place, rounds, &mut known)
}

// The entry: whether the hop survives the rounds.
pub fn round_question(
    shape: Shape,
    hops: &[u16],
    place: usize,
    rounds: u32,
) -> Result<bool, Refusal>
    ensures { round_answer_of result ≡ question_of shape hops.now place rounds }
{
    check_question(shape, hops, place, rounds)?;
    Ok(survives_rounds(shape, hops, place, rounds as usize))
}
