// The entries `check` and `mark` for callers that hold their hops (transitions) as a slice of
// records instead of a flat list of numbers.
// The records are copied into an array of numbers and checked or marked there, so that the answers
// are those of the flat list.
// Uses `check` of `graph_check` and `mark` of `mark_entry`.
#![tactic(auto)]

ghost use Rattle.std.specs.Prelude.{◌≡◌, ◌<◌, ◌↔◌, length, IfOk, IfErr, IsErr};
ghost use Rattle.graph.specs.Hops.{flat};
ghost use Rattle.graph.specs.Answers.{most_hops, refused, refusal_answer, answer_of};
ghost use Rattle.graph_check.specs.Check.{check_of};
ghost use Rattle.mark_entry.specs.Mark.{mark_answer, mark_output};

use graph::hops::{part, put_hop};
use graph::{Hop, MOST_HOPS, MOST_NUMBERS, Refusal, Shape};
use graph_check::check;
use mark_entry::mark::mark;

// The flat list of the records, written at the front of an array; more records than a graph may
// have hops are refused.
fn flat_of<'a>(hops: &[Hop], nums: &'a mut [u16; MOST_NUMBERS]) -> Result<&'a [u16], Refusal>
    ensures flat { IfOk result (λ list. list.now ≡ flat hops.now) }
    ensures refusal { IfErr result (λ refusal. refusal_answer refusal ≡ refused 1 0) }
    ensures refuses { IsErr result ↔ (most_hops < length hops.now) }
{
    let n = hops.len();
    if MOST_HOPS < n {
        return Err(Refusal::Counts);
    }
    for i in 0..n {
        put_hop(nums, i, hops[i]);
    }
    Ok(part(nums, 0, n))
}

// The entry `check` over records.
pub fn check_records(shape: Shape, hops: &[Hop]) -> Result<(), Refusal>
    ensures { answer_of result ≡ check_of shape (flat hops.now) }
{
    let mut nums = [0u16; MOST_NUMBERS];
    let list = flat_of(hops, &mut nums)?;
    check(shape, list)
}

// The entry `mark` over records, in the sense asked: a refusal writes nothing.
pub fn mark_records(shape: Shape, hops: &[Hop], sense: u32, marks: &mut [u8]) -> Result<(), Refusal>
    ensures answers { answer_of result ≡ mark_answer shape (flat hops.now) sense marks.old }
    ensures writes { marks.new ≡ mark_output shape (flat hops.now) sense marks.old }
{
    let mut nums = [0u16; MOST_NUMBERS];
    let list = flat_of(hops, &mut nums)?;
    mark(shape, list, sense, marks)
}
