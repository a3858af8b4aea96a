// The entry `mark_fast`: the marked set of strong confluence (sense 1) with the number of tests of
// the worklist, document 02's faster marking.
// It answers, refuses and writes as `mark` does in sense 1. That the rounds of the worklist and the
// sweeps of the first marking leave the same marks is the theorem `sweeps_same_marks` (proofs/).
// Uses `mark_worklist_loop` for the marking, `mark_worklist` for the number of tests, `mark_entry`
// for the answer and the output, `graph_index` for the graph with its table of first places,
// `mark_senses` for which marked set is that of sense 1 and, for the theorem, `mark_sweeps`.
#![tactic(auto)]

ghost use Rattle.std.specs.Prelude.{◌≡◌};
ghost use Rattle.mark_entry.specs.Mark.{mark_output};
ghost use Rattle.mark_entry_fast.specs.Fast.{counted_of, mark_fast_of};

use graph::answers::answer_of;
use graph::{Answer, Refusal, Shape};
use graph_check::check;
use graph_index::{Index, Indexed};
use graph_successors::{STARTS, put_starts};
use mark_entry::mark::check_later;
use mark_worklist_loop::mark_rounds;

// The figures of an answer: that of `mark` in sense 1, and the number of tests (0 with a refusal).
#[derive(Clone, Copy)]
pub struct Counted {
    pub answer: Answer,
    pub tests: usize,
}

impl From<Result<usize, Refusal>> for Counted {
    ghost from_gives = { λ r c. c ≡ counted_of r };

    fn from(outcome: Result<usize, Refusal>) -> Counted {
        Counted {
            answer: answer_of(&outcome),
            tests: outcome.unwrap_or(0),
        }
    }
}

// The entry: the number of tests. A refusal writes nothing.
pub fn mark_fast(shape: Shape, hops: &[u16], marks: &mut [u8]) -> Result<usize, Refusal>
    ensures answers { counted_of result ≡ mark_fast_of shape hops.now marks.old }
    ensures writes { marks.new ≡ mark_output shape hops.now 1 marks.old }
{
    check(shape, hops)?;
    let mut starts = [0u16; STARTS];
    put_starts(hops, &mut starts);
    let graph = Indexed {
        shape,
        index: Index {
            hops,
            starts: &starts,
        },
    };
    check_later(graph, marks.len())?;
    Ok(mark_rounds(graph.index, marks))
}
