// The entry `round_question`: whether a given silent (tau) hop survives k rounds of marking, k from
// 0 to 4.
// It checks the graph, the place and the number of rounds, and then evaluates the equations X, Y
// and Z with an empty memo table. Rings (silent cycles) are allowed.
// Uses `graph_check` for the checks, `graph_successors` for the table of first places,
// `graph_index` for the hop list with it, `mark_confluence` for the rounds, and `mark_equations`
// for the equations.
#![tactic(auto)]

ghost use Rattle.std.specs.Prelude.{◌≡◌};
ghost use Rattle.mark_entry_round.specs.Question.{round_answer_of};

use graph::answers::answer_of;
use graph::{Answer, Refusal};

pub mod question; // question.rt: the entry and its checks

// The figures of an answer: the answer, and 1 or 0, whether the hop survives (0 with a refusal).
#[derive(Clone, Copy)]
pub struct RoundAnswer {
    pub answer: Answer,
    pub survives: u32,
}

impl From<Result<bool, Refusal>> for RoundAnswer {
    ghost from_gives = { λ r a. a ≡ round_answer_of r };

    fn from(outcome: Result<bool, Refusal>) -> RoundAnswer {
        RoundAnswer {
            answer: answer_of(&outcome),
            survives: u32::from(outcome.unwrap_or(false)),
        }
    }
}
