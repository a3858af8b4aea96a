// The entry `reduce`: the map and the short graph (the quotient by the greatest tau-confluent set)
// of a graph without rings (silent cycles), in the sense asked, or why the graph is refused.
// It refuses by rows 1 to 4, 19, 5 and 6, marks in the sense asked, and reduces along the marks.
// Here what `reduce_representatives` and `reduce_short_graph` prove of any set of silent (tau) hops
// is applied to the marked set of any sense. C, the audit of what it left and the repeated
// reduction use it.
// Uses `graph_check`, `mark_senses` and `walk_rings` for the refusals, `graph_index` for the graph
// with its table of first places, `mark_worklist_loop` and `mark_batch_sweeps` for the marking, and
// `reduce_by_marks` for the reduction.
#![tactic(auto)]

ghost use Rattle.std.specs.Prelude.{◌≡◌};
ghost use Rattle.reduce_entry.specs.Reduce.{reduction_of};

pub mod entry; // entry.rt: the entry `reduce`

use graph::answers::answer_of;
use graph::{Answer, Refusal, Shape};
use reduce_by_marks::ShortGraph;

// The figures of an answer: why the graph is refused, or that it is not; and the short graph's
// counts and initial state (all 0 with a refusal).
#[derive(Clone, Copy)]
pub struct Reduction {
    pub answer: Answer,
    pub shape: Shape,
    pub hops: usize,
}

// The shape in a refusal: "with any number but 0 every other figure in the answer is 0".
pub const NO_SHAPE: Shape = Shape {
    states: 0,
    labels: 0,
    initial: 0,
};

impl From<Result<ShortGraph, Refusal>> for Reduction {
    ghost from_gives = { λ r x. x ≡ reduction_of r };

    fn from(outcome: Result<ShortGraph, Refusal>) -> Reduction {
        let (shape, hops) = match outcome {
            Ok(made) => (made.shape, made.hops),
            Err(_) => (NO_SHAPE, 0),
        };
        Reduction {
            answer: answer_of(&outcome),
            shape,
            hops,
        }
    }
}
