// The entry `write`: encodes a graph and its name block (label table) as a file in the caller's
// output, or says why they are refused.
// Rows 1 to 4 are checked first, then 14 for the block, then 6 (output too short); nothing is
// written before all have passed.
// Uses `check` of `graph_check`, `file_names` for the search for a bad name, and `file_encode` for
// the bytes.
#![tactic(auto)]

ghost use Rattle.std.specs.Prelude.{◌≡◌};
ghost use Rattle.file_write.specs.Write.{written_record};

use graph::answers::ACCEPTED;
use graph::{Answer, Refusal};

pub mod writing; // writing.rt: the entry and its answer

// The figures of what writing returns: the answer, and how many bytes were written.
#[derive(Clone, Copy)]
pub struct Written {
    pub answer: Answer,
    pub length: usize,
}

// With a refusal the length is 0.
impl From<Result<usize, Refusal>> for Written {
    ghost from_gives = { λ r w. w ≡ written_record r };

    fn from(outcome: Result<usize, Refusal>) -> Written {
        match outcome {
            Ok(length) => Written {
                answer: ACCEPTED,
                length,
            },
            Err(refusal) => Written {
                answer: Answer::from(refusal),
                length: 0,
            },
        }
    }
}
