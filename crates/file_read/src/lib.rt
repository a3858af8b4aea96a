// The entry `read`: decodes a file into a hop list, with the graph's counts and initial state and
// where the name block (label table) lies, or says why the file is refused.
// The format is checked first, then rows 1 to 4 on a copy of the hops, then the length of the
// output; nothing is written before all have passed.
// Uses `file_format` for the format, `file_fields` and `file_hops` for what the file holds, and
// `check` of `graph_check`.
#![tactic(auto)]

ghost use Rattle.std.specs.Prelude.{◌≡◌};
ghost use Rattle.file_read.specs.Read.{contents_record};

use graph::answers::ACCEPTED;
use graph::{Answer, Refusal, Shape};

pub mod reading; // reading.rt: the entry, its answer, and what it returns

// What a file holds: the graph's shape and number of hops, and where the block of names lies in the
// file.
#[derive(Clone, Copy, PartialEq, Eq, Debug)]
pub struct Decoded {
    pub shape: Shape,
    pub hops: usize,
    pub names_place: usize,
    pub names_len: usize,
}

// The figures of what reading returns: the answer, and what the file holds.
#[derive(Clone, Copy)]
pub struct Contents {
    pub answer: Answer,
    pub shape: Shape,
    pub hops: usize,
    pub names_place: usize,
    pub names_len: usize,
}

// With a refusal every other figure is 0.
impl From<Result<Decoded, Refusal>> for Contents {
    ghost from_gives = { λ r c. c ≡ contents_record r };

    fn from(outcome: Result<Decoded, Refusal>) -> Contents {
        match outcome {
            Ok(decoded) => Contents {
                answer: ACCEPTED,
                shape: decoded.shape,
                hops: decoded.hops,
                names_place: decoded.names_place,
                names_len: decoded.names_len,
            },
            Err(refusal) => Contents {
                answer: Answer::from(refusal),
                shape: Shape {
                    states: 0,
                    labels: 0,
                    initial: 0,
                },
                hops: 0,
                names_place: 0,
                names_len: 0,
            },
        }
    }
}
