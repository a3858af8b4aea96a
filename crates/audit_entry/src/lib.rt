// The entry `audit`: how many faults a map between two graphs has and which is the first, where a
// count of 0 means that the map is a branching bisimulation that relates the initial states.
// That meaning (Definition 2.4, the map taken as a relation) is proved here. The entry adds the
// three sums, each with its first fault.
// Uses `audit_admitted` for what is refused, `audit_faults` for the first two sums and
// `audit_unmatched` for the third, `graph_successors` for the table of first places, and `lts` for
// branching bisimulations.
#![tactic(auto)]

ghost use Rattle.std.specs.Prelude.{◌≡◌};
ghost use Rattle.audit_entry.specs.Audit.{audit_figures};

use audit_admitted::AuditRefusal;
use audit_faults::first::no_fault;
use audit_faults::{Fault, Share};
use graph::Answer;
use graph::answers::ACCEPTED;

mod counting; // counting.rt: the fault count and the first fault, the tables made once
pub mod auditing; // auditing.rt: the entry `audit`

// The figures of an audit: the answer, the number of faults (0 with a refusal), and the first fault
// (none with a refusal).
#[derive(Clone, Copy)]
pub struct Audit {
    pub answer: Answer,
    pub faults: u32,
    pub first: Fault,
}

impl From<Result<Share, AuditRefusal>> for Audit {
    ghost from_gives = { λ r a. a ≡ audit_figures r };

    fn from(outcome: Result<Share, AuditRefusal>) -> Audit {
        match outcome {
            Ok(Share { faults, first }) => Audit {
                answer: ACCEPTED,
                faults,
                first: first.unwrap_or(no_fault()),
            },
            Err(refusal) => Audit {
                answer: Answer::from(refusal),
                faults: 0,
                first: no_fault(),
            },
        }
    }
}
