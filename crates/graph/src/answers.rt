// What an entry answers in numbers: document 01's number, table and place of an acceptance and of a
// refusal.
ghost use Rattle.std.specs.Prelude.{◌≡◌};
ghost use Rattle.graph.specs.Answers.{accepted, refusal_answer, answer_of};

use super::{Answer, Refusal};

// The answer of an entry that accepts.
pub const ACCEPTED: Answer = Answer {
    number: 0,
    table: 1,
    place: 0,
};

// "2 only for graph 2 of the audit, else 1".
const TABLE: u32 = 1;

impl From<Refusal> for Answer {
    ghost from_gives = { λ r a. a ≡ refusal_answer r };

    fn from(refusal: Refusal) -> Answer {
        let (number, place) = match refusal {
            Refusal::Counts => (1, 0),
            Refusal::Initial => (2, 0),
            Refusal::HopOutside(hop) => (3, hop),
            Refusal::HopNotAscending(hop) => (4, hop),
            Refusal::Ring(state) => (5, state),
            Refusal::OutputTooShort => (6, 0),
            Refusal::LabelCounts => (7, 0),
            Refusal::MapEntry(place) => (8, place),
            Refusal::NotSilent => (9, 0),
            Refusal::TooManyRounds => (10, 0),
            Refusal::FileTooShort(length) => (11, length),
            Refusal::FileBits => (12, 0),
            Refusal::FileTooLong(byte) => (13, byte),
            Refusal::BadName(byte) => (14, byte),
            Refusal::NoSense => (19, 0),
        };
        Answer {
            number,
            table: TABLE,
            place,
        }
    }
}

// The answer of an entry, whatever else it returns.
pub fn answer_of<T>(outcome: &Result<T, Refusal>) -> Answer
    ensures { result ≡ answer_of outcome.now }
{
    match outcome {
        Ok(_) => ACCEPTED,
        Err(refusal) => Answer::from(*refusal),
    }
}
