// The entry `find`: whether a graph has a given hop (transition), and at which place it stands or
// would stand.
// The graph is checked, then the hop is found by binary search. Any 32-bit numbers may be asked
// for: a hop with a number out of range is not in the graph, and its place is behind the hops that
// come before it.
// Uses `graph_check` for `check` and `graph` for the search.
#![tactic(auto)]

ghost use Rattle.std.specs.Prelude.{◌≡◌};
ghost use Rattle.graph_find.specs.Internal.Find.{saturated};
ghost use Rattle.graph_find.specs.Find.{finding_of, find_of};

use graph::answers::answer_of;
use graph::hops::hop_of;
use graph::{Answer, Refusal, Shape};
use graph_check::check;

// The figures of an answer: check's; 1 or 0, whether the graph has the hop; and the hop's place, or
// where it would stand (0 and 0 with a refusal).
#[derive(Clone, Copy)]
pub struct Finding {
    pub answer: Answer,
    pub found: u32,
    pub place: usize,
}

impl From<Result<Result<usize, usize>, Refusal>> for Finding {
    ghost from_gives = { λ r f. f ≡ finding_of r };

    fn from(outcome: Result<Result<usize, usize>, Refusal>) -> Finding {
        let (found, place) = match outcome {
            Ok(Ok(at)) => (1, at),
            Ok(Err(gap)) => (0, gap),
            Err(_) => (0, 0),
        };
        Finding {
            answer: answer_of(&outcome),
            found,
            place,
        }
    }
}

// The number in 16 bits: as it is, or the largest for one that does not fit. No hop of an admitted
// graph has the largest, so it may stand for all that are larger.
#[tactic(auto, unfolding(crate::specs::Internal::Find::saturated))]
fn saturate(x: u32) -> u16
    ensures { result ≡ saturated x }
{
    u16::try_from(x).unwrap_or(u16::MAX)
}

// The entry: `Ok` of a place where the hop stands, `Err` of one where it would stand.
pub fn find(
    shape: Shape,
    hops: &[u16],
    from: u32,
    label: u32,
    to: u32,
) -> Result<Result<usize, usize>, Refusal>
    ensures { finding_of result ≡ find_of shape hops.now from label to }
{
    check(shape, hops)?;
    let sought = hop_of(saturate(from), saturate(label), saturate(to));
    Ok(graph::search::find(hops, sought))
}
