// Whether two graphs and a map can be audited: both graphs are well formed, their label counts
// agree, and the map takes each state of graph 1 to a state of graph 2.
// A refusal is the first of rows 1 to 4 for graph 1, then of these for graph 2, then of rows 7 and
// 8. It converts to an answer's number, table and place. That what is accepted is what document 01
// admits is proved here.
// Uses `graph_check` for the two graphs.
#![tactic(auto)]

ghost use Rattle.std.specs.Prelude.{◌≡◌, length};
ghost use Rattle.graph.specs.Answers.{answer_of};
ghost use Rattle.graph_check.specs.Internal.Places.{place_below};
ghost use Rattle.audit_admitted.specs.declared.AuditRefusal.TheVariants.{Other};
ghost use Rattle.audit_admitted.specs.Admitted.{first_high, map_fits, audit_answer, audit_refusal_answer};
ghost use Rattle.audit_admitted.specs.Internal.Outcome.{audit_answer_of};

use graph::{Answer, Refusal, Shape};
use graph_check::check;

// Why an audit refuses. The rows of graph 2 have a table of their own in the answer.
#[derive(Clone, Copy, PartialEq, Eq, Debug)]
pub enum AuditRefusal {
    // rows 1 to 4 of graph 2
    Graph2(Refusal),
    // any other row
    Other(Refusal),
}

impl From<Refusal> for AuditRefusal {
    ghost from_gives = { λ r a. a ≡ Other r };

    fn from(refusal: Refusal) -> AuditRefusal {
        AuditRefusal::Other(refusal)
    }
}

impl From<AuditRefusal> for Answer {
    ghost from_gives = { λ r a. a ≡ audit_refusal_answer r };

    fn from(refusal: AuditRefusal) -> Answer {
        match refusal {
            AuditRefusal::Graph2(of_graph_2) => Answer {
                table: 2,
                ..Answer::from(of_graph_2)
            },
            AuditRefusal::Other(other) => Answer::from(other),
        }
    }
}

// Row 8: the first entry not below state count 2.
#[tactic(auto, using(graph_check::proofs::Placed::none_passed), unfolding(crate::specs::Admitted::first_high))]
fn first_high(shape2: Shape, map: &[u16]) -> Option<usize>
    ensures { result ≡ place_below (length map.now) (first_high shape2 map.now) }
{
    for s in 0..map.len() {
        if shape2.states <= u32::from(map[s]) {
            return Some(s);
        }
    }
    None
}

// Row 8.
#[tactic(auto, unfolding(crate::specs::Admitted::map_fits))]
fn check_map(shape1: Shape, shape2: Shape, map: &[u16]) -> Result<(), Refusal>
    ensures { answer_of result ≡ map_fits shape1 shape2 map.now }
{
    if map.len() != shape1.states as usize {
        return Err(Refusal::MapEntry(map.len()));
    }
    if let Some(high) = first_high(shape2, map) {
        return Err(Refusal::MapEntry(high));
    }
    Ok(())
}

// The checks of an audit: graph 1 for 1 to 4, then graph 2, then 7, 8.
#[tactic(auto, using(graph::proofs::Accepts::refusal_ne0), unfolding(crate::specs::Admitted::audit_answer))]
pub fn check_audit(
    shape1: Shape,
    hops1: &[u16],
    shape2: Shape,
    hops2: &[u16],
    map: &[u16],
) -> Result<(), AuditRefusal>
    ensures { audit_answer_of result ≡ audit_answer shape1 shape2 hops1.now hops2.now map.now }
{
    check(shape1, hops1)?;
    if let Err(refusal) = check(shape2, hops2) {
        return Err(AuditRefusal::Graph2(refusal));
    }
    if shape1.labels != shape2.labels {
        return Err(AuditRefusal::Other(Refusal::LabelCounts));
    }
    check_map(shape1, shape2, map)?;
    Ok(())
}
