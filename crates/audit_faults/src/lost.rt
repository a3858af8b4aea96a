// The first two sums of the fault count, each with its first fault: the initial states, and the
// hops of graph 1 that graph 2 has not.
ghost use Rattle.std.specs.Prelude.{◌≡◌, ◌<◌, ◌≤◌, length};
ghost use Rattle.graph.specs.Hops.{count};
ghost use Rattle.graph.specs.Answers.{most_states};
ghost use Rattle.audit_faults.specs.Faults.{initial_fault, preserved, lost_faults};
ghost use Rattle.audit_faults.specs.First.{first_initial, lost_place, first_lost, named};
ghost use Rattle.graph_check.specs.Internal.Places.{place_below};

use super::images::{Located, NO_PLACE};
use super::{Fault, Share};
use graph::hops::{from_at, hop_count, label_at, to_at};
use graph::map::map_at;
use graph::{OldState, Shape};

// 1 if the map of initial state 1 is not initial state 2.
#[tactic(auto, unfolding(crate::specs::Faults::initial_fault, crate::specs::First::first_initial))]
pub fn initial_fault(shape1: Shape, shape2: Shape, map: &[u16]) -> Share
    requires initial { shape1.initial < length map.now }
    requires few { length map.now ≤ most_states }
    ensures counts { result.faults ≡ initial_fault shape1 shape2 map.now }
    ensures names { result.first ≡ named (first_initial shape1 shape2 map.now) }
{
    let r = map_at(map, OldState(shape1.initial as u16));
    if u32::from(r.0) == shape2.initial {
        return Share {
            faults: 0,
            first: None,
        };
    }
    Share {
        faults: 1,
        first: Some(Fault {
            kind: 1,
            place: 0,
            state: 0,
        }),
    }
}

// Whether the hop at a place of graph 1 is in graph 2, which the table says, or is silent inside a
// class.
fn is_preserved(located: Located<'_>, i: usize) -> bool
    requires { i < count located.mapped.hops1.now }
    ensures { result ≡ preserved located.entry.mapped.hops1.now located.entry.mapped.hops2.now
        located.entry.mapped.map.now i }
{
    if usize::from(located.images[i]) != NO_PLACE {
        return true;
    }
    let hops1 = located.mapped.hops1;
    let a = label_at(hops1, i);
    let r = located.mapped.image(from_at(hops1, i));
    let q = located.mapped.image(to_at(hops1, i));
    (a.0 == 0) & (r == q)
}

// The place of the first hop of graph 1 that is not preserved.
fn first_lost(located: Located<'_>) -> Option<usize>
    ensures { result ≡ place_below (count located.entry.mapped.hops1.now)
        (lost_place located.entry.mapped.hops1.now located.entry.mapped.hops2.now located.entry.mapped.map.now) }
{
    (0..hop_count(located.mapped.hops1)).find(|i| !is_preserved(located, *i))
}

// 1 for each hop of graph 1 that is not preserved, counted from the first of them on.
fn lost_from(located: Located<'_>, first: usize) -> u32
    requires { first ≡ lost_place located.mapped.hops1.now located.mapped.hops2.now located.mapped.map.now }
    ensures { result ≡ lost_faults located.entry.mapped.hops1.now located.entry.mapped.hops2.now
        located.entry.mapped.map.now }
{
    let mut faults = 0;
    for i in first..hop_count(located.mapped.hops1) {
        if !is_preserved(located, i) {
            faults += 1;
        }
    }
    faults
}

// 1 for each hop of graph 1 that is not preserved, and the first of them. Hops before the first are
// tested only by the search for it, and the count begins with the first.
#[tactic(auto, unfolding(crate::specs::First::first_lost))]
pub fn lost_faults(located: Located<'_>) -> Share
    ensures counts { result.faults ≡ lost_faults located.entry.mapped.hops1.now
        located.entry.mapped.hops2.now located.entry.mapped.map.now }
    ensures names { result.first ≡ named (first_lost located.entry.mapped.hops1.now
        located.entry.mapped.hops2.now located.entry.mapped.map.now) }
{
    match first_lost(located) {
        Some(place) => Share {
            faults: lost_from(located, place),
            first: Some(Fault {
                kind: 2,
                place,
                state: 0,
            }),
        },
        None => Share {
            faults: 0,
            first: None,
        },
    }
}
