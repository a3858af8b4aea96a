// The entry `check`: whether a graph is well formed (counts within their limits, initial state and
// hops in range, hop list strictly ascending), and if not, which check fails and where.
// The checks are rows 1 to 4 of document 01. A graph that passes is `Admitted` (specs/Check); every
// entry that takes a graph checks it first. One linear pass over the list for row 3 (range), one
// for row 4 (order).
// Uses `graph` for the accessors, the order of hops and answers.
#![tactic(auto)]

ghost use Rattle.std.specs.Prelude.{◌≡◌, ◌<◌};
ghost use Rattle.graph.specs.Hops.{count};
ghost use Rattle.graph.specs.Answers.{answer_of};
ghost use Rattle.graph_check.specs.Internal.Places.{place_below};
ghost use Rattle.graph_check.specs.Check.{counts_fit, inside, first_outside, first_not_ascending, check_of};

use graph::hops::{hop_at, hop_count, is_whole};
use graph::order::{is_below, sum_of};
use graph::{MOST_HOPS, MOST_LABELS, MOST_STATES, Refusal, Shape};

// Row 1.
#[tactic(auto, unfolding(crate::specs::Check::counts_fit))]
fn counts_fit(shape: Shape, hops: &[u16]) -> bool
    ensures { result ≡ counts_fit shape hops.now }
{
    let n = hop_count(hops);
    let whole = is_whole(hops);
    (1 <= shape.states)
        & (shape.states <= MOST_STATES as u32)
        & (1 <= shape.labels)
        & (shape.labels <= MOST_LABELS as u32)
        & (n <= MOST_HOPS)
        & whole
}

// Row 3 of one hop.
#[tactic(auto, unfolding(crate::specs::Check::inside))]
fn is_inside(shape: Shape, hops: &[u16], i: usize) -> bool
    requires { i < count hops.now }
    ensures { result ≡ inside shape hops.now i }
{
    let hop = hop_at(hops, i);
    (u32::from(hop.from) < shape.states)
        & (u32::from(hop.label) < shape.labels)
        & (u32::from(hop.to) < shape.states)
}

// Row 3: the first hop out of range, or the number of hops. As an `Option` the place would cost
// `check` a quarter more time: the compiler would write the refusal's number at each hop.
#[tactic(auto, using(crate::proofs::Placed::none_passed), unfolding(crate::specs::Check::first_outside))]
fn first_outside(shape: Shape, hops: &[u16]) -> usize
    ensures { result ≡ first_outside shape hops.now }
{
    let n = hop_count(hops);
    for i in 0..n {
        if !is_inside(shape, hops, i) {
            return i;
        }
    }
    n
}

// Row 4: the first hop not above the one before. The sum of each hop is made once, and kept for the
// next.
fn first_not_ascending(hops: &[u16]) -> Option<usize>
    ensures { result ≡ place_below (count hops.now) (first_not_ascending hops.now) }
{
    let n = hop_count(hops);
    if n == 0 {
        return None;
    }
    let mut last = sum_of(hop_at(hops, 0));
    for i in 1..n {
        let sum = sum_of(hop_at(hops, i));
        if !is_below(last, sum) {
            return Some(i);
        }
        last = sum;
    }
    None
}

// The entry. Rows 1 to 4 in their order: a hop out of range anywhere speaks before any hop out of
// order.
#[tactic(auto, unfolding(crate::specs::Check::check_of))]
pub fn check(shape: Shape, hops: &[u16]) -> Result<(), Refusal>
    ensures { answer_of result ≡ check_of shape hops.now }
{
    if !counts_fit(shape, hops) {
        return Err(Refusal::Counts);
    }
    if shape.states <= shape.initial {
        return Err(Refusal::Initial);
    }
    let outside = first_outside(shape, hops);
    if outside < hop_count(hops) {
        return Err(Refusal::HopOutside(outside));
    }
    if let Some(falling) = first_not_ascending(hops) {
        return Err(Refusal::HopNotAscending(falling));
    }
    Ok(())
}
