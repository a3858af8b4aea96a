// The entries for the outgoing hops (transitions) of a state of either of two graphs: as a part of
// the caller's own list (`hops_of`), or as start and length of that part (`span_of`).
// Any side, state and lists may be given; the part is empty for another side, an absent state, or
// if either graph fails `check`. Two binary searches find its ends. Rust and C callers read hops by
// it without a copy.
// Uses `graph_check` for `check` and `graph` for the search.
#![tactic(auto)]

ghost use Rattle.std.specs.Prelude.{◌≡◌, ◌<◌, ◌≤◌};
ghost use Rattle.graph.specs.Hops.{count, part_address};
ghost use Rattle.graph.specs.Order.{Ascending};
ghost use Rattle.graph.specs.Search.{first_of};
ghost use Rattle.graph.specs.Answers.{most_hops};
ghost use Rattle.graph_hops_of.specs.HopsOf.{both_pass, chosen, outgoing, hops_of_side, hops_of_address, span_in, span_of};
ghost use Rattle.graph_hops_of.specs.Internal.Side.{side_number};

use graph::Shape;
use graph::hops::{number_place, part};
use graph::search::{first_of, past_of};
use graph_check::check;

// Where a part stands in its table, in numbers; 0 and 0 for an empty part.
#[derive(Clone, Copy, PartialEq, Eq, Debug)]
pub struct Span {
    pub start: usize,
    pub length: usize,
}

// The table whose hops are shown.
#[derive(Clone, Copy, PartialEq, Eq, Debug)]
enum Side {
    First,
    Second,
}

#[tactic(auto, unfolding(crate::specs::HopsOf::both_pass))]
fn both_pass(shape1: Shape, hops1: &[u16], shape2: Shape, hops2: &[u16]) -> bool
    ensures { result ≡ both_pass shape1 hops1.now shape2 hops2.now }
{
    let first = check(shape1, hops1);
    let second = check(shape2, hops2);
    first.is_ok() & second.is_ok()
}

// The side whose hops are returned, if any are.
#[tactic(auto, unfolding(crate::specs::HopsOf::chosen))]
fn choose(
    side: u32,
    state: u32,
    shape1: Shape,
    hops1: &[u16],
    shape2: Shape,
    hops2: &[u16],
) -> Option<Side>
    ensures { side_number result ≡ chosen side state shape1 hops1.now shape2 hops2.now }
{
    if !both_pass(shape1, hops1, shape2, hops2) {
        return None;
    }
    if (side == 1) & (state < shape1.states) {
        return Some(Side::First);
    }
    if (side == 2) & (state < shape2.states) {
        return Some(Side::Second);
    }
    None
}

// The hops of a state of an ascending list.
fn out_of<'a>(hops: &'a [u16], state: u32) -> &'a [u16]
    requires ascending { Ascending hops.now }
    requires state { state < 65535 }
    ensures shows { result.now ≡ outgoing hops.now state }
    ensures stands { result.ref_ptr ≡ part_address hops.entry (first_of hops.now state) }
{
    let s = state as u16;
    let first = first_of(hops, s);
    let past = past_of(hops, s);
    part(hops, first, past)
}

// The entry. Any side and state, any two tables.
#[tactic(auto, unfolding(crate::specs::HopsOf::hops_of_side, crate::specs::HopsOf::hops_of_address))]
pub fn hops_of<'a>(
    side: u32,
    state: u32,
    shape1: Shape,
    hops1: &'a [u16],
    shape2: Shape,
    hops2: &'a [u16],
) -> &'a [u16]
    ensures shows { result.now ≡
        hops_of_side (chosen side state shape1 hops1.now shape2 hops2.now) state hops1.now hops2.now }
    ensures stands { result.ref_ptr ≡
        hops_of_address (chosen side state shape1 hops1.now shape2 hops2.now) state hops1.entry hops2.entry }
{
    match choose(side, state, shape1, hops1, shape2, hops2) {
        Some(Side::First) => out_of(hops1, state),
        Some(Side::Second) => out_of(hops2, state),
        None => part(hops1, 0, 0),
    }
}

const NO_SPAN: Span = Span {
    start: 0,
    length: 0,
};

// Where the hops of a state stand in an ascending list.
#[tactic(auto, unfolding(crate::specs::HopsOf::span_in))]
fn span_in(hops: &[u16], state: u32) -> Span
    requires ascending { Ascending hops.now }
    requires few { count hops.now ≤ most_hops }
    requires state { state < 65535 }
    ensures { result ≡ span_in hops.now state }
{
    let s = state as u16;
    let first = first_of(hops, s);
    let past = past_of(hops, s);
    if first == past {
        return NO_SPAN;
    }
    let start = number_place(first);
    let end = number_place(past);
    Span {
        start,
        length: end - start,
    }
}

// The entry by numbers: where the part stands that `hops_of` returns.
#[tactic(auto, unfolding(crate::specs::HopsOf::span_of))]
pub fn span_of(
    side: u32,
    state: u32,
    shape1: Shape,
    hops1: &[u16],
    shape2: Shape,
    hops2: &[u16],
) -> Span
    ensures { result ≡
        span_of (chosen side state shape1 hops1.now shape2 hops2.now) state hops1.now hops2.now }
{
    match choose(side, state, shape1, hops1, shape2, hops2) {
        Some(Side::First) => span_in(hops1, state),
        Some(Side::Second) => span_in(hops2, state),
        None => NO_SPAN,
    }
}
