// The accessors of the flat hop list: the hop at a place, its numbers, and where these begin in the
// list.
// Other code reads and writes hops through these, but for the counting sort, which reads a column
// of the list (`TO_COLUMN`).
ghost use Rattle.std.specs.Prelude.{◌≡◌, ◌<◌, ◌≤◌};
ghost use Rattle.graph.specs.Hops.{count, whole, from, label, to, line_at, lined_hop, hop_of, hop_at, is, between, part_address, number_place};
ghost use Rattle.graph.specs.Internal.Hops.{put};
ghost use Rattle.graph.specs.Internal.Key.{number_by, number_by_at};
ghost use Rattle.graph.specs.Answers.{most_hops};

use super::order::is_same;
use super::{Hop, Key, Label, NUMBERS_A_HOP, NewState, OldState};

// How many hops the list holds.
pub fn hop_count(hops: &[u16]) -> usize
    ensures { result ≡ count hops.now }
{
    hops.len() / NUMBERS_A_HOP
}

// Whether the list holds whole hops only.
pub fn is_whole(hops: &[u16]) -> bool
    ensures { result ≡ whole hops.now }
{
    hops.len() % NUMBERS_A_HOP == 0
}

// Where the hop at a place begins, in numbers of the list.
pub fn number_place(i: usize) -> usize
    requires { i ≤ most_hops }
    ensures { result ≡ number_place i }
{
    NUMBERS_A_HOP * i
}

// The states and the label of a hop, by kind: old numbers in the graph that is read, new numbers in
// the short graph.
pub fn from_at(hops: &[u16], i: usize) -> OldState
    requires { i < count hops.now }
    ensures { result.0 ≡ from hops.now i }
{
    OldState(hops[NUMBERS_A_HOP * i])
}

pub fn label_at(hops: &[u16], i: usize) -> Label
    requires { i < count hops.now }
    ensures { result.0 ≡ label hops.now i }
{
    Label(hops[NUMBERS_A_HOP * i + 1])
}

pub fn to_at(hops: &[u16], i: usize) -> OldState
    requires { i < count hops.now }
    ensures { result.0 ≡ to hops.now i }
{
    OldState(hops[NUMBERS_A_HOP * i + 2])
}

// A twin by name: one generic function would need the kind at each call, `from_at::<OldState>(..)`.
pub fn new_from_at(hops: &[u16], i: usize) -> NewState
    requires { i < count hops.now }
    ensures { result.0 ≡ from hops.now i }
{
    NewState(hops[NUMBERS_A_HOP * i])
}

pub fn new_to_at(hops: &[u16], i: usize) -> NewState
    requires { i < count hops.now }
    ensures { result.0 ≡ to hops.now i }
{
    NewState(hops[NUMBERS_A_HOP * i + 2])
}

// The source line of a hop, 0 for none.
pub fn line_at(hops: &[u16], i: usize) -> u16
    requires { i < count hops.now }
    ensures { result ≡ line_at hops.now i }
{
    hops[NUMBERS_A_HOP * i + 3]
}

// The hop of four numbers: hops are made here and in hop_at, and nowhere else.
pub fn lined_hop(from: u16, label: u16, to: u16, line: u16) -> Hop
    ensures { result ≡ lined_hop from label to line }
{
    Hop {
        from,
        label,
        to,
        line,
    }
}

// The hop of three numbers and no line: what is sought.
pub fn hop_of(from: u16, label: u16, to: u16) -> Hop
    ensures { result ≡ hop_of from label to }
{
    lined_hop(from, label, to, 0)
}

// The whole hop, by bare numbers: of either graph.
pub fn hop_at(hops: &[u16], i: usize) -> Hop
    requires { i < count hops.now }
    ensures { result ≡ hop_at hops.now i }
{
    Hop {
        from: hops[NUMBERS_A_HOP * i],
        label: hops[NUMBERS_A_HOP * i + 1],
        to: hops[NUMBERS_A_HOP * i + 2],
        line: hops[NUMBERS_A_HOP * i + 3],
    }
}

// The number of a hop that is its key.
pub fn number_by(h: Hop, key: Key) -> u16
    ensures { result ≡ number_by key h }
{
    match key {
        Key::From => h.from,
        Key::Label => h.label,
        Key::To => h.to,
    }
}

// The key of the hop at a place. Its other numbers are not read.
pub fn number_by_at(hops: &[u16], i: usize, key: Key) -> u16
    requires { i < count hops.now }
    ensures { result ≡ number_by_at key hops.now i }
{
    match key {
        Key::From => from_at(hops, i).0,
        Key::Label => label_at(hops, i).0,
        Key::To => to_at(hops, i).0,
    }
}

// Whether the hop at the place is h.
pub fn is_hop_at(hops: &[u16], i: usize, h: Hop) -> bool
    requires { i < count hops.now }
    ensures { result ≡ is hops.now h.from h.label h.to i }
{
    is_same(hop_at(hops, i), h)
}

// Writes the hop at the place.
pub fn put_hop(hops: &mut [u16], i: usize, h: Hop)
    requires { i < count hops.old }
    ensures { hops.new ≡ put hops.old i h }
{
    hops[NUMBERS_A_HOP * i] = h.from;
    hops[NUMBERS_A_HOP * i + 1] = h.label;
    hops[NUMBERS_A_HOP * i + 2] = h.to;
    hops[NUMBERS_A_HOP * i + 3] = h.line;
}

// The hops from one place up to another, as a part of the list itself.
pub fn part<'a>(hops: &'a [u16], first: usize, past: usize) -> &'a [u16]
    requires rising { first ≤ past }
    requires within { past ≤ count hops.now }
    ensures shows { result.now ≡ between hops.now first past }
    ensures stands { result.ref_ptr ≡ part_address hops.entry first }
{
    let a = NUMBERS_A_HOP * first;
    let e = NUMBERS_A_HOP * past;
    &hops[a..e]
}
