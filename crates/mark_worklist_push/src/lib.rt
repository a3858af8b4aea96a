// Which marked hops go on the worklist for one pair of a hop s1, a, s3 and a fallen hop (one that
// lost its mark) s3 to s4.
// These are the marked hops from s1 to a state that has s4 by document 01's first point: it has a
// hop labelled a to s4, or a is silent (tau) and it is s4. They are found among s1's own silent
// hops (`push_out`) or by the hops into s4 (`push_into`). Each comes to the queue once, by a flag a
// hop. `mark_worklist_next` asks this for each such pair.
// Uses `graph_index` for the graph with its marks, `graph_predecessors` for the hops into a state,
// `graph_successors` to read where these begin, and `mark_confluence` for marks and document 01's
// first point.
#![tactic(auto)]

ghost use Rattle.std.specs.Prelude.{◌≡◌, ◌+◌, ◌<◌, ◌≤◌};
ghost use Rattle.graph.specs.Hops.{count, label};
ghost use Rattle.graph.specs.Answers.{most_states};
ghost use Rattle.graph_predecessors.specs.Internal.PredecessorIndex.{predecessor_start};
ghost use Rattle.mark_worklist_push.specs.Internal.Queue.{Tables, PlacesInto, Queue, Pushed, OnlyPlace, Joining, Like, AnsweredTo, Trying, Asked, DecidesPoint};
ghost use Rattle.mark_worklist_push.specs.Internal.Facts.{tables_prop};

use graph::hops::{from_at, hop_of, label_at, to_at};
use graph::tables::place_at;
use graph::{Label, MOST_HOPS, OldState};
use graph_index::{Index, Marked};
use graph_successors::STARTS;

// The worklist: the queue is the first `len` places, and a hop's flag says whether it is in it.
// The two arrays are lent, since the first round needs no flags.
#[derive(Drop)]
pub struct Worklist<'a> {
    pub flags: &'a mut [bool; MOST_HOPS],
    pub places: &'a mut [u16; MOST_HOPS],
    pub len: usize,
}

// A graph with its marks and its predecessor index: where the hops into each state begin among the
// places, and the places. It is a few references, and goes by value.
#[derive(Clone, Copy)]
pub struct Predecessors<'a> {
    pub marked: Marked<'a>,
    pub begins: &'a [u16; STARTS],
    pub places: &'a [u16; MOST_HOPS],
    ghost tables: { Tables marked.index.hops.now begins.now places.now } by { tables_prop marked.index.hops.now begins.now places.now },
}

impl<'a> Predecessors<'a> {
    // Where the hops into s begin among the places.
    pub fn begin(self, s: u16) -> usize
        requires { s < most_states }
        ensures is_begin { result ≡ predecessor_start self.entry.marked.index.hops.now s }
        ensures within { result ≤ count self.entry.marked.index.hops.now }
    {
        place_at(self.begins, usize::from(s))
    }

    // The place past the last hop into s.
    pub fn end(self, s: u16) -> usize
        requires { s < most_states }
        ensures is_next { result ≡ predecessor_start self.entry.marked.index.hops.now (s + 1) }
        ensures within { result ≤ count self.entry.marked.index.hops.now }
    {
        place_at(self.begins, usize::from(s) + 1)
    }

    // The places of the hops into s.
    pub fn hops_into(self, s: u16) -> &'a [u16]
        requires { s < most_states }
        ensures { PlacesInto self.entry.marked.index.hops.now s result.now }
    {
        let places = self.places;
        &places[self.begin(s)..self.end(s)]
    }
}

impl<'a> Worklist<'a> {
    // Pushes the silent hop at place i if it is marked and not in the queue yet.
    fn push(&mut self, graph: Marked<'_>, i: usize)
        requires queue { Queue graph.index.hops.now self.old }
        requires place { i < count graph.index.hops.now }
        requires silent { label graph.index.hops.now i ≡ 0 }
        ensures { Pushed graph.entry.index.hops.now graph.entry.marks.now (OnlyPlace i) self.old self.new }
    {
        if graph.marks[i] != 1 {
            return;
        }
        if self.flags[i] {
            return;
        }
        self.flags[i] = true;
        self.places[self.len] = i as u16;
        self.len += 1;
    }
}

// Pushes the silent hop from s1 to s2.
fn push_pair(graph: Marked<'_>, worklist: &mut Worklist<'_>, s1: OldState, s2: OldState)
    requires queue { Queue graph.index.hops.now worklist.old }
    requires state { s1.0 < most_states }
    ensures { Pushed graph.entry.index.hops.now graph.entry.marks.now
        (Joining graph.entry.index.hops.now s1.0 s2.0) worklist.old worklist.new }
{
    if let Ok(i) = graph.index.find(hop_of(s1.0, 0, s2.0)) {
        worklist.push(graph, i);
    }
}

// Pushes the silent hop from where the hop at place j begins to where the one at place m begins, if
// the two have the same label.
fn push_like(graph: Marked<'_>, worklist: &mut Worklist<'_>, j: usize, m: usize)
    requires queue { Queue graph.index.hops.now worklist.old }
    requires tried { j < count graph.index.hops.now }
    requires answer { m < count graph.index.hops.now }
    ensures { Pushed graph.entry.index.hops.now graph.entry.marks.now
        (Like graph.entry.index.hops.now j m) worklist.old worklist.new }
{
    let hops = graph.index.hops;
    if label_at(hops, m) == label_at(hops, j) {
        push_pair(graph, worklist, from_at(hops, j), from_at(hops, m));
    }
}

// Pushes s1's silent hops to states that have a hop to s4 with the label of the hop at place j,
// which leaves s1: each hop into s4 is asked.
fn push_answers(graph: Predecessors<'_>, worklist: &mut Worklist<'_>, j: usize, p: usize)
    requires queue { Queue graph.marked.index.hops.now worklist.old }
    requires tried { j < count graph.marked.index.hops.now }
    requires fallen { p < count graph.marked.index.hops.now }
    ensures { Pushed graph.entry.marked.index.hops.now graph.entry.marked.marks.now
        (AnsweredTo graph.entry.marked.index.hops.now j p) worklist.old worklist.new }
{
    let s4 = to_at(graph.marked.index.hops, p);
    for &k in graph.hops_into(s4.0) {
        push_like(graph.marked, worklist, j, usize::from(k));
    }
}

// The same, with the silent hop to s4 itself where the hop to try is silent.
pub fn push_into(graph: Predecessors<'_>, worklist: &mut Worklist<'_>, j: usize, p: usize)
    requires queue { Queue graph.marked.index.hops.now worklist.old }
    requires tried { j < count graph.marked.index.hops.now }
    requires fallen { p < count graph.marked.index.hops.now }
    ensures { Pushed graph.entry.marked.index.hops.now graph.entry.marked.marks.now
        (Trying graph.entry.marked.index.hops.now j p) worklist.old worklist.new }
{
    push_answers(graph, worklist, j, p);
    let hops = graph.marked.index.hops;
    if label_at(hops, j).0 == 0 {
        push_pair(graph.marked, worklist, from_at(hops, j), to_at(hops, p));
    }
}

// Whether s4 is an s4 of s2 for a hop labelled a: document 01's first point.
fn is_point(index: Index<'_>, s2: OldState, a: Label, s4: OldState) -> bool
    requires { s2.0 < most_states }
    ensures { DecidesPoint index.entry.hops.now s2.0 a.0 s4.0 result }
{
    if a.0 == 0 && s4 == s2 {
        return true;
    }
    index.leads_to(s2.0, a, s4.0)
}

// Pushes the silent hop at place i if it is marked and not in the queue yet, and the end of the one
// at p is an s4 of its end for the label of the one at j.
fn push_answered(graph: Marked<'_>, worklist: &mut Worklist<'_>, i: usize, j: usize, p: usize)
    requires queue { Queue graph.index.hops.now worklist.old }
    requires place { i < count graph.index.hops.now }
    requires silent { label graph.index.hops.now i ≡ 0 }
    requires tried { j < count graph.index.hops.now }
    requires fallen { p < count graph.index.hops.now }
    ensures { Pushed graph.entry.index.hops.now graph.entry.marks.now
        (Asked graph.entry.index.hops.now j p i) worklist.old worklist.new }
{
    if graph.marks[i] != 1 {
        return;
    }
    if worklist.flags[i] {
        return;
    }
    let hops = graph.index.hops;
    if is_point(
        graph.index,
        to_at(hops, i),
        label_at(hops, j),
        to_at(hops, p),
    ) {
        worklist.push(graph, i);
    }
}

// As `push_into`, each silent hop of s1 asked.
pub fn push_out(graph: Marked<'_>, worklist: &mut Worklist<'_>, j: usize, p: usize)
    requires queue { Queue graph.index.hops.now worklist.old }
    requires tried { j < count graph.index.hops.now }
    requires fallen { p < count graph.index.hops.now }
    ensures { Pushed graph.entry.index.hops.now graph.entry.marks.now
        (Trying graph.entry.index.hops.now j p) worklist.old worklist.new }
{
    let s1 = from_at(graph.index.hops, j);
    for i in graph.index.first(s1.0)..graph.index.past_labelled(s1.0, Label(0)) {
        push_answered(graph, worklist, i, j, p);
    }
}
