// A hop list (transitions) and its table of first places as one value, with what is known of both:
// where the hops of a state begin and end, and where a hop stands. A hop is found by binary search
// among the hops of its own state only, and a state's hops with one label are a range of places.
// `Index` is of an ascending list, `Indexed` of an admitted graph, and `Marked` has a mark for each
// hop besides. The facts are ghost fields: who makes such a value proves them, and who gets one
// asks nothing. All three are a few references, and go by value.
// Uses `graph` for hops and the search, `graph_successors` for the table.
#![tactic(auto)]

ghost use Rattle.std.specs.Prelude.{◌≡◌, ◌+◌, ◌<◌, ◌≤◌, length};
ghost use Rattle.graph.specs.Hops.{count, has};
ghost use Rattle.graph.specs.Answers.{most_states};
ghost use Rattle.graph.specs.Search.{first_of};
ghost use Rattle.graph.specs.Internal.Search.{placed, labelled_from, labelled_past};
ghost use Rattle.graph_successors.specs.Internal.SuccessorIndex.{SuccessorIndex, Indexable};
ghost use Rattle.graph_check.specs.Check.{Admitted};
ghost use Rattle.graph_check.specs.Internal.Facts.{admitted_prop};
ghost use Rattle.graph_successors.specs.Internal.Facts.{indexable_prop, successor_index_prop};

use graph::hops::hop_of;
use graph::search::{find_between, is_at, lower_between};
use graph::tables::place_at;
use graph::{Hop, Label, Shape};
use graph_successors::STARTS;

// An ascending hop list, of either graph, and its table of first places.
#[derive(Clone, Copy)]
pub struct Index<'a> {
    pub hops: &'a [u16],
    pub starts: &'a [u16; STARTS],
    ghost ready: { Indexable hops.now } by { indexable_prop hops.now },
    ghost table: { SuccessorIndex hops.now starts.now } by { successor_index_prop hops.now starts.now },
}

// An admitted graph and its table of first places.
#[derive(Clone, Copy)]
pub struct Indexed<'a> {
    pub shape: Shape,
    pub index: Index<'a>,
    ghost admitted: { Admitted shape index.hops.now } by { admitted_prop shape index.hops.now },
}

// An index and a mark for each hop.
#[derive(Clone, Copy)]
pub struct Marked<'a> {
    pub index: Index<'a>,
    pub marks: &'a [u8],
    ghost capacity: { count index.hops.now ≤ length marks.now },
}

impl<'a> Index<'a> {
    // Where the hops of s begin.
    pub fn first(self, s: u16) -> usize
        requires { s < most_states }
        ensures { result ≡ first_of self.entry.hops.now s }
    {
        place_at(self.starts, usize::from(s))
    }

    // The place past the last hop of s.
    pub fn past(self, s: u16) -> usize
        requires { s < most_states }
        ensures is_next { result ≡ first_of self.entry.hops.now (s + 1) }
        ensures within { result ≤ count self.entry.hops.now }
    {
        place_at(self.starts, usize::from(s) + 1)
    }

    // Where the hop stands or would stand, searched for among the hops of its state.
    pub fn find(self, h: Hop) -> Result<usize, usize>
        requires { h.from < most_states }
        ensures { result ≡ placed self.entry.hops.now h }
    {
        find_between(self.hops, h, self.first(h.from), self.past(h.from))
    }

    // Whether s has a hop labelled a to t.
    pub fn leads_to(self, s: u16, a: Label, t: u16) -> bool
        requires { s < most_states }
        ensures { result ≡ has self.entry.hops.now s a.0 t }
    {
        is_at(self.find(hop_of(s, a.0, t)))
    }

    // Where the hops of s labelled a begin, searched for among those of s. The silent ones are the
    // first of these.
    pub fn first_labelled(self, s: u16, a: Label) -> usize
        requires { s < most_states }
        ensures { result ≡ labelled_from self.entry.hops.now s a.0 }
    {
        let first = self.first(s);
        if a.0 == 0 {
            return first;
        }
        lower_between(self.hops, hop_of(s, a.0, 0), first, self.past(s))
    }

    // The place past the last hop of s labelled a.
    pub fn past_labelled(self, s: u16, a: Label) -> usize
        requires state { s < most_states }
        requires label { a.0 < 65535 }
        ensures { result ≡ labelled_past self.entry.hops.now s a.0 }
    {
        self.first_labelled(s, Label(a.0 + 1))
    }
}
