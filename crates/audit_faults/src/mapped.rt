// Two graphs and a map from the states of the first to those of the second, as one value: what the
// audit counts over. What it has to know of them is a ghost field, so who gets one asks nothing.
ghost use Rattle.std.specs.Prelude.{◌≡◌, ◌<◌};
ghost use Rattle.graph.specs.Hops.{count};
ghost use Rattle.graph.specs.Map.{mapped};
ghost use Rattle.graph.specs.Answers.{most_states};
ghost use Rattle.audit_faults.specs.Internal.Images.{Auditable, mapped_hop};
ghost use Rattle.audit_faults.specs.Internal.Facts.{auditable_prop};

use graph::hops::{from_at, hop_of, label_at, to_at};
use graph::map::map_at;
use graph::{Hop, NewState, OldState, Shape};

// Graph 1, the hops of graph 2, and the map.
#[derive(Clone, Copy)]
pub struct Mapped<'a> {
    pub shape1: Shape,
    pub hops1: &'a [u16],
    pub hops2: &'a [u16],
    pub map: &'a [u16],
    ghost auditable: { Auditable shape1 hops1.now hops2.now map.now } by { auditable_prop _ _ _ _ },
}

impl<'a> Mapped<'a> {
    // Where the state s is mapped to.
    pub fn image(self, s: OldState) -> NewState
        requires { s.0 < self.shape1.states }
        ensures maps { result.0 ≡ mapped self.entry.map.now s.0 }
        ensures few { result.0 < most_states }
    {
        map_at(self.map, s)
    }

    // What the hop at place i of graph 1 is in graph 2: map(s), a, map(t).
    pub fn hop(self, i: usize) -> Hop
        requires { i < count self.hops1.now }
        ensures maps { result ≡ mapped_hop self.entry.hops1.now self.entry.map.now i }
        ensures few { result.from < most_states }
    {
        let r = self.image(from_at(self.hops1, i));
        let q = self.image(to_at(self.hops1, i));
        hop_of(r.0, label_at(self.hops1, i).0, q.0)
    }
}
