// Reachability along a chosen set of hops (transitions): which states a state leads to by zero or
// more of them.
// A breadth-first search with a queue over the successor index. The set is one flag a hop, true
// where the hop is chosen; the answer is one flag a state, true where the state is reached. That it
// finds exactly what walks of any length reach is proved here once, for every set.
// Uses `graph_index` for the hops of a state, `lts` for the closure of a relation.
#![tactic(auto)]

ghost use Rattle.std.specs.Prelude.{◌≡◌, false, ◌++◌, ◌<◌, ◌≤◌, length, drop};
ghost use Rattle.graph.specs.Hops.{count};
ghost use Rattle.walk_reach.specs.Internal.Reach.{chosen_in};
ghost use Rattle.walk_reach.specs.Internal.Frontier.{visited, reached_flags, seen_with, queue_with, tail_with, Space, SameSpace, Frontier, Expanded};

use graph::OldState;
use graph::hops::to_at;
use graph_index::Indexed;

// What the search has reached so far: a flag a state, and the states flagged as a queue, which ends
// at `tail`. Both are lent.
#[derive(Drop)]
struct Reached<'a> {
    seen: &'a mut [bool],
    queue: &'a mut [u16],
    tail: usize,
}

impl<'a> Reached<'a> {
    // Visits t and puts it at the queue's end, unless it is visited already.
    #[tactic(auto, unfolding(crate::specs::Internal::Frontier::visited))]
    fn visit(&mut self, t: OldState)
        requires state { t.0 < length self.old.seen.now }
        requires capacity { visited self.old.seen.now t.0 ≡ false → self.old.tail < length self.old.queue.now }
        ensures space { SameSpace self.old self.new }
        ensures seen { self.new.seen.now ≡ seen_with self.old.seen.now t.0 }
        ensures queue { self.new.queue.now ≡ queue_with self.old.seen.now self.old.queue.now self.old.tail t.0 }
        ensures tail { self.new.tail ≡ tail_with self.old.seen.now self.old.tail t.0 }
    {
        let at = usize::from(t.0);
        if self.seen[at] {
            return;
        }
        self.seen[at] = true;
        self.queue[self.tail] = t.0;
        self.tail += 1;
    }

    // Visits the ends of all chosen hops of v.
    fn expand(&mut self, graph: Indexed<'_>, chosen: &[bool], v: OldState)
        requires flags { count graph.index.hops.now ≤ length chosen.now }
        requires state { v.0 < graph.shape.states }
        requires front { Frontier graph.shape.states self.old.seen.now self.old.queue.now self.old.tail }
        ensures space { SameSpace self.old self.new }
        ensures visits { Expanded graph.entry.index.hops.now (chosen_in chosen.now) graph.entry.shape.states v.0
            self.old.seen.now self.old.queue.now self.old.tail self.new.seen.now self.new.queue.now self.new.tail }
    {
        for i in graph.index.first(v.0)..graph.index.past(v.0) {
            let is_chosen = chosen[i];
            if is_chosen {
                self.visit(to_at(graph.index.hops, i));
            }
        }
    }
}

// The states that s leads to: afterwards a state's flag is true if s leads to it along chosen hops,
// and false if not. The queue is working space.
pub fn reach(graph: Indexed<'_>, chosen: &[bool], s: OldState, seen: &mut [bool], queue: &mut [u16])
    requires flags { count graph.index.hops.now ≤ length chosen.now }
    requires state { s.0 < graph.shape.states }
    requires space { Space graph.shape.states seen.old queue.old }
    ensures { seen.new ≡
        reached_flags graph.entry.index.hops.now (chosen_in chosen.now) graph.entry.shape.states s.0
        ++ drop graph.entry.shape.states seen.old }
{
    seen[..graph.shape.states as usize].fill(false);
    let mut reached = Reached {
        seen,
        queue,
        tail: 0,
    };
    reached.visit(s);
    let mut head = 0;
    // `while`: the queue grows while it is read.
    while head < reached.tail {
        let v = OldState(reached.queue[head]);
        reached.expand(graph, chosen, v);
        head += 1;
    }
}
