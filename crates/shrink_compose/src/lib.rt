// Composition of maps between graphs: if two maps have no fault by the audit's own count, neither
// has their composition.
// The law (proofs/Composed): if a map has no fault from graph 1 to graph 2, and another none from
// graph 2 to graph 3, one after the other has none from graph 1 to graph 3. The code composes two
// maps in place. It serves the repeated reduction.
// Uses `audit_entry` for what a count of 0 means, `lts` for maps that keep branching bisimilarity.
#![tactic(auto)]

ghost use Rattle.std.specs.Prelude.{◌≡◌, ◌≤◌, length};
ghost use Rattle.graph.specs.Answers.{most_states};
ghost use Rattle.shrink_compose.specs.Composed.{composed, identity_map};
ghost use Rattle.shrink_compose.specs.Internal.Composed.{Into};

use graph::OldState;
use graph::map::map_at;

// The map from a graph to itself.
pub fn put_identity(map: &mut [u16])
    requires { length map.old ≤ most_states }
    ensures { map.new ≡ identity_map (length map.old) }
{
    for (s, to) in map.iter_mut().enumerate() {
        *to = s as u16;
    }
}

// Puts the map `next` behind the map: what was a new state of the one is an old state of the other.
pub fn put_composed(map: &mut [u16], next: &[u16])
    requires few { length map.old ≤ most_states }
    requires into { Into map.old (length next.now) }
    ensures { map.new ≡ composed map.old next.now }
{
    for to in map.iter_mut() {
        *to = map_at(next, OldState(*to)).0;
    }
}
