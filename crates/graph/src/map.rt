// A map from the states of one graph to those of another, as a list: the code above asks here.
ghost use Rattle.std.specs.Prelude.{◌≡◌, ◌<◌, length};
ghost use Rattle.graph.specs.Map.{mapped};

use super::{NewState, OldState};

// The way from an old number to a new one. (`shrink_compose` and `mark_batch_tables` each have a
// place that turns one number into another without it: docs/DECISIONS.md, "Types".)
pub fn map_at(map: &[u16], s: OldState) -> NewState
    requires { s.0 < length map.now }
    ensures { result.0 ≡ mapped map.now s.0 }
{
    NewState(map[usize::from(s.0)])
}
