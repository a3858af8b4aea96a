// The silent hops as a chosen set: a flag for each hop, true where it is silent.
ghost use Rattle.std.specs.Prelude.{◌≤◌};
ghost use Rattle.graph.specs.Hops.{count};
ghost use Rattle.graph.specs.Answers.{most_hops};
ghost use Rattle.walk_reach.specs.Internal.Reach.{Chooses};
ghost use Rattle.walk_silent.specs.Silent.{silent_at};

use graph::MOST_HOPS;
use graph::hops::{hop_count, label_at};

// The flags of all hops.
pub fn silent_flags(hops: &[u16]) -> [bool; MOST_HOPS]
    requires { count hops.now ≤ most_hops }
    ensures { Chooses hops.now (silent_at hops.now) result }
{
    let mut flags = [false; MOST_HOPS];
    for i in 0..hop_count(hops) {
        flags[i] = label_at(hops, i).0 == 0;
    }
    flags
}
