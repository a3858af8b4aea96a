// New numbers: "Representatives are renumbered 0, 1, 2 in ascending old order", and the map.
ghost use Rattle.std.specs.Prelude.{◌≡◌, ◌≤◌, length};
ghost use Rattle.base_bounded.specs.Quantifiers.{tabulate};
ghost use Rattle.base_outputs.specs.Output.{on_front};
ghost use Rattle.reduce_representatives.specs.Internal.Tables.{NewNumbers, new_number};

use super::NUMBERS;
use super::follow::{WalkTable, follow, is_fixed};
use graph::map::map_at;
use graph::{MOST_STATES, OldState};

// How many states below s lead to themselves, for each s up to one past the last: this is the new
// number of s where s is one of them, a representative.
pub fn new_numbers(next: &[u16; MOST_STATES]) -> [u16; NUMBERS]
    ensures { NewNumbers next.now result }
{
    let mut news = [0u16; NUMBERS];
    let mut found = 0u16;
    for s in 0..MOST_STATES {
        if is_fixed(next, OldState(s as u16)) {
            found += 1;
        }
        news[s + 1] = found;
    }
    news
}

// The map: each state has the new number of its representative. The table of next states comes by
// value: representatives are entered in it (path compression), so that no long walk is made twice.
pub fn fill_map(mut walks: WalkTable, news: &[u16], map: &mut [u16])
    requires numbers { walks.states ≤ length news.now }
    requires capacity { walks.states ≤ length map.old }
    ensures { map.new ≡ on_front (tabulate walks.states (new_number walks.next news.now walks.states)) map.old }
{
    for s in 0..walks.states {
        let old = OldState(s as u16);
        let rep = follow(&walks.next, walks.states, old);
        walks.compress_path(old, rep);
        map[s] = map_at(news, rep).0;
    }
}
