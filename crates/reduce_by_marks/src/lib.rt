// The reduction along given marks: the map and the short graph (quotient) of a graph whose marked
// silent (tau) hops make no cycle, whoever marked them.
// It is `reduce` without its checks and its marking, so that another marking, another sense of
// confluence or a repetition can use it. It checks nothing and requires no confluence: what the
// short graph means is stated where the marks are known.
// Uses `reduce_representatives` for the map and `reduce_short_graph` for the short hops.
#![tactic(auto)]

ghost use Rattle.std.specs.Prelude.{◌≡◌, ◌<◌, ◌≤◌, length};
ghost use Rattle.graph.specs.Answers.{most_states};
ghost use Rattle.graph_check.specs.Check.{Admitted};
ghost use Rattle.mark_confluence.specs.Internal.MarkSet.{mark_set};
ghost use Rattle.reduce_representatives.specs.Internal.Representative.{Terminating};
ghost use Rattle.reduce_representatives.specs.Internal.Tables.{SilentMarks};
ghost use Rattle.reduce_by_marks.specs.Internal.ByMarks.{shape_by, short_graph, map_after, short_after};

use graph::map::map_at;
use graph::{OldState, Shape};
use reduce_representatives::NUMBERS;
use reduce_representatives::follow::{WalkTable, next_states};
use reduce_representatives::renumber::{fill_map, new_numbers};
use reduce_short_graph::shorten::shorten;

// The short graph besides its hops, and how many these are.
#[derive(Clone, Copy)]
pub struct ShortGraph {
    pub shape: Shape,
    pub hops: usize,
}

// The counts and the initial state of the short graph, by the tables.
fn short_shape(shape: Shape, news: &[u16; NUMBERS], map: &[u16]) -> Shape
    requires few { shape.states ≤ most_states }
    requires inside { shape.initial < shape.states }
    requires mapped { shape.states ≤ length map.now }
    ensures { result ≡ shape_by shape news.now map.now }
{
    Shape {
        states: u32::from(news[shape.states as usize]),
        labels: shape.labels,
        initial: u32::from(map_at(map, OldState(shape.initial as u16)).0),
    }
}

// The map and the short hops at the outputs' fronts; returns what the short graph has besides.
pub fn reduce_marked(
    shape: Shape,
    hops: &[u16],
    marks: &[u8],
    map: &mut [u16],
    short: &mut [u16],
) -> ShortGraph
    requires admitted { Admitted shape hops.now }
    requires terminating { Terminating shape hops.now (mark_set hops.now marks.now) }
    requires marks { SilentMarks hops.now marks.now }
    requires map_capacity { shape.states ≤ length map.old }
    requires short_capacity { length hops.now ≤ length short.old }
    ensures returned { result ≡ short_graph shape hops.now (mark_set hops.now marks.now) }
    ensures mapped { map.new ≡ map_after shape hops.now marks.now map.old }
    ensures shortened { short.new ≡ short_after shape hops.now marks.now short.old }
{
    let next = next_states(hops, marks);
    let news = new_numbers(&next);
    let walks = WalkTable {
        next,
        states: shape.states as usize,
    };
    fill_map(walks, &news, map);
    let n = shorten(hops, &next, map, short);
    ShortGraph {
        shape: short_shape(shape, &news, map),
        hops: n,
    }
}
