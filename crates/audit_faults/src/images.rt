// Where the hops of graph 1 stand in graph 2 once they are mapped: each is looked up once, and a
// table keeps its place.
ghost use Rattle.std.specs.Prelude.{◌≡◌, ◌<◌};
ghost use Rattle.graph.specs.Hops.{count};
ghost use Rattle.graph_successors.specs.Internal.SuccessorIndex.{SuccessorIndex};
ghost use Rattle.audit_faults.specs.Internal.Images.{image_of, Imaged};
ghost use Rattle.audit_faults.specs.Internal.Facts.{imaged_prop};

use super::mapped::Mapped;
use graph::MOST_HOPS;
use graph::hops::hop_count;
use graph_index::Index;
use graph_successors::STARTS;

// The place of a hop that graph 2 has not: one past all that can be. The table has places in 16
// bits, and `Option<u16>` would make it twice as long.
pub const NO_PLACE: usize = MOST_HOPS;

// Two graphs and a map, and the table of these places.
#[derive(Clone, Copy)]
pub struct Located<'a> {
    pub mapped: Mapped<'a>,
    pub images: &'a [u16; MOST_HOPS],
    ghost imaged: { Imaged mapped.hops1.now mapped.hops2.now mapped.map.now images.now } by { imaged_prop _ _ _ _ },
}

// The place in graph 2 of the hop at place i of graph 1.
fn image_at(mapped: Mapped<'_>, starts2: &[u16; STARTS], i: usize) -> u16
    requires table { SuccessorIndex mapped.hops2.now starts2.now }
    requires place { i < count mapped.hops1.now }
    ensures { result ≡ image_of mapped.entry.hops1.now mapped.entry.hops2.now mapped.entry.map.now i }
{
    let index2 = Index {
        hops: mapped.hops2,
        starts: starts2,
    };
    match index2.find(mapped.hop(i)) {
        Ok(p) => p as u16,
        Err(_) => NO_PLACE as u16,
    }
}

// Fills the table: a place for each hop of graph 1, by the table of first places of graph 2. It is
// lent, since a returned one would stand on the stack twice.
pub fn put_images(mapped: Mapped<'_>, starts2: &[u16; STARTS], images: &mut [u16; MOST_HOPS])
    requires { SuccessorIndex mapped.hops2.now starts2.now }
    ensures { Imaged mapped.entry.hops1.now mapped.entry.hops2.now mapped.entry.map.now images.new }
{
    for i in 0..hop_count(mapped.hops1) {
        images[i] = image_at(mapped, starts2, i);
    }
}
