// What a sweep needs: an admitted graph, its silent hops in topological order, and the sense.
ghost use Rattle.graph_check.specs.Check.{Admitted};
ghost use Rattle.graph_check.specs.Internal.Facts.{admitted_prop};

use graph::Shape;
use mark_batch_spread::SilentHops;
use mark_senses::Sense;

#[derive(Clone, Copy)]
pub struct SweepInput<'a> {
    pub shape: Shape,
    pub silent: SilentHops<'a>,
    pub sense: Sense,
    ghost admitted: { Admitted shape silent.hops.now } by { admitted_prop shape silent.hops.now },
}
