// The marked set: the greatest tau-confluent set of silent (tau) hops in the strong sense (R1),
// which is the greatest solution of RR-7000's equations X, Y and Z.
// Document 01's condition, the equations and the rounds are defined here; the rounds are those of
// `base_fixpoint`, applied to `closes`. The set that a list of marks stands for, and the marks that
// marking begins with, are here too. `mark_diamond` decides the condition for one hop,
// `mark_sweeps` and `mark_worklist_loop` compute the set, `mark_equations` answers the equations
// for one hop.
// Uses `base_fixpoint` for the greatest fixpoint, `graph` for hops, `base_outputs` for what is
// written.
#![tactic(auto)]

ghost use Rattle.std.specs.Prelude.{◌≡◌, ◌≤◌, length};
ghost use Rattle.base_outputs.specs.Output.{on_front};
ghost use Rattle.graph.specs.Hops.{count};
ghost use Rattle.mark_confluence.specs.Marks.{marks_of};
ghost use Rattle.mark_confluence.specs.Internal.MarkSet.{every_pair};

use graph::hops::{hop_count, label_at};

// 1 for each silent hop, 0 for each visible one.
pub fn start_marks(hops: &[u16], marks: &mut [u8])
    requires { count hops.now ≤ length marks.old }
    ensures { marks.new ≡ on_front (marks_of hops.now every_pair) marks.old }
{
    for i in 0..hop_count(hops) {
        marks[i] = u8::from(label_at(hops, i).0 == 0);
    }
}
