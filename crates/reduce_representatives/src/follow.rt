// Where the first marked hop of each state leads, and the representative that these hops lead to.
// Path compression: a walk writes the representative into the table for every state that it passed,
// so that later walks go from these states straight to it.
ghost use Rattle.std.specs.Prelude.{◌≡◌, ◌<◌, ◌≤◌, length};
ghost use Rattle.graph.specs.Hops.{count, from};
ghost use Rattle.graph.specs.Answers.{most_states};
ghost use Rattle.mark_confluence.specs.Internal.MarkSet.{mark_set};
ghost use Rattle.reduce_representatives.specs.Internal.Tables.{Marks, IdentityTable, FromIn, NextTable};
ghost use Rattle.reduce_representatives.specs.Internal.Tables.{ClosedTable, TerminatingTable, Compressed};
ghost use Rattle.reduce_representatives.specs.Internal.Tables.{with_next, is_fixed, table_steps};
ghost use Rattle.reduce_representatives.specs.Internal.Facts.{closed_table_prop};

use graph::hops::{from_at, hop_count, to_at};
use graph::{MOST_STATES, OldState};

// A table by which all walks end: it leads from the first `states` states to these only, and a rank
// falls along it. `terminating` is the mere fact that there is one, since a rank is no proposition,
// which a ghost field has to be.
#[derive(Drop)]
pub struct WalkTable {
    pub next: [u16; MOST_STATES],
    pub states: usize,
    ghost few: { states ≤ most_states },
    ghost closed: { ClosedTable states next } by { closed_table_prop states next },
    ghost terminating: { ∥ TerminatingTable states next ∥₁ },
}

// A table that leads from each state to itself.
#[tactic(auto, unfolding(crate::specs::Internal::Tables::IdentityTable))]
fn identity_table() -> [u16; MOST_STATES]
    ensures { IdentityTable result }
{
    let mut next = [0u16; MOST_STATES];
    for (s, to) in next.iter_mut().enumerate() {
        *to = s as u16;
    }
    next
}

// Enters the hop at the place, if it is marked, as the first of its state.
#[tactic(auto, unfolding(crate::specs::Internal::Tables::with_next, mark_confluence::specs::Internal::MarkSet::is_marked))]
fn enter(hops: &[u16], marks: &[u8], next: &mut [u16; MOST_STATES], i: usize)
    requires inside { i < count hops.now }
    requires marked { i < length marks.now }
    requires tabled { from hops.now i < most_states }
    ensures { next.new ≡ with_next hops.now marks.now i next.old }
{
    if marks[i] == 1 {
        next[usize::from(from_at(hops, i).0)] = to_at(hops, i).0;
    }
}

// The table: the hops are entered from the last to the first, so that the first stands.
pub fn next_states(hops: &[u16], marks: &[u8]) -> [u16; MOST_STATES]
    requires marks { Marks hops.now (mark_set hops.now marks.now) marks.now }
    requires tabled { FromIn hops.now }
    ensures { NextTable hops.now (mark_set hops.now marks.now) result }
{
    let mut next = identity_table();
    for i in (0..hop_count(hops)).rev() {
        enter(hops, marks, &mut next, i);
    }
    next
}

// Whether the table leads from s to s.
#[tactic(auto, unfolding(crate::specs::Internal::Tables::is_fixed))]
pub fn is_fixed(next: &[u16; MOST_STATES], s: OldState) -> bool
    requires { s.0 < most_states }
    ensures { result ≡ is_fixed next.now s.0 }
{
    next[usize::from(s.0)] == s.0
}

// The state that s comes to within as many steps as there are states.
// It goes along the table's 16-bit numbers, where `OldState(..)` and `.0` would say nothing more.
// It asks less than a `WalkTable`: walks by the table need not end.
pub fn follow(next: &[u16; MOST_STATES], states: usize, s: OldState) -> OldState
    requires inside { s.0 < states }
    requires few { states ≤ most_states }
    requires closed { ClosedTable states next.now }
    ensures { result.0 ≡ table_steps next.now states s.0 }
{
    let mut at = s.0;
    for _step in 0..states {
        let to = next[usize::from(at)];
        if to == at {
            break;
        }
        at = to;
    }
    OldState(at)
}

// Walks from s to its representative, and enters it for every state on the way.
// It asks less than a `WalkTable`, which owns its table: this one is lent.
pub fn compress_path(next: &mut [u16; MOST_STATES], states: usize, s: OldState, rep: OldState)
    requires inside { s.0 < states }
    requires few { states ≤ most_states }
    requires closed { ClosedTable states next.old }
    requires terminating { ∥ TerminatingTable states next.old ∥₁ }
    requires rep { rep.0 ≡ table_steps next.old states s.0 }
    ensures { Compressed states next.old next.new }
{
    let mut at = s.0;
    for _passed in 0..states {
        let i = usize::from(at);
        let to = next[i];
        if to == rep.0 {
            break;
        }
        next[i] = rep.0;
        at = to;
    }
}

impl WalkTable {
    // Walks from s to its representative, and enters it for every state on the way.
    pub fn compress_path(&mut self, s: OldState, rep: OldState)
        requires inside { s.0 < self.old.states }
        requires rep { rep.0 ≡ table_steps self.old.next self.old.states s.0 }
        ensures states { self.new.states ≡ self.old.states }
        ensures compressed { Compressed self.old.states self.old.next self.new.next }
    {
        compress_path(&mut self.next, self.states, s, rep);
    }
}
