// Which marked hops keep their marks by two bitset tables: those where every bit of the hop's start
// in one table is a bit of its end in the other.
// In the weaker senses a bit is a hop tried: `froms` has it at the state where that hop begins,
// `answers` at those where it is answered (`mark_batch_tables`). What the bits mean does not matter
// here.
// Uses `base_bitset` for words as sets and `graph` for hops.
#![tactic(auto)]

ghost use Rattle.std.specs.Prelude.{◌≡◌, cond, ◌<◌, ◌≤◌, length, set};
ghost use Rattle.graph.specs.Hops.{count};
ghost use Rattle.graph_successors.specs.Internal.SuccessorIndex.{Indexable};
ghost use Rattle.mark_batch_filter.specs.Internal.Filtered.{fits, fails, Filtered};

use base_bitset::holds;
use graph::MOST_STATES;
use graph::hops::{hop_at, hop_count};

// The two tables: the bits that a state asks for if a hop begins there, and those that answer them
// if it ends there.
#[derive(Clone, Copy)]
pub struct Tables<'a> {
    pub froms: &'a [u64; MOST_STATES],
    pub answers: &'a [u64; MOST_STATES],
}

// Whether every bit of where the hop at place i begins is where it ends.
fn fits_at(hops: &[u16], tables: Tables, i: usize) -> bool
    requires ready { Indexable hops.now }
    requires place { i < count hops.now }
    ensures { result ≡ fits hops.now tables.entry.froms.now tables.entry.answers.now i }
{
    let h = hop_at(hops, i);
    holds(
        tables.answers[usize::from(h.to)],
        tables.froms[usize::from(h.from)],
    )
}

// Whether the hop at place i is marked and does not fit.
#[tactic(auto, unfolding(mark_confluence::specs::Internal::MarkSet::is_marked))]
fn fails_at(hops: &[u16], marks: &[u8], tables: Tables, i: usize) -> bool
    requires ready { Indexable hops.now }
    requires capacity { count hops.now ≤ length marks.now }
    requires place { i < count hops.now }
    ensures { result ≡ fails hops.now marks.now tables.entry.froms.now tables.entry.answers.now i }
{
    marks[i] == 1 && !fits_at(hops, tables, i)
}

// Every marked hop that does not fit loses its mark; returns how many marks went.
pub fn filter(hops: &[u16], marks: &mut [u8], tables: Tables) -> usize
    requires ready { Indexable hops.now }
    requires capacity { count hops.now ≤ length marks.old }
    ensures { Filtered hops.now marks.old tables.entry.froms.now tables.entry.answers.now marks.new result }
{
    let mut lost = 0;
    for i in 0..hop_count(hops) {
        if fails_at(hops, marks, tables, i) {
            marks[i] = 0;
            lost += 1;
        }
    }
    lost
}
