// Bitsets propagated along marked silent (tau) hops: a state gets the bits of the states that it
// leads to, or of those that lead to it.
// A table has one 64-bit word a state, and each bit is a question of its own. `gather` takes to a
// state what all the states have that it leads to; `pass_once` passes bits along one marked hop,
// `pass_on` along walks of any length. Each is one pass over the silent hops in topological order,
// forwards or backwards: by the order, the bits passed on are complete by then, or still the old
// ones.
// Uses `base_bitset` for words as sets, `walk_topological_order` for the order, `mark_confluence`
// for the set that marks are. It decides nothing about a hop.
#![tactic(auto)]

ghost use Rattle.std.specs.Prelude.{◌≡◌, false, ◌<◌, ◌≤◌, length};
ghost use Rattle.graph.specs.Hops.{count};
ghost use Rattle.graph.specs.Answers.{most_states};
ghost use Rattle.graph_successors.specs.Internal.SuccessorIndex.{Indexable};
ghost use Rattle.graph_successors.specs.Internal.Facts.{indexable_prop};
ghost use Rattle.base_fixpoint.specs.Pairs.{In};
ghost use Rattle.lts.specs.Closes.{single, walks};
ghost use Rattle.mark_confluence.specs.Internal.MarkSet.{is_marked, mark_set};
ghost use Rattle.walk_topological_order.specs.Internal.TopologicalOrder.{TopologicalOrder};
ghost use Rattle.mark_batch_spread.specs.Internal.Spread.{SpreadBack, SpreadForth};
ghost use Rattle.mark_batch_spread.specs.Internal.Step.{is_back, spread_to, step_at, spread_over};

use graph::MOST_STATES;
use graph::hops::{from_at, to_at};

// The silent hops of a graph in topological order, which the passes go along: `sorted` has their
// places. `ordered` is the mere fact, since a ghost field is a proposition, and the order as it is
// defined names places; proofs/Order.antt finds them again.
#[derive(Clone, Copy)]
pub struct SilentHops<'a> {
    pub hops: &'a [u16],
    pub sorted: &'a [u16],
    ghost ready: { Indexable hops.now } by { indexable_prop hops.now },
    ghost ordered: { ∥ TopologicalOrder hops.now sorted.now (length sorted.now) ∥₁ },
}

// The silent hops of a graph and a mark for each of its hops.
#[derive(Clone, Copy)]
pub struct MarkedHops<'a> {
    pub silent: SilentHops<'a>,
    pub marks: &'a [u8],
    ghost capacity: { count silent.hops.now ≤ length marks.now },
}

// Whether the hop at place i is marked.
#[tactic(auto, unfolding(mark_confluence::specs::Internal::MarkSet::is_marked))]
fn marked_at(marks: &[u8], i: usize) -> bool
    requires { i < length marks.now }
    ensures { result ≡ is_marked marks.now i }
{
    marks[i] == 1
}

// State t gets the bits of s, too.
fn spread_to(words: &mut [u64; MOST_STATES], s: usize, t: usize)
    requires origin { s < most_states }
    requires receiver { t < most_states }
    ensures { words.new ≡ spread_to words.old s t }
{
    words[t] |= words[s];
}

// Which way a hop brings bits: back to where it begins, or forth to its end. What goes by it is
// inlined, so that no step asks.
#[derive(Clone, Copy)]
enum Way {
    Back,
    Forth,
}

// The hop at place i, if it is marked, brings the bits of one of its ends to the other.
#[inline(always)]
fn step(marked: MarkedHops, way: Way, i: usize, words: &mut [u64; MOST_STATES])
    requires { i < count marked.silent.hops.now }
    ensures { words.new ≡ step_at marked.entry.silent.hops.now marked.entry.marks.now (is_back way) i words.old }
{
    let hops = marked.silent.hops;
    if marked_at(marked.marks, i) {
        let from = usize::from(from_at(hops, i).0);
        let to = usize::from(to_at(hops, i).0);
        match way {
            Way::Back => spread_to(words, to, from),
            Way::Forth => spread_to(words, from, to),
        }
    }
}

// A step by each hop, in their order.
#[inline(always)]
fn pass(marked: MarkedHops, way: Way, words: &mut [u64; MOST_STATES])
    ensures { words.new ≡
        spread_over marked.entry.silent.hops.now marked.entry.marks.now marked.entry.silent.sorted.now
        (length marked.entry.silent.sorted.now) false (is_back way) words.old }
{
    for i in marked.silent.sorted {
        step(marked, way, usize::from(*i), words);
    }
}

// Each state gets the bits of the states that it leads to by walks of marked hops: one pass
// forwards, since in the order all hops that leave a hop's end come before it.
pub fn gather(marked: MarkedHops, words: &mut [u64; MOST_STATES])
    ensures { SpreadBack (In (mark_set marked.entry.silent.hops.now marked.entry.marks.now)) walks words.old words.new }
{
    pass(marked, Way::Back, words);
}

// Each state passes its bits to those that one marked hop leads to: one pass forwards, since in the
// order no hop into a state comes before one that leaves it.
pub fn pass_once(marked: MarkedHops, words: &mut [u64; MOST_STATES])
    ensures { SpreadForth (In (mark_set marked.entry.silent.hops.now marked.entry.marks.now)) single words.old words.new }
{
    pass(marked, Way::Forth, words);
}

// Each state passes its bits to all that it leads to by walks of marked hops: one pass backwards.
pub fn pass_on(marked: MarkedHops, words: &mut [u64; MOST_STATES])
    ensures { SpreadForth (In (mark_set marked.entry.silent.hops.now marked.entry.marks.now)) walks words.old words.new }
{
    let sorted = marked.silent.sorted;
    for k in (0..sorted.len()).rev() {
        step(marked, Way::Forth, usize::from(sorted[k]), words);
    }
}
