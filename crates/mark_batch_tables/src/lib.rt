// Bitset tables of up to 64 hops (transitions) tried together: at which states they begin and end,
// which labels they have, and which states answer them.
// For the weaker senses. Bit b of a word stands for the hop at place base + b, so that one
// operation serves 64 hops tried. The tables have one word a state or a label: `put_keys` for where
// the hops tried begin or end or for their labels, `put_answers` for the states that answer. How
// bits are propagated along marked hops in between, and which marks are then taken, does not matter
// here.
// Uses `base_bitset` for words as sets and `graph` for hops.
#![tactic(auto)]

ghost use Rattle.std.specs.Prelude.{◌≡◌, ◌+◌, ◌<◌, ◌≤◌, ◌^◌, get_or, set, replicate};
ghost use Rattle.std.specs.Int.Bits.{bit_or};
ghost use Rattle.graph.specs.Hops.{count};
ghost use Rattle.graph.specs.Answers.{most_states};
ghost use Rattle.graph.specs.Internal.Key.{number_by_at};
ghost use Rattle.graph_check.specs.Check.{Admitted};
ghost use Rattle.base_bitset.specs.Internal.Bits.{word_bits};
ghost use Rattle.mark_batch_tables.specs.Internal.BatchTables.{KeyTable, StayTable, AnswerTable};

use base_bitset::bit_of;
use graph::hops::{hop_at, hop_count, number_by_at};
use graph::{Key, MOST_LABELS, MOST_STATES, Shape};

// No bit anywhere.
pub fn clear(words: &mut [u64; MOST_STATES])
    ensures { words.new ≡ replicate most_states 0 }
{
    words.fill(0);
}

// Bit b at s, besides what the table has.
fn put_bit(words: &mut [u64; MOST_STATES], s: u16, b: usize)
    requires state { s < most_states }
    requires bit { b < word_bits }
    ensures { words.new ≡ set words.old s (bit_or (get_or words.old s 0) (2 ^ b)) }
{
    words[usize::from(s)] |= bit_of(b);
}

// A batch of hops tried together: the m hops from place `base` on, a bit each.
#[derive(Clone, Copy)]
pub struct Batch {
    pub base: usize,
    pub m: usize,
    ghost few: { m ≤ word_bits },
}

// Bit b at the key of hop b of the batch, for each of its hops, in a table that has no bit yet: who
// has just made it need not clear it. A label is a key as a state is: there are as many labels at
// most as states.
pub fn put_keys(shape: Shape, hops: &[u16], key: Key, batch: Batch, words: &mut [u64; MOST_STATES])
    requires admitted { Admitted shape hops.now }
    requires within { batch.base + batch.m ≤ count hops.now }
    requires empty { words.old ≡ replicate most_states 0 }
    ensures { KeyTable (number_by_at key hops.now) batch.base batch.m words.new }
{
    for b in 0..batch.m {
        put_bit(words, number_by_at(hops, batch.base + b, key), b);
    }
}

// Who answers by staying: a state that has a bit itself, where the silent label has it.
fn put_stay(labels: &[u64; MOST_LABELS], ends: &[u64; MOST_STATES], out: &mut [u64; MOST_STATES])
    ensures { StayTable labels.now ends.now out.new }
{
    let silent = labels[0];
    for (s, word) in out.iter_mut().enumerate() {
        *word = ends[s] & silent;
    }
}

// Who answers by a hop or by staying.
pub fn put_answers(
    shape: Shape,
    hops: &[u16],
    labels: &[u64; MOST_LABELS],
    ends: &[u64; MOST_STATES],
    out: &mut [u64; MOST_STATES],
)
    requires { Admitted shape hops.now }
    ensures { AnswerTable hops.now labels.now ends.now out.new }
{
    put_stay(labels, ends, out);
    for i in 0..hop_count(hops) {
        let h = hop_at(hops, i);
        out[usize::from(h.from)] |= ends[usize::from(h.to)] & labels[usize::from(h.label)];
    }
}
