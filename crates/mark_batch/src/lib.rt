// One batch of the marking by the weaker senses: at most 64 hops (transitions), one bit each, are
// tried against every marked hop of their states, and the marked hops that fail lose their marks.
// Bitset tables hold which states close the batch's ends, which lead there, which answer by a hop,
// and which lead to these. Of the marking by batches only this crate looks at the sense. A mark
// that goes is not of the marked set, since its hop fails even with a larger set. It also records
// which states the batch touched, as a hint of which nothing is proved.
// Uses `mark_senses` for what is marked, `mark_removal` for what marks keep under removal, for any
// condition, and `mark_batch_spread`, `mark_batch_tables` and `mark_batch_filter` for the steps.
#![tactic(auto)]

pub mod input; // input.rt: what a sweep needs

ghost use Rattle.std.specs.Prelude.{◌≡◌, ◌+◌, ◌-◌, ◌<◌, ◌≤◌, min};
ghost use Rattle.graph.specs.Hops.{count};
ghost use Rattle.base_fixpoint.specs.Pairs.{In};
ghost use Rattle.mark_confluence.specs.Internal.MarkSet.{mark_set};
ghost use Rattle.mark_senses.specs.Internal.Numbers.{condition_of};
ghost use Rattle.base_bitset.specs.Internal.Bits.{word_bits};
ghost use Rattle.mark_batch_spread.specs.Internal.Spread.{SpreadBack, SpreadForth};
ghost use Rattle.mark_batch.specs.Internal.Batch.{TriedIn};
ghost use Rattle.mark_batch.specs.Internal.Sweeping.{MarkingIn, SweptIn};

use base_bitset::WORD_BITS;
use graph::{Key, MOST_LABELS, MOST_STATES};
use input::SweepInput;
use mark_batch_filter::{Tables, filter};
use mark_batch_spread::{MarkedHops, gather, pass_on, pass_once};
use mark_batch_tables::{Batch, clear, put_answers, put_keys};
use mark_senses::Sense;

// This and the two below stay apart: they are three places of one condition, each with a contract
// of its own.
// The closing: who is s4 for an end s3, by at most one marked hop or by a walk.
#[tactic(auto, unfolding(mark_senses::specs::Senses::sense_of))]
fn closing_table(marked: MarkedHops, sense: Sense, words: &mut [u64; MOST_STATES])
    ensures { SpreadForth (In (mark_set marked.entry.silent.hops.now marked.entry.marks.now)) (condition_of sense).closing
        words.old words.new }
{
    match sense {
        Sense::R1 | Sense::R2 | Sense::R3 => pass_once(marked, words),
        Sense::R8 => pass_on(marked, words),
    }
}

// After the answering hop: who is s4 or leads to it.
#[tactic(auto, unfolding(mark_senses::specs::Senses::sense_of))]
fn after_table(marked: MarkedHops, sense: Sense, words: &mut [u64; MOST_STATES])
    ensures { SpreadBack (In (mark_set marked.entry.silent.hops.now marked.entry.marks.now)) (condition_of sense).after
        words.old words.new }
{
    match sense {
        Sense::R1 | Sense::R3 => {}
        Sense::R2 | Sense::R8 => gather(marked, words),
    }
}

// Before the answering hop: who has it or leads to one that has.
#[tactic(auto, unfolding(mark_senses::specs::Senses::sense_of))]
fn before_table(marked: MarkedHops, sense: Sense, words: &mut [u64; MOST_STATES])
    ensures { SpreadBack (In (mark_set marked.entry.silent.hops.now marked.entry.marks.now)) (condition_of sense).before
        words.old words.new }
{
    match sense {
        Sense::R1 | Sense::R2 => {}
        Sense::R3 | Sense::R8 => gather(marked, words),
    }
}

// Records, under the batch's bit, which states have a bit in the batch's tables; if `bit` is 0 it
// records nothing. Nothing is proved of this record and no proof rests on it: it only says which
// batches are worth running again, and the last sweep runs all.
fn record_touched(
    ends: &[u64; MOST_STATES],
    answers: &[u64; MOST_STATES],
    bit: u64,
    touched: &mut [u64; MOST_STATES],
) {
    if bit == 0 {
        return;
    }
    for (s, word) in touched.iter_mut().enumerate() {
        if ends[s] | answers[s] == 0 {
            *word &= !bit;
        } else {
            *word |= bit;
        }
    }
}

// Tries the hops of the batch against every marked hop of their states; returns how many marks
// went. The array `ends` is used again for the table of the states that the hops leave. Which
// states it touches is recorded under the bit.
pub fn try_batch(
    input: SweepInput,
    batch: Batch,
    bit: u64,
    marks: &mut [u8],
    touched: &mut [u64; MOST_STATES],
) -> usize
    requires marking { MarkingIn input marks.old }
    requires within { batch.base + batch.m ≤ count input.silent.hops.now }
    ensures { SweptIn input.entry
        (TriedIn (condition_of input.entry.sense) input.entry.silent.hops.now batch.base (batch.base + batch.m))
        marks.old marks.new result }
{
    let SweepInput {
        shape,
        silent,
        sense,
        ..
    } = input;
    let hops = silent.hops;
    let marked = MarkedHops { silent, marks };
    let mut ends = [0u64; MOST_STATES];
    let mut labels = [0u64; MOST_LABELS];
    let mut answers = [0u64; MOST_STATES];
    put_keys(shape, hops, Key::To, batch, &mut ends);
    closing_table(marked, sense, &mut ends);
    after_table(marked, sense, &mut ends);
    put_keys(shape, hops, Key::Label, batch, &mut labels);
    put_answers(shape, hops, &labels, &ends, &mut answers);
    before_table(marked, sense, &mut answers);
    record_touched(&ends, &answers, bit, touched);
    clear(&mut ends);
    put_keys(shape, hops, Key::From, batch, &mut ends);
    let tables = Tables {
        froms: &ends,
        answers: &answers,
    };
    filter(hops, marks, tables)
}

// The batch from place `base` on, of n hops.
pub fn batch_at(base: usize, n: usize) -> Batch
    requires { base < n }
    ensures base { result.base ≡ base }
    ensures within { base + result.m ≤ n }
    ensures some { 0 < result.m }
    ensures full { result.m ≡ min word_bits (n - base) }
{
    Batch {
        base,
        m: WORD_BITS.min(n - base),
    }
}
