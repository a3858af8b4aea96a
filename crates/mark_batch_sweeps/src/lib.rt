// The marked set of a weaker sense of RR-7000 (R2, R3 or R8) by sweeps over batches of 64 hops, for
// a checked graph.
// Marks start at 1 for every silent (tau) hop, and sweeps over all batches (`mark_batch`) go on
// until one takes no mark. Between two sweeps only those batches run again that a hop which lost
// its mark can have touched; this is a heuristic that no proof rests on, since the last sweep runs
// all. When it takes nothing the marks are those of the marked set, in whatever order the others
// went.
// Uses `mark_senses` for what is marked, `mark_removal` for what marks keep under removal, for any
// condition, `mark_batch` for one batch, `mark_batch_tables` for which hops a batch has,
// `mark_batch_spread` for the silent hops as one value, `walk_topological_order` for their order,
// and `walk_rings` for the graph with its table of first places.
#![tactic(auto, using(mark_removal::proofs::Fixpoint::count_within))]

ghost use Rattle.std.specs.Prelude.{◌≡◌, ◌+◌, ◌*◌, ◌<◌, ◌≤◌, length};
ghost use Rattle.base_outputs.specs.Output.{on_front};
ghost use Rattle.graph.specs.Hops.{count};
ghost use Rattle.graph.specs.Answers.{most_hops};
ghost use Rattle.graph_successors.specs.Internal.SuccessorIndex.{Indexable};
ghost use Rattle.mark_confluence.specs.Marks.{marks_of};
ghost use Rattle.mark_senses.specs.Senses.{marked_by};
ghost use Rattle.mark_senses.specs.Internal.Numbers.{sense_number, condition_of};
ghost use Rattle.base_bitset.specs.Internal.Bits.{word_bits};
ghost use Rattle.mark_batch.specs.Internal.Batch.{NothingKnown, TriedIn};
ghost use Rattle.mark_batch.specs.Internal.Sweeping.{MarkingIn, SweptIn};

use base_bitset::{WORD_BITS, bit_of};
use graph::hops::{hop_at, hop_count};
use graph::{MOST_HOPS, MOST_STATES};
use mark_batch::input::SweepInput;
use mark_batch::{batch_at, try_batch};
use mark_batch_spread::SilentHops;
use mark_batch_tables::Batch;
use mark_confluence::start_marks;
use mark_senses::Sense;
use walk_rings::Ringless;
use walk_topological_order::order_of;

// All batches, as a set in one word; or all places of a word.
const ALL_BATCHES: u64 = u64::MAX;

// How many sweeps record nothing of what their batches touch: most graphs need no more sweeps.
const PLAIN_SWEEPS: usize = 4;

// The bit of the batch from place `base` on, for sets of batches in one word: bit k stands for the
// batch from place 64 * k on. There are at most 64 batches.
fn batch_bit(base: usize) -> u64 {
    bit_of(base / WORD_BITS % WORD_BITS)
}

// What the heuristic knows. `touched` has the batches that touched a state; `was` has one bit a
// hop, 0 where it is recorded that the hop has no mark; `pending` has the batches to be run again.
#[derive(Drop)]
struct Hints {
    touched: [u64; MOST_STATES],
    was: [u64; WORD_BITS],
    pending: u64,
}

impl Hints {
    // Whether the hop at place i has no mark and this was not yet recorded; then records it.
    fn lost_mark(&mut self, marks: &[u8], i: usize) -> bool
        requires { i < length marks.now }
    {
        if marks[i] == 1 {
            return false;
        }
        let at = i / WORD_BITS % WORD_BITS;
        let bit = bit_of(i % WORD_BITS);
        if self.was[at] & bit == 0 {
            return false;
        }
        self.was[at] ^= bit;
        true
    }

    // Records the hops without a mark that were not yet recorded: the batches that touched an end
    // of such a hop are pending.
    fn record_lost(&mut self, hops: &[u16], marks: &[u8])
        requires ready { Indexable hops.now }
        requires capacity { count hops.now ≤ length marks.now }
    {
        for i in 0..hop_count(hops) {
            if self.lost_mark(marks, i) {
                let h = hop_at(hops, i);
                self.pending |= self.touched[usize::from(h.from)] | self.touched[usize::from(h.to)];
            }
        }
    }
}

// One sweep over all hops; returns how many marks went. Which states a batch touches is recorded
// for the batches in `recorded`.
fn sweep(input: SweepInput, recorded: u64, marks: &mut [u8], hints: &mut Hints) -> usize
    requires { MarkingIn input marks.old }
    ensures { SweptIn input.entry
        (TriedIn (condition_of input.entry.sense) input.entry.silent.hops.now 0 (count input.entry.silent.hops.now))
        marks.old marks.new result }
{
    let past = hop_count(input.silent.hops);
    let mut lost = 0;
    for base in (0..past).step_by(WORD_BITS) {
        let batch = batch_at(base, past);
        let bit = batch_bit(base) & recorded;
        lost += try_batch(input, batch, bit, marks, &mut hints.touched);
    }
    lost
}

// Tries the hops of the batch until they take no mark; returns how many marks went.
fn run_to_fixpoint(input: SweepInput, batch: Batch, marks: &mut [u8], hints: &mut Hints) -> usize
    requires marking { MarkingIn input marks.old }
    requires within { batch.base + batch.m ≤ count input.silent.hops.now }
    ensures { SweptIn input.entry NothingKnown marks.old marks.new result }
{
    let bit = batch_bit(batch.base);
    let mut all = 0;
    loop {
        let lost = try_batch(input, batch, bit, marks, &mut hints.touched);
        if lost == 0 {
            return all;
        }
        all += lost;
    }
}

// Runs the batch from place `base` on if it is pending; returns how many marks went.
fn run_pending(input: SweepInput, base: usize, marks: &mut [u8], hints: &mut Hints) -> usize
    requires marking { MarkingIn input marks.old }
    requires place { base < count input.silent.hops.now }
    ensures { SweptIn input.entry NothingKnown marks.old marks.new result }
{
    let bit = batch_bit(base);
    if hints.pending & bit == 0 {
        return 0;
    }
    let hops = input.silent.hops;
    let batch = batch_at(base, hop_count(hops));
    let lost = run_to_fixpoint(input, batch, marks, hints);
    hints.record_lost(hops, marks);
    hints.pending &= !bit;
    lost
}

// How many batches n hops make.
fn batch_count(n: usize) -> usize
    requires { n ≤ most_hops }
    ensures { word_bits * result < n + word_bits }
{
    n.div_ceil(WORD_BITS)
}

// One pass over the pending batches, upward; returns how many marks went.
fn pass_up(input: SweepInput, marks: &mut [u8], hints: &mut Hints) -> usize
    requires { MarkingIn input marks.old }
    ensures { SweptIn input.entry NothingKnown marks.old marks.new result }
{
    let mut lost = 0;
    for k in 0..batch_count(hop_count(input.silent.hops)) {
        lost += run_pending(input, WORD_BITS * k, marks, hints);
    }
    lost
}

// One pass over the pending batches, downward; returns how many marks went.
fn pass_down(input: SweepInput, marks: &mut [u8], hints: &mut Hints) -> usize
    requires { MarkingIn input marks.old }
    ensures { SweptIn input.entry NothingKnown marks.old marks.new result }
{
    let mut lost = 0;
    for k in (0..batch_count(hop_count(input.silent.hops))).rev() {
        lost += run_pending(input, WORD_BITS * k, marks, hints);
    }
    lost
}

// Between two sweeps: passes over the pending batches, upward and downward alternately, until one
// takes no mark; returns how many marks went.
fn run_all_pending(input: SweepInput, marks: &mut [u8], hints: &mut Hints) -> usize
    requires { MarkingIn input marks.old }
    ensures { SweptIn input.entry NothingKnown marks.old marks.new result }
{
    hints.record_lost(input.silent.hops, marks);
    let mut all = 0;
    loop {
        let up = pass_up(input, marks, hints);
        if up == 0 {
            return all;
        }
        let down = pass_down(input, marks, hints);
        all += up + down;
        if down == 0 {
            return all;
        }
    }
}

// Sweeps until one takes no mark; where no hop is silent there is none to take, and no sweep. After
// a sweep that takes some, the batches run that are pending by it: where marks fall one after the
// other, sweeps alone would run all batches for each of them. The first sweeps record nothing, so
// that no batch is pending after them.
fn sweep_to_fixpoint(input: SweepInput, marks: &mut [u8])
    requires { MarkingIn input marks.old }
    ensures { marks.new ≡
        on_front (marks_of input.entry.silent.hops.now (marked_by (sense_number input.entry.sense) input.entry.shape input.entry.silent.hops.now)) marks.old }
{
    let mut hints = Hints {
        touched: [0u64; MOST_STATES],
        was: [ALL_BATCHES; WORD_BITS],
        pending: 0,
    };
    let mut plain = PLAIN_SWEEPS;
    let mut fell = input.silent.sorted.len();
    // `while`: how many sweeps it takes depends on the marks.
    while fell > 0 {
        let recorded = if plain > 0 { 0 } else { ALL_BATCHES };
        fell = sweep(input, recorded, marks, &mut hints);
        plain = plain.saturating_sub(1);
        if fell > 0 {
            run_all_pending(input, marks, &mut hints);
        }
    }
}

// Marks by sweeps, in the sense: what `mark`, `reduce` and `shrink` do after the refusals, for any
// sense but R1, which is marked in rounds (`mark_worklist_loop`). It would be right for R1 too. The
// callers choose between the two: in one function they would share a frame, and R1 would take more
// stack.
pub fn mark_by_sweeps(ringless: Ringless<'_>, sense: Sense, marks: &mut [u8])
    requires { count ringless.graph.index.hops.now ≤ length marks.old }
    ensures { marks.new ≡
        on_front
        (marks_of ringless.entry.graph.index.hops.now
        (marked_by (sense_number sense) ringless.entry.graph.shape ringless.entry.graph.index.hops.now))
        marks.old }
{
    let hops = ringless.graph.index.hops;
    let mut sorted = [0u16; MOST_HOPS];
    let n = order_of(ringless, &mut sorted);
    start_marks(hops, marks);
    let silent = SilentHops {
        hops,
        sorted: &sorted[..n],
    };
    let input = SweepInput {
        shape: ringless.graph.shape,
        silent,
        sense,
    };
    sweep_to_fixpoint(input, marks);
}
