// A program for tests: equation X of `mark_equations`, with a table of `Known` and with one of
// bytes, over P1 and over a ladder, in which one hop more falls with each round.
// Each line has a silent hop, a number of rounds, and four answers: with a table of `Known` that
// says nothing yet, once more with the same table, and twice the same with a table of bytes. They
// are compared with the file stdout.
// Uses `mark_equations` for X, `graph_check` for what is admitted, `graph_successors` and
// `graph_index` for a state's hops, and `test_print` for the shapes.
#![tactic(auto)]

ghost use Rattle.std.specs.Prelude.{ℕ, ◌≡◌, ◌<◌, ◌≤◌};
ghost use Rattle.graph.specs.Answers.{most_labels};
ghost use Rattle.graph.specs.Hops.{count, label};
ghost use Rattle.graph_check.specs.Check.{Admitted};

use graph::hops::{hop_count, label_at};
use graph::{MOST_HOPS, Shape};
use graph_check::check;
use graph_index::Index;
use graph_successors::{STARTS, put_starts};
use mark_equations::{Known, x};
use std::io;
use test_print::shape_of;

const MOST_ROUNDS: usize = 4;

// Entries for each number of rounds and each hop.
const ENTRIES: usize = (MOST_ROUNDS + 1) * MOST_HOPS;

// The hop at place i, asked for k rounds.
fn ask(rt: &impl Print, index: Index<'_>, i: usize, k: usize) -> io::Result<()>
    requires place { i < count index.hops.now }
    requires silent { label index.hops.now i ≡ 0 }
    requires labels { (j : ℕ) → j < count index.hops.now → label index.hops.now j < most_labels }
    requires few { k ≤ 4 }
{
    let mut cases = [Known::Unknown; ENTRIES];
    let by_cases = x(index, i, k, &mut cases);
    let by_cases_again = x(index, i, k, &mut cases);
    // neither 1 nor 2, so it says nothing
    let mut bytes = [255u8; ENTRIES];
    let by_bytes = x(index, i, k, &mut bytes);
    let by_bytes_again = x(index, i, k, &mut bytes);
    println!(rt; "hop {i} rounds {k}: {by_cases} {by_cases_again} {by_bytes} {by_bytes_again}")
}

// Every silent hop of an admitted graph, asked for each number of rounds.
fn ask_each(rt: &impl Print, shape: Shape, hops: &[u16]) -> io::Result<()>
    requires { Admitted shape hops.now }
{
    let mut starts = [0u16; STARTS];
    put_starts(hops, &mut starts);
    let index = Index {
        hops,
        starts: &starts,
    };
    for i in 0..hop_count(hops) {
        if label_at(hops, i).0 == 0 {
            for k in 0..=MOST_ROUNDS {
                ask(rt, index, i, k)?;
            }
        }
    }
    Ok(())
}

// The same of any graph; one that is not admitted has its name alone.
fn ask_all(rt: &impl Print, name: &str, shape: Shape, hops: &[u16]) -> io::Result<()> {
    println!(rt; "{name}")?;
    match check(shape, hops) {
        Ok(()) => ask_each(rt, shape, hops),
        Err(_) => Ok(()),
    }
}

fn main(rt: HostRuntime) -> io::Result<()> {
    let p1 = [0u16, 0, 1, 3, 0, 1, 2, 4, 1, 1, 3, 5, 2, 0, 3, 2];
    ask_all(&rt, "P1", shape_of(4, 2, 0), &p1)?;

    // each step's silent hop survives one round more than that of the step below; beside that of
    // the first stands a visible hop that nothing answers
    let ladder = [
        0u16, 0, 1, 0, 0, 2, 1, 0, 2, 0, 3, 0, 2, 1, 0, 0, 3, 1, 1, 0, 4, 0, 5, 0, 4, 1, 2, 0, 5,
        1, 3, 0, 6, 0, 7, 0, 6, 1, 4, 0, 7, 1, 5, 0, 8, 0, 9, 0, 8, 1, 6, 0, 9, 1, 7, 0,
    ];
    ask_all(&rt, "ladder", shape_of(10, 3, 8), &ladder)
}
