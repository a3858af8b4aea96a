// A program for tests: the hops of a state as a part of its table, `hops_of`, of P1 with lines as
// graph 1 and its short graph as graph 2.
// The numbers of each part are printed and compared with the file stdout.
// Uses `graph_hops_of` for the entry and `test_print` for the printing.
#![tactic(auto)]

use graph::Shape;
use graph_hops_of::hops_of;
use std::io;
use test_print::{Spaced, shape_of};

// One lifetime for both tables: the part may be of either.
fn print_part<'a>(
    rt: &impl Print,
    name: &str,
    side: u32,
    state: u32,
    shape1: Shape,
    hops1: &'a [u16],
    shape2: Shape,
    hops2: &'a [u16],
) -> io::Result<()> {
    let part = Spaced(hops_of(side, state, shape1, hops1, shape2, hops2));
    println!(rt; "{name}side {side} state {state}:{part}")
}

fn main(rt: HostRuntime) -> io::Result<()> {
    let shape1 = shape_of(4, 2, 0);
    let p1 = [0u16, 0, 1, 3, 0, 1, 2, 4, 1, 1, 3, 5, 2, 0, 3, 2];
    let shape2 = shape_of(2, 2, 0);
    let short = [0u16, 1, 1, 5];

    // both tables as they should be
    for (side, state) in [
        (1, 0),
        (1, 1),
        (1, 2),
        (1, 3),
        (1, 4),
        (1, 65536),
        (2, 0),
        (2, 1),
        (2, 2),
        (2, 4294967295),
        (0, 0),
        (3, 0),
        (4294967295, 0),
    ] {
        print_part(&rt, "", side, state, shape1, &p1, shape2, &short)?;
    }

    let falling = [0u16, 0, 1, 3, 0, 1, 2, 4, 2, 0, 3, 2, 1, 1, 3, 5];
    for side in [1, 2] {
        print_part(
            &rt,
            "table 1 bad, ",
            side,
            0,
            shape1,
            &falling,
            shape2,
            &short,
        )?;
    }
    let bad_shape2 = shape_of(2, 2, 2);
    for side in [1, 2] {
        print_part(
            &rt,
            "table 2 bad, ",
            side,
            0,
            shape1,
            &p1,
            bad_shape2,
            &short,
        )?;
    }
    Ok(())
}
