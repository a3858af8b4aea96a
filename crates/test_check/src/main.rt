// A program for tests: graphs at the limits, and bad input, through `check`.
// What it answers is printed and compared with the file stdout.
// Uses `graph_check` for the entry and `test_print` for the printing.
#![tactic(auto)]

use graph::Shape;
use graph::answers::answer_of;
use graph::hops::{hop_count, hop_of, put_hop};
use graph_check::check;
use std::io;
use test_print::{AnswerNumbers, shape_of};

fn print_check(rt: &impl Print, name: &str, shape: Shape, hops: &[u16]) -> io::Result<()> {
    let checked = AnswerNumbers(answer_of(&check(shape, hops)));
    println!(rt; "{name}:{checked}")
}

// Hops in ascending order, four a state: the hop at place i is i / 4, i % 4, 0, of no line.
fn hops_of_four() -> [u16; 16388] {
    let mut hops = [0u16; 16388];
    for i in 0..hop_count(&hops) {
        put_hop(&mut hops, i, hop_of((i / 4) as u16, (i % 4) as u16, 0));
    }
    hops
}

// Graphs at the limits, and numbers that no graph has.
fn limits(rt: &impl Print, hops: &[u16; 16388]) -> io::Result<()> {
    let most = &hops[..16384];
    let none = &hops[..0];
    for (name, shape, hops) in [
        ("4096 hops", shape_of(1024, 4, 0), most),
        ("4097 hops", shape_of(1024, 4, 0), &hops[..16388]),
        ("no multiple of four", shape_of(1024, 4, 0), &hops[..7]),
        ("no hops", shape_of(1, 1, 0), none),
        ("1024 states", shape_of(1024, 1, 1023), none),
        ("1025 states", shape_of(1025, 1, 0), none),
        ("0 states", shape_of(0, 1, 0), none),
        ("1024 labels", shape_of(1, 1024, 0), none),
        ("1025 labels", shape_of(1, 1025, 0), none),
        ("0 labels", shape_of(1, 0, 0), none),
        ("initial state at the count", shape_of(4, 1, 4), none),
        (
            "largest counts",
            shape_of(4294967295, 4294967295, 4294967295),
            none,
        ),
        ("largest initial state", shape_of(1024, 4, 4294967295), most),
        ("a state out of range", shape_of(1023, 4, 0), most),
        ("a label out of range", shape_of(1024, 3, 0), most),
    ] {
        print_check(rt, name, shape, hops)?;
    }
    Ok(())
}

// One number after the other made another, and the list of 4,096 hops checked after each: the place
// is that of the first such hop; a hop out of range is refused before any out of order; a line may
// be any number, and hops that differ in it alone are equal.
fn changes(rt: &impl Print, hops: &mut [u16; 16388]) -> io::Result<()> {
    for (name, at, number) in [
        ("the largest line", 3, 65535),
        ("the largest state", 400, 65535),
        ("a hop below the one before", 400, 24),
        ("a hop equal to the one before", 401, 3),
        (
            "a hop that differs from the one before in its line alone",
            403,
            7,
        ),
        ("out of range speaks before out of order", 802, 1024),
    ] {
        if let Some(old) = hops.get_mut(at) {
            *old = number;
        }
        print_check(rt, name, shape_of(1024, 4, 0), &hops[..16384])?;
    }
    Ok(())
}

fn main(rt: HostRuntime) -> io::Result<()> {
    let mut hops = hops_of_four();
    limits(&rt, &hops)?;
    changes(&rt, &mut hops)
}
