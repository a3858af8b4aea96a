// A program for tests: the two entries over records, `check_records` and `mark_records`, over P1,
// bad input, the senses and the limits.
// What they answer is printed and compared with the file stdout. An element of the output for marks
// that was not written is 7.
// Uses `mark_entry_records` for the entries and `test_print` for the printing.
// What `as u16` narrows here is made from a place, and the check proves that it fits.
#![tactic(auto)]

ghost use Rattle.std.specs.Prelude.{◌+◌, ◌<◌, ◌≤◌};
ghost use Rattle.graph.specs.Answers.{most_hops};
ghost use Rattle.graph.specs.Hops.{count};

use graph::answers::answer_of;
use graph::hops::{hop_at, hop_count, hop_of, lined_hop, part, put_hop};
use graph::{Hop, MOST_HOPS, NUMBERS_A_HOP, Shape};
use mark_entry_records::{check_records, mark_records};
use std::io;
use test_print::{AnswerNumbers, Spaced, shape_of};

// One record and one hop more than a graph has at most.
const RECORDS: usize = MOST_HOPS + 1;

// The records of a flat list, and records of zeros behind them.
fn records_of(nums: &[u16]) -> [Hop; RECORDS]
    requires { count nums.now ≤ most_hops + 1 }
{
    let mut hops = [hop_of(0, 0, 0); RECORDS];
    for i in 0..hop_count(nums) {
        hops[i] = hop_at(nums, i);
    }
    hops
}

// Both entries over the records of a flat list, marking in the sense given.
fn ask(
    rt: &impl Print,
    name: &str,
    shape: Shape,
    nums: &[u16],
    sense: u32,
    marks: &mut [u8],
) -> io::Result<()>
    requires { count nums.now ≤ most_hops + 1 }
{
    let hops = records_of(nums);
    let list = &hops[..hop_count(nums)];
    let checked = AnswerNumbers(answer_of(&check_records(shape, list)));
    let marked = AnswerNumbers(answer_of(&mark_records(shape, list, sense, marks)));
    print!(rt; "{name}: check{checked}, mark{marked}, marks")
}

// A graph of few hops, the sense in which it is marked, and how many of six elements are lent for
// the marks.
#[derive(Clone, Copy)]
struct Case<'a> {
    name: &'a str,
    shape: Shape,
    nums: &'a [u16],
    sense: u32,
    capacity: usize,
    ghost few: { count nums.now ≤ most_hops + 1 },
    ghost lent: { capacity ≤ 6 },
}

fn few<'a>(name: &'a str, shape: Shape, nums: &'a [u16], sense: u32, capacity: usize) -> Case<'a>
    requires few { count nums.now ≤ most_hops + 1 }
    requires lent { capacity ≤ 6 }
{
    Case {
        name,
        shape,
        nums,
        sense,
        capacity,
    }
}

fn print_few(rt: &impl Print, case: Case) -> io::Result<()> {
    let mut marks = [7u8; 6];
    ask(
        rt,
        case.name,
        case.shape,
        case.nums,
        case.sense,
        &mut marks[..case.capacity],
    )?;
    println!(rt; "{}", Spaced(&marks))
}

fn small(rt: &impl Print) -> io::Result<()> {
    let p1 = [0u16, 0, 1, 3, 0, 1, 2, 4, 1, 1, 3, 5, 2, 0, 3, 2];
    let none = [0u16; 0];
    let p8 = [0u16, 0, 1, 0, 1, 0, 2, 6, 2, 0, 1, 0];
    let falling = [0u16, 0, 1, 1, 1, 1, 3, 2, 0, 1, 2, 3];
    let twice = [0u16, 0, 1, 0, 0, 0, 1, 9];
    // the case of wish 7, in which 0 to 1 is marked by R8 alone
    let wish_7 = [
        0u16, 0, 1, 0, 0, 1, 2, 65535, 1, 1, 3, 0, 2, 0, 4, 7, 4, 0, 3, 7,
    ];
    for case in [
        few("P1", shape_of(4, 2, 0), &p1, 1, 6),
        few("P1, just capacity", shape_of(4, 2, 0), &p1, 1, 4),
        few("P1, too short", shape_of(4, 2, 0), &p1, 1, 3),
        few("no states", shape_of(0, 2, 0), &p1, 1, 6),
        few("initial state at the count", shape_of(4, 2, 4), &p1, 1, 6),
        few("a state out of range", shape_of(3, 2, 0), &p1, 1, 6),
        few("no records", shape_of(1, 1, 0), &none, 1, 6),
        few("P8", shape_of(3, 1, 0), &p8, 1, 6),
        few(
            "two hops that differ in the line",
            shape_of(4, 2, 0),
            &twice,
            1,
            6,
        ),
        few(
            "a hop below the one before",
            shape_of(4, 2, 0),
            &falling,
            1,
            6,
        ),
        few("sense 1", shape_of(5, 2, 0), &wish_7, 1, 6),
        few("sense 2", shape_of(5, 2, 0), &wish_7, 2, 6),
        few("sense 3", shape_of(5, 2, 0), &wish_7, 3, 6),
        few("sense 8", shape_of(5, 2, 0), &wish_7, 8, 6),
        few("sense 0", shape_of(5, 2, 0), &wish_7, 0, 6),
        few("sense 4, too short", shape_of(5, 2, 0), &wish_7, 4, 4),
        few("P8, sense 7", shape_of(3, 1, 0), &p8, 7, 6),
        few("P8, sense 8", shape_of(3, 1, 0), &p8, 8, 6),
        few(
            "a hop below the one before, sense 9",
            shape_of(4, 2, 0),
            &falling,
            9,
            6,
        ),
    ] {
        print_few(rt, case)?;
    }
    Ok(())
}

// A list at the limit of 4,096 hops, five a state: the silent one leads to the next state, the
// others to the state itself. So each silent hop is marked but that of state 818, since 4,096 hops
// end with the silent hop of state 819, which has no other to answer with. Each has its place for a
// line.
fn stair(i: usize) -> Hop
    requires { i < most_hops + 1 }
{
    let from = (i / 5) as u16;
    let label = (i % 5) as u16;
    let line = i as u16;
    if label == 0 {
        return lined_hop(from, label, from + 1, line);
    }
    lined_hop(from, label, from, line)
}

fn stairs() -> [u16; NUMBERS_A_HOP * RECORDS] {
    let mut nums = [0u16; NUMBERS_A_HOP * RECORDS];
    for i in 0..RECORDS {
        put_hop(&mut nums, i, stair(i));
    }
    nums
}

// The first n hops of the list at the limit, and of 4,098 elements, of which the first `capacity`
// were lent: the first six, the last thirteen, and how many are 1.
fn print_many(rt: &impl Print, name: &str, n: usize, capacity: usize) -> io::Result<()>
    requires few { n ≤ most_hops + 1 }
    requires lent { capacity ≤ most_hops + 2 }
{
    let nums = stairs();
    let mut marks = [7u8; RECORDS + 1];
    ask(
        rt,
        name,
        shape_of(1024, 5, 0),
        part(&nums, 0, n),
        1,
        &mut marks[..capacity],
    )?;
    let front = Spaced(&marks[..6]);
    let end = Spaced(&marks[4085..]);
    let ones = marks.iter().filter(|mark| **mark == 1).count();
    println!(rt; "{front} ..{end}, ones {ones}")
}

fn main(rt: HostRuntime) -> io::Result<()> {
    small(&rt)?;
    print_many(&rt, "4096 records", 4096, 4098)?;
    print_many(&rt, "4096 records, just capacity", 4096, 4096)?;
    print_many(&rt, "4096 records, too short", 4096, 4095)?;
    print_many(&rt, "4097 records", 4097, 4098)
}
