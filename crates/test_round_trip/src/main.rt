// A program for tests: the two round trips of a file, `copy_file` and `graph_back`, over P1, names,
// lines and bad input.
// What they answer is printed and compared with the file stdout. An element of an output that was
// not written is 7.
// Uses `file_round_trip` for the two functions and `test_print` for the printing.
#![tactic(auto)]

ghost use Rattle.std.specs.Prelude.{◌≤◌};

use file_read::Contents;
use file_round_trip::round_trip::{copy_file, graph_back};
use file_write::Written;
use graph::Shape;
use std::io;
use test_print::{AnswerNumbers, ShapeNumbers, Spaced, shape_of};

// A file, and how many of 33 bytes are lent for its copy.
#[derive(Clone, Copy)]
struct Copied<'a> {
    name: &'a str,
    file: &'a [u8],
    capacity: usize,
    ghost lent: { capacity ≤ 33 },
}

fn file<'a>(name: &'a str, file: &'a [u8], capacity: usize) -> Copied<'a>
    requires { capacity ≤ 33 }
{
    Copied {
        name,
        file,
        capacity,
    }
}

// What is answered and how many bytes were written, and the 33 bytes.
fn print_copy(rt: &impl Print, case: Copied) -> io::Result<()> {
    let mut out = [7u8; 33];
    let written = Written::from(copy_file(case.file, &mut out[..case.capacity]));
    let name = case.name;
    let answer = AnswerNumbers(written.answer);
    let length = written.length;
    let bytes = Spaced(&out);
    println!(rt; "{name}: copy{answer}, length {length}, bytes{bytes}")
}

// A graph and its names, and how many of 46 bytes and of 18 numbers are lent for its file and for
// what is read back.
#[derive(Clone, Copy)]
struct Graph<'a> {
    name: &'a str,
    shape: Shape,
    hops: &'a [u16],
    names: &'a [u8],
    capacity: usize,
    hop_capacity: usize,
    ghost lent_bytes: { capacity ≤ 46 },
    ghost lent_numbers: { hop_capacity ≤ 18 },
}

fn case_of<'a>(
    name: &'a str,
    shape: Shape,
    hops: &'a [u16],
    names: &'a [u8],
    capacity: usize,
    hop_capacity: usize,
) -> Graph<'a>
    requires lent_bytes { capacity ≤ 46 }
    requires lent_numbers { hop_capacity ≤ 18 }
{
    Graph {
        name,
        shape,
        hops,
        names,
        capacity,
        hop_capacity,
    }
}

// What is answered, and the 46 bytes and 18 numbers.
fn print_back(rt: &impl Print, case: Graph) -> io::Result<()> {
    let mut file = [7u8; 46];
    let mut again = [7u16; 18];
    let back = Contents::from(graph_back(
        case.shape,
        case.hops,
        case.names,
        &mut file[..case.capacity],
        &mut again[..case.hop_capacity],
    ));
    let name = case.name;
    let answer = AnswerNumbers(back.answer);
    let shape = ShapeNumbers(back.shape);
    let hops = back.hops;
    let names_place = back.names_place;
    let names_len = back.names_len;
    let bytes = Spaced(&file);
    let numbers = Spaced(&again);
    print!(rt; "{name}: back{answer}, shape{shape}, hops {hops}, names {names_place} {names_len}")?;
    println!(rt; ", bytes{bytes}, numbers{numbers}")
}

fn copies(rt: &impl Print) -> io::Result<()> {
    let p1 =
        b"\x02\x04\x00\x02\x00\x04\x00\x00\x00\x00\x00\x01\x00\x00\x00\x01\x00\x02\x00\x01\x00\x01\x00\x03\x00\x02\x00\x00\x00\x03\x00";
    let names = b"\x07\x03\x00\x03\x00\x02\x00\x01\x00\x02\x00\x01\x00\x00\x00\x01a\x02bc";
    // a hop with a line, which stands behind the names; and a line of 0 alone, which no file has
    let line = b"\x0e\x02\x00\x02\x00\x01\x00\x00\x00\x01\x00\x01\x00\x01a\x09\x01";
    let line_0 = b"\x0a\x02\x00\x02\x00\x01\x00\x00\x00\x01\x00\x01\x00\x00\x00";
    for case in [
        file("P1 as a file", p1, 33),
        file("P1 as a file, just capacity", p1, 31),
        file("P1 as a file, too short", p1, 30),
        file("the first 30 bytes", &p1[..30], 33),
        file("an empty file", b"", 33),
        file("initial state, a hop and names", names, 33),
        file("a hop with a line behind the names", line, 33),
        file("the line cut", &line[..16], 33),
        file("bit 3 over a line of 0", line_0, 33),
        file("bit 3 over no hops", b"\x08\x01\x00\x01\x00", 33),
    ] {
        print_copy(rt, case)?;
    }
    Ok(())
}

fn backs(rt: &impl Print) -> io::Result<()> {
    let p1 = [0u16, 0, 1, 0, 0, 1, 2, 0, 1, 1, 3, 0, 2, 0, 3, 0];
    let lined = [0u16, 0, 1, 3, 0, 1, 2, 4, 1, 1, 3, 5, 2, 0, 3, 2];
    let falling = [0u16, 0, 1, 0, 0, 1, 2, 0, 2, 0, 3, 0, 1, 1, 3, 0];
    let shape = shape_of(4, 2, 0);
    let open = b"\x04open";
    for case in [
        case_of("P1 with a name", shape, &p1, open, 46, 18),
        case_of("P1 with no names", shape, &p1, b"", 46, 18),
        case_of("an initial state", shape_of(4, 2, 3), &p1, open, 46, 18),
        case_of("just capacity", shape, &p1, open, 36, 16),
        case_of("P1 with lines", shape, &lined, open, 46, 18),
        case_of("P1 with lines, too short", shape, &lined, open, 43, 18),
        case_of("the file too short", shape, &p1, open, 35, 18),
        case_of("the hops too short", shape, &p1, open, 46, 15),
        case_of("a name too many", shape, &p1, b"\x01a\x01b", 46, 18),
        case_of("a hop below the one before", shape, &falling, open, 46, 18),
    ] {
        print_back(rt, case)?;
    }
    Ok(())
}

fn main(rt: HostRuntime) -> io::Result<()> {
    copies(&rt)?;
    backs(&rt)
}
