// A program for tests: several files through the library, and what is printed of each, behind its
// name.
// What it prints is compared with the file stdout. The whole program is run over more files by
// tests/program.sh.
// Uses `report_entry` for the report.
#![tactic(auto)]

use report_entry::print::{MOST_TEXT, print_file};
use std::io;

fn show(rt: &impl Print, name: &str, file: &[u8]) -> io::Result<()> {
    println!(rt; "{name}:")?;
    let mut out = [0u8; MOST_TEXT];
    let n = print_file(file, &mut out);
    rt.write_all(&out[..n])
}

// A list of calls: in a table each file, of a length of its own, would have to be cut to a slice.
fn main(rt: HostRuntime) -> io::Result<()> {
    show(&rt, "an empty file", b"")?;
    show(
        &rt,
        "a front of a file",
        b"\x02\x04\x00\x02\x00\x04\x00\x00\x00",
    )?;
    show(&rt, "bits 4 to 7", b"\x10")?;
    show(&rt, "one state, no hops", b"\x00\x01\x00\x01\x00")?;
    show(&rt, "a byte left over", b"\x00\x01\x00\x01\x00\x00")?;
    show(
        &rt,
        "an initial state of 0",
        b"\x01\x01\x00\x01\x00\x00\x00",
    )?;
    show(
        &rt,
        "an initial state at the count",
        b"\x01\x01\x00\x01\x00\x01\x00",
    )?;
    show(&rt, "no states", b"\x00\x00\x00\x01\x00")?;
    show(
        &rt,
        "a ring of one hop",
        b"\x02\x01\x00\x01\x00\x01\x00\x00\x00\x00\x00\x00\x00",
    )?;
    show(&rt, "a repeated name", b"\x04\x01\x00\x03\x00\x01a\x01a")?;
    show(&rt, "names", b"\x04\x01\x00\x03\x00\x01a\x01b")?;
    show(
        &rt,
        "P1 with lines",
        b"\x0a\x04\x00\x02\x00\x04\x00\
\x00\x00\x00\x00\x01\x00\x00\x00\x01\x00\x02\x00\
\x01\x00\x01\x00\x03\x00\x02\x00\x00\x00\x03\x00\
\x03\x00\x04\x00\x05\x00\x02\x00",
    )?;
    show(
        &rt,
        "lines that are all 0",
        b"\x0a\x02\x00\x02\x00\x01\x00\x00\x00\x01\x00\x01\x00\x00\x00",
    )
}
