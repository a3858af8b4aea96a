// The program: reads the file of a graph from standard input, reduces the graph and prints the
// report, or the refusal.
// Where the input cannot be read it prints neither, since a file that was cut by a failure is no
// short file. What fails is written to standard error; the program has no exit status of its own.
// Uses `report_entry` for the report.
#![tactic(auto)]

ghost use Rattle.std.specs.Prelude.{◌≤◌, length, IfOk};

use report_entry::print::{MOST_INPUT, MOST_TEXT, print_file};
use std::io;
use std::io::Read;

// Reads until the buffer is full, the input ends or a read fails; how many bytes were taken. A read
// may take fewer bytes than the buffer has left, as from a pipe, and only one that takes none is
// the end. A read that a signal interrupted counts as one that failed; the program catches no
// signal.
fn read_input(reader: &mut impl Read, buffer: &mut [u8]) -> io::Result<usize>
    ensures { IfOk result (λ taken. taken ≤ length buffer.new) }
{
    let mut taken = 0;
    // `while`: each read says how far it went.
    while taken < buffer.len() {
        let more = reader.read(&mut buffer[taken..])?;
        if more == 0 {
            break;
        }
        taken += more;
    }
    Ok(taken)
}

fn main(rt: HostRuntime) {
    // one byte past the longest input that is looked at, which is enough to know that there is more
    let mut file = [0u8; MOST_INPUT + 1];
    let Ok(n) = read_input(&mut rt.stdin(), &mut file) else {
        let _ = eprintln!(rt; "zundrafipo: standard input could not be read");
        return;
    };
    let mut out = [0u8; MOST_TEXT];
    let length = print_file(&file[..n], &mut out);
    if rt.write_all(&out[..length]).is_err() {
        let _ = eprintln!(rt; "zundrafipo: the report could not be written whole");
    }
}
