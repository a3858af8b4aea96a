// The source lines in a file, "a list of lines, one number a hop, after the names": how long the
// list is, the line of a hop, whether all lines are 0, and the lines of a hop list as bytes.
// Only this crate knows what a line looks like in a file.
// Uses `graph` for hops and `file_numbers` for numbers.
#![tactic(auto)]

ghost use Rattle.std.specs.Prelude.{◌≡◌, ◌+◌, ◌<◌, ◌≤◌, length};
ghost use Rattle.graph.specs.Hops.{count};
ghost use Rattle.base_outputs.specs.Internal.Output.{over_at};
ghost use Rattle.file_lines.specs.LineField.{lines_length, line_place, line_in, zero_lines, any_line, line_list};
ghost use Rattle.file_lines.specs.Internal.LineField.{LinesLie};

use file_numbers::{number_in, put_number};
use graph::hops::{hop_count, line_at};

// A line is one number.
const BYTES_A_LINE: usize = 2;

// How many bytes the lines of all hops that can be take.
pub const MOST_LINE_BYTES: usize = BYTES_A_LINE * graph::MOST_HOPS;

// How many bytes the lines of n hops take.
pub fn lines_length(n: u16) -> usize
    ensures { result ≡ lines_length n }
{
    BYTES_A_LINE * usize::from(n)
}

// The line of the hop at place i, where `lines` is the place at which the list begins: 0 where
// there is no list.
pub fn line_in(file: &[u8], lines: Option<usize>, i: usize) -> u16
    requires { LinesLie file.now lines (i + 1) }
    ensures { result ≡ line_in file.now lines i }
{
    match lines {
        Some(at) => number_in(file, at + BYTES_A_LINE * i),
        None => 0,
    }
}

// Whether the n lines from a place on are all 0.
pub fn are_zero(file: &[u8], at: usize, n: usize) -> bool
    requires { line_place at n ≤ length file.now }
    ensures { result ≡ zero_lines file.now at n }
{
    (0..n).all(|i| number_in(file, at + BYTES_A_LINE * i) == 0)
}

// Whether some hop has a line.
pub fn has_line(hops: &[u16]) -> bool
    ensures { result ≡ any_line hops.now }
{
    (0..hop_count(hops)).any(|i| line_at(hops, i) != 0)
}

// The lines of all hops of a list, from a place of the output on.
pub fn put_lines(out: &mut [u8], at: usize, hops: &[u16])
    requires { line_place at (count hops.now) ≤ length out.old }
    ensures { out.new ≡ over_at at (line_list hops.now) out.old }
{
    for i in 0..hop_count(hops) {
        put_number(out, at + BYTES_A_LINE * i, line_at(hops, i));
    }
}
