// The field as a whole, and its hops by place.
ghost use Rattle.std.specs.Prelude.{◌≡◌, ◌+◌, ◌*◌, ◌<◌, ◌≤◌, length};
ghost use Rattle.graph.specs.Hops.{count};
ghost use Rattle.base_outputs.specs.Output.{on_front};
ghost use Rattle.base_outputs.specs.Internal.Output.{over_at};
ghost use Rattle.file_numbers.specs.Internal.Numbers.{most_number};
ghost use Rattle.file_lines.specs.Internal.LineField.{LinesLie};
ghost use Rattle.file_hops.specs.Field.{bytes_a_hop, field_length, hop_in, hops_in_field, hop_bytes, each_hop, field_bytes};
ghost use Rattle.file_hops.specs.Internal.Field.{HopsLie};
ghost use Rattle.file_hops.specs.Internal.Facts.{hops_lie_prop, lines_lie_prop};

use file_lines::line_in;
use file_numbers::{number_in, put_number};
use graph::hops::{hop_at, hop_count, lined_hop, put_hop};
use graph::{Hop, MOST_HOPS};

// The hop count is one number; a hop is three of them, from, label and to. Its line stands
// elsewhere.
const COUNT_BYTES: usize = 2;

const BYTES_A_HOP: usize = 6;

// How many bytes the field takes at most.
pub const MOST_FIELD_BYTES: usize = COUNT_BYTES + BYTES_A_HOP * MOST_HOPS;

// How many bytes a field of n hops takes, its count among them.
pub fn field_length(n: u16) -> usize
    ensures { result ≡ field_length n }
{
    COUNT_BYTES + BYTES_A_HOP * usize::from(n)
}

// The first so many hops of a field that begins at `at`, whose lines stand in a list that begins at
// `lines`, if there is one. They lie within the file, and so do their lines: who makes such a value
// proves it, and who gets one asks nothing.
#[derive(Clone, Copy)]
pub struct HopField<'a> {
    pub file: &'a [u8],
    pub at: usize,
    pub lines: Option<usize>,
    pub hops: usize,
    ghost lie: { HopsLie file.now at hops } by { hops_lie_prop _ _ _ },
    ghost lined: { LinesLie file.now lines hops } by { lines_lie_prop _ _ _ },
}

impl HopField<'_> {
    // The hop at place i, with its line.
    fn hop_in(self, i: usize) -> Hop
        requires { i < self.hops }
        ensures { result ≡ hop_in self.entry.file.now self.entry.at self.entry.lines i }
    {
        let file = self.file;
        let p = self.at + COUNT_BYTES + BYTES_A_HOP * i;
        let from = number_in(file, p);
        let label = number_in(file, p + 2);
        let to = number_in(file, p + 4);
        lined_hop(from, label, to, line_in(file, self.lines, i))
    }

    // All its hops with their lines, to the front of a hop list.
    pub fn take(self, hops: &mut [u16])
        requires { self.hops ≤ count hops.old }
        ensures { hops.new ≡
            on_front (hops_in_field self.entry.file.now self.entry.at self.entry.lines self.entry.hops) hops.old }
    {
        for i in 0..self.hops {
            put_hop(hops, i, self.hop_in(i));
        }
    }
}

// The bytes of a hop at a place of the output, without its line.
fn put_hop_bytes(out: &mut [u8], at: usize, h: Hop)
    requires { at + bytes_a_hop ≤ length out.old }
    ensures { out.new ≡ over_at at (hop_bytes h) out.old }
{
    put_number(out, at, h.from);
    put_number(out, at + 2, h.label);
    put_number(out, at + 4, h.to);
}

// All hops of a list, from a place of the output on.
fn put_each_hop(out: &mut [u8], at: usize, hops: &[u16])
    requires { at + bytes_a_hop * count hops.now ≤ length out.old }
    ensures { out.new ≡ over_at at (each_hop hops.now) out.old }
{
    for i in 0..hop_count(hops) {
        put_hop_bytes(out, at + BYTES_A_HOP * i, hop_at(hops, i));
    }
}

// The field of a hop list, at a place of the output.
pub fn put_field(out: &mut [u8], at: usize, hops: &[u16])
    requires few { count hops.now ≤ most_number }
    requires capacity { at + field_length (count hops.now) ≤ length out.old }
    ensures { out.new ≡ over_at at (field_bytes hops.now) out.old }
{
    put_number(out, at, hop_count(hops) as u16);
    put_each_hop(out, at + COUNT_BYTES, hops);
}
