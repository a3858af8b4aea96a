// The lines of the program's report, written into a buffer one behind the other: `in`, the marked
// hops, the map, `out` and the short hops; or the one line of a refusal.
// `report_entry` calls it when all that is printed has been computed.
// Uses `graph` for what stands at a place and `report_text` for how a line is written.
#![tactic(auto)]

ghost use Rattle.std.specs.Prelude.{◌<◌, ◌≤◌, length};
ghost use Rattle.graph.specs.Answers.{most_states};
ghost use Rattle.graph.specs.Hops.{count};
ghost use Rattle.report_text.specs.Internal.Text.{HasCapacity, TextWritten};
ghost use Rattle.report_rows.specs.Internal.Rows.{by_place, marked_lines, map_lines, hop_lines, lent_lines};
ghost use Rattle.report_rows.specs.Rows.{marked_line, hop_line, refusal_of};

use graph::hops::{from_at, hop_count, label_at, line_at, new_from_at, new_to_at, to_at};
use graph::map::map_at;
use graph::{Answer, OldState, Shape};
use report_text::Text;

// "A refusal prints only `no`, number, place."
pub fn put_refusal(text: &mut Text, answer: Answer)
    requires { HasCapacity text.old (refusal_of answer) }
    ensures { TextWritten text.old (refusal_of answer) text.new }
{
    text.put_line(b"no", &[answer.number as usize, answer.place]);
}

// The line of a marked hop, and none of another.
fn put_mark(text: &mut Text, hops: &[u16], marks: &[u8], i: usize)
    requires there { i < count hops.now }
    requires marked { i < length marks.now }
    requires capacity { HasCapacity text.old (marked_line hops.now (by_place marks.now) i) }
    ensures { TextWritten text.old (marked_line hops.now (by_place marks.now) i) text.new }
{
    let is_marked = marks[i] == 1;
    if is_marked {
        let from = usize::from(from_at(hops, i).0);
        let to = usize::from(to_at(hops, i).0);
        text.put_line(b"marked", &[from, to]);
    }
}

fn put_marks(text: &mut Text, hops: &[u16], marks: &[u8])
    requires marked { count hops.now ≤ length marks.now }
    requires capacity { HasCapacity text.old (marked_lines hops.now marks.now) }
    ensures { TextWritten text.old (marked_lines hops.now marks.now) text.new }
{
    for i in 0..hop_count(hops) {
        put_mark(text, hops, marks, i);
    }
}

fn put_map(text: &mut Text, map: &[u16])
    requires few { length map.now ≤ most_states }
    requires capacity { HasCapacity text.old (map_lines (length map.now) map.now) }
    ensures { TextWritten text.old (map_lines (length map.now) map.now) text.new }
{
    for s in 0..map.len() {
        let new = map_at(map, OldState(s as u16));
        text.put_line(b"map", &[s, usize::from(new.0)]);
    }
}

// The line of a short hop, by new numbers, its source line last.
fn put_hop_line(text: &mut Text, short: &[u16], i: usize)
    requires there { i < count short.now }
    requires capacity { HasCapacity text.old (hop_line short.now i) }
    ensures { TextWritten text.old (hop_line short.now i) text.new }
{
    let from = usize::from(new_from_at(short, i).0);
    let label = usize::from(label_at(short, i).0);
    let to = usize::from(new_to_at(short, i).0);
    let source = usize::from(line_at(short, i));
    text.put_line(b"hop", &[from, label, to, source]);
}

fn put_hops(text: &mut Text, short: &[u16])
    requires { HasCapacity text.old (hop_lines short.now) }
    ensures { TextWritten text.old (hop_lines short.now) text.new }
{
    for i in 0..hop_count(short) {
        put_hop_line(text, short, i);
    }
}

// The whole report.
pub fn put_report(
    text: &mut Text,
    shape: Shape,
    hops: &[u16],
    marks: &[u8],
    map: &[u16],
    new: Shape,
    short: &[u16],
)
    requires marked { count hops.now ≤ length marks.now }
    requires mapped { shape.states ≤ length map.now }
    requires few { shape.states ≤ most_states }
    requires capacity { HasCapacity text.old (lent_lines shape hops.now marks.now map.now new short.now) }
    ensures { TextWritten text.old (lent_lines shape hops.now marks.now map.now new short.now) text.new }
{
    let states = shape.states as usize;
    text.put_line(b"in", &[states, hop_count(hops)]);
    put_marks(text, hops, marks);
    put_map(text, &map[..states]);
    text.put_line(
        b"out",
        &[new.states as usize, hop_count(short), new.initial as usize],
    );
    put_hops(text, short);
}
