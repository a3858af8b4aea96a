// What the program prints of a file.
ghost use Rattle.std.specs.Prelude.{◌≡◌, ◌+◌, ◌≤◌, length};
ghost use Rattle.graph_check.specs.Check.{Admitted};
ghost use Rattle.graph_successors.specs.Internal.SuccessorIndex.{SuccessorIndex};
ghost use Rattle.reduce_representatives.specs.Reducible.{Reducible};
ghost use Rattle.base_outputs.specs.Output.{on_front};
ghost use Rattle.report_text.specs.Internal.Text.{TextWritten};
ghost use Rattle.report_entry.specs.Report.{most_text, report_of, printed_graph, printed_of, printed_in};
ghost use Rattle.report_entry.specs.Internal.Printed.{PrintedOr};

use file_read::reading::read;
use graph::hops::part;
use graph::{Answer, MOST_HOPS, MOST_NUMBERS, MOST_STATES, Refusal, Shape};
use graph_index::{Index, Indexed};
use graph_successors::{STARTS, put_starts};
use reduce_strong::reduce_strong;
use report_rows::{put_refusal, put_report};
use report_text::Text;
use walk_rings::{Ringless, check_rings};

// The longest input that is looked at.
pub const MOST_INPUT: usize = 65536;

// 13 bytes for `in`, 14 a state, 19 for `out`, and 25 a hop, which is either marked or becomes a
// short hop: 116,768 for the largest graph.
pub const MOST_TEXT: usize = 13 + 14 * MOST_STATES + 19 + 25 * MOST_HOPS;

// The report of a graph that every row lets pass.
// `capacity` is a clause each time: a type that kept it would break with the first line written.
// The hops are lent by themselves: of a list in a struct it is not known that numbers have 16 bits.
fn print_reduced(text: &mut Text, shape: Shape, hops: &[u16], starts: &[u16; STARTS])
    requires reducible { Reducible shape hops.now }
    requires table { SuccessorIndex hops.now starts.now }
    requires capacity { text.old.at + most_text ≤ length text.old.out.now }
    ensures { TextWritten text.old (report_of shape hops.now) text.new }
{
    let mut marks = [0u8; MOST_HOPS];
    let mut map = [0u16; MOST_STATES];
    let mut short = [0u16; MOST_NUMBERS];
    let index = Index { hops, starts };
    let graph = Indexed { shape, index };
    let made = reduce_strong(Ringless { graph }, &mut marks, &mut map, &mut short);
    put_report(
        text,
        shape,
        hops,
        &marks,
        &map,
        made.shape,
        part(&short, 0, made.hops),
    );
}

// The report of an admitted graph, or its refusal by row 5.
fn print_graph(text: &mut Text, shape: Shape, hops: &[u16]) -> Result<(), Refusal>
    requires admitted { Admitted shape hops.now }
    requires capacity { text.old.at + most_text ≤ length text.old.out.now }
    ensures { PrintedOr result text.old (printed_graph shape hops.now) text.new }
{
    let mut starts = [0u16; STARTS];
    put_starts(hops, &mut starts);
    let index = Index {
        hops,
        starts: &starts,
    };
    check_rings(Indexed { shape, index })?;
    print_reduced(text, shape, hops, &starts);
    Ok(())
}

// The same of whatever was read from standard input, which may be too long to be looked at. Reading
// has checked the graph, so that nothing is checked, searched for rings or marked twice.
fn print_contents(text: &mut Text, file: &[u8]) -> Result<(), Refusal>
    requires { text.old.at + most_text ≤ length text.old.out.now }
    ensures { PrintedOr result text.old (printed_of file.now) text.new }
{
    if MOST_INPUT < file.len() {
        return Err(Refusal::FileTooLong(MOST_INPUT));
    }
    let mut hops = [0u16; MOST_NUMBERS];
    let contents = read(file, &mut hops)?;
    print_graph(text, contents.shape, part(&hops, 0, contents.hops))
}

// What is printed of it: its report, or its refusal.
fn print_input(text: &mut Text, file: &[u8])
    requires { text.old.at + most_text ≤ length text.old.out.now }
    ensures { TextWritten text.old (printed_of file.now) text.new }
{
    if let Err(refusal) = print_contents(text, file) {
        put_refusal(text, Answer::from(refusal));
    }
}

// The entry. What is printed stands at the front of the buffer, and its length is returned; a
// buffer too short for the longest report gets nothing.
pub fn print_file(file: &[u8], out: &mut [u8]) -> usize
    ensures counts { result ≡ length (printed_in (length out.old) (printed_of file.now)) }
    ensures shows { out.new ≡ on_front (printed_in (length out.old) (printed_of file.now)) out.old }
    ensures within { result ≤ length out.new }
{
    if out.len() < MOST_TEXT {
        return 0;
    }
    let mut text = Text { out, at: 0 };
    print_input(&mut text, file);
    text.at
}
