// `read` and `write` for the C ABI: which figures each entry writes into the answer slice, and
// which number it returns.
// `capi` exports these functions unchanged. Where the answer slice is too short only the answer is
// computed, and the other output is left as it was.
// Uses `file_read` for `read`, `file_write` for `write`, and `c_answer` for what is written and
// returned.
#![tactic(auto)]

ghost use Rattle.std.specs.Prelude.{◌≡◌, length};
ghost use Rattle.file_read.specs.Read.{read_answer, read_of, read_hops};
ghost use Rattle.file_write.specs.Write.{write_answer, write_of, write_bytes};
ghost use Rattle.c_answer.specs.Numbers.{shape_of, returned, answer_after, unless_short};
ghost use Rattle.c_file.specs.Numbers.{contents_numbers, written_numbers};

use c_answer::{put_answer, put_figure_answer, short_number};
use file_read::Contents;
use file_read::reading::{check_read, read};
use file_write::Written;
use file_write::writing::{check_write, write};
use graph::Shape;
use graph::answers::answer_of;

// An answer, the graph's counts and initial state, and where its name block stands.
fn put_contents(out: &mut [u64], contents: Contents) -> u32
    ensures returns { result ≡ returned contents.answer 9 (length out.old) }
    ensures figures { out.new ≡ answer_after 9 (contents_numbers contents) out.old }
{
    let shape = contents.shape;
    let figures = [
        u64::from(shape.states),
        u64::from(shape.labels),
        u64::from(shape.initial),
        contents.hops as u64,
        contents.names_place as u64,
        contents.names_len as u64,
    ];
    put_answer(out, contents.answer, &figures)
}

// Where the answer slice is too short, only the answer is found, and no hops are written.
#[tactic(auto, using(c_answer::proofs::AnswerAfter::outputs, crate::proofs::Results::found_answer))]
pub fn read_into(file: &[u8], hops: &mut [u16], answer: &mut [u64]) -> u32
    ensures returns { result ≡ returned (read_answer file.now (length hops.old)) 9 (length answer.old) }
    ensures hops { hops.new ≡
        unless_short 9 answer.old (read_hops file.now hops.old) hops.old }
    ensures figures { answer.new ≡
        answer_after 9 (contents_numbers (read_of file.now (length hops.old))) answer.old }
{
    if answer.len() < 9 {
        let checked = check_read(file, hops.len());
        return short_number(answer_of(&checked), answer.len(), 9);
    }
    let contents = Contents::from(read(file, hops));
    put_contents(answer, contents)
}

// Where the answer slice is too short, only the answer is found, and no bytes are written.
#[tactic(auto, using(c_answer::proofs::AnswerAfter::outputs, crate::proofs::Results::written_answer))]
pub fn write_into(
    states: u32,
    labels: u32,
    initial: u32,
    hops: &[u16],
    names: &[u8],
    out: &mut [u8],
    answer: &mut [u64],
) -> u32
    ensures returns { result ≡
        returned
        (write_answer (shape_of states labels initial) hops.now names.now (length out.old))
        4
        (length answer.old) }
    ensures bytes { out.new ≡
        unless_short 4
        answer.old
        (write_bytes (shape_of states labels initial) hops.now names.now out.old)
        out.old }
    ensures figures { answer.new ≡
        answer_after 4
        (written_numbers (write_of (shape_of states labels initial) hops.now names.now (length out.old)))
        answer.old }
{
    let shape = Shape {
        states,
        labels,
        initial,
    };
    if answer.len() < 4 {
        let checked = check_write(shape, hops, names, out.len());
        return short_number(answer_of(&checked), answer.len(), 4);
    }
    let written = Written::from(write(shape, hops, names, out));
    put_figure_answer(answer, written.answer, written.length as u64)
}
