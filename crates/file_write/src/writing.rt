// The entry `write`: the answer of a graph and its block of names, and its file in the output.
ghost use Rattle.std.specs.Prelude.{◌≡◌, ◌<◌, length};
ghost use Rattle.graph.specs.Answers.{most_labels, answer_of};
ghost use Rattle.file_write.specs.Write.{block_answer, given_answer, write_answer, write_of, write_bytes, written_record};

use file_encode::{encoded_length, put_file};
use file_names::{end_of, first_bad};
use graph::{MOST_LABELS, Refusal, Shape};
use graph_check::check;

// Row 14 of a block of n names.
fn check_block(names: &[u8], n: usize) -> Result<(), Refusal>
    requires { n < most_labels }
    ensures { answer_of result ≡ block_answer names.now n }
{
    let end = end_of(names, n);
    if names.len() < end {
        return Err(Refusal::BadName(names.len()));
    }
    if end < names.len() {
        return Err(Refusal::BadName(end));
    }
    let mut places = [0u16; MOST_LABELS - 1];
    let bad = first_bad(names, n, &mut places);
    if bad < end {
        return Err(Refusal::BadName(bad));
    }
    Ok(())
}

// 1 to 4, then 14, of the graph and the block that are given: an empty block means no names.
pub fn check_given(shape: Shape, hops: &[u16], names: &[u8]) -> Result<(), Refusal>
    ensures { answer_of result ≡ given_answer shape hops.now names.now }
{
    check(shape, hops)?;
    if names.is_empty() {
        return Ok(());
    }
    let labels = shape.labels as usize;
    check_block(names, labels - 1)
}

// What writing is to return, before anything is written: 1 to 4, then 14, then 6, and the length of
// the file.
fn foreseen(shape: Shape, hops: &[u16], names: &[u8], capacity: usize) -> Result<usize, Refusal>
    ensures { written_record result ≡ write_of shape hops.now names.now capacity }
{
    check_given(shape, hops, names)?;
    let length = encoded_length(shape, hops, names);
    if capacity < length {
        return Err(Refusal::OutputTooShort);
    }
    Ok(length)
}

// The checks alone.
pub fn check_write(shape: Shape, hops: &[u16], names: &[u8], capacity: usize) -> Result<(), Refusal>
    ensures { answer_of result ≡ write_answer shape hops.now names.now capacity }
{
    foreseen(shape, hops, names, capacity)?;
    Ok(())
}

// The entry, which returns how many bytes it wrote. Nothing is written before the last check, 6,
// has passed.
pub fn write(shape: Shape, hops: &[u16], names: &[u8], out: &mut [u8]) -> Result<usize, Refusal>
    ensures answers { written_record result ≡ write_of shape hops.now names.now (length out.old) }
    ensures writes { out.new ≡ write_bytes shape hops.now names.now out.old }
{
    let length = foreseen(shape, hops, names, out.len())?;
    put_file(shape, hops, names, length, out);
    Ok(length)
}
