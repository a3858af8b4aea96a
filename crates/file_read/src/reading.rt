// The entry `read`: the answer of a file, what it holds, and its hops in the output.
ghost use Rattle.std.specs.Prelude.{◌≡◌, IfOk, length};
ghost use Rattle.graph.specs.Answers.{answer_of};
ghost use Rattle.graph_check.specs.Check.{check_of};
ghost use Rattle.file_fields.specs.Format.{shape_in, hop_list_in};
ghost use Rattle.file_read.specs.Read.{read_answer, read_of, read_hops, contents_record};

use super::Decoded;
use file_fields::{ExactFile, block_place, hops_in, shape_in};
use file_format::check_format;
use graph::hops::number_place;
use graph::{MOST_HOPS, MOST_NUMBERS, Refusal};
use graph_check::check;

// 1 to 4, asked of a copy of the hops: a refusal must not have written any.
fn check_hops(exact: ExactFile<'_>) -> Result<(), Refusal>
    ensures { answer_of result ≡ check_of (shape_in exact.entry.bytes.now) (hop_list_in exact.entry.bytes.now) }
{
    let field = exact.hop_field();
    if MOST_HOPS < field.hops {
        return Err(Refusal::Counts);
    }
    let mut copy = [0u16; MOST_NUMBERS];
    field.take(&mut copy);
    let end = number_place(field.hops);
    check(shape_in(exact.bytes), &copy[..end])
}

// The checks, before anything is written: the format, then 1 to 4, then 6.
fn check_file(file: &[u8], capacity: usize) -> Result<ExactFile<'_>, Refusal>
    ensures answers { answer_of result ≡ read_answer file.now capacity }
    ensures same { IfOk result (λ exact. exact.bytes.now ≡ file.now) }
{
    let exact = check_format(file)?;
    check_hops(exact)?;
    if capacity < number_place(usize::from(hops_in(file))) {
        return Err(Refusal::OutputTooShort);
    }
    Ok(exact)
}

// The checks alone.
pub fn check_read(file: &[u8], capacity: usize) -> Result<(), Refusal>
    ensures { answer_of result ≡ read_answer file.now capacity }
{
    check_file(file, capacity)?;
    Ok(())
}

// The entry. Nothing is written before the last check, 6, has passed.
pub fn read(file: &[u8], hops: &mut [u16]) -> Result<Decoded, Refusal>
    ensures answers { contents_record result ≡ read_of file.now (length hops.old) }
    ensures writes { hops.new ≡ read_hops file.now hops.old }
{
    let exact = check_file(file, hops.len())?;
    let field = exact.hop_field();
    field.take(hops);
    Ok(Decoded {
        shape: shape_in(file),
        hops: field.hops,
        names_place: block_place(file),
        names_len: exact.block_length(),
    })
}
