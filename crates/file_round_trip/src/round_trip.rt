// The two round trips over the entries: a file read and written again, and a graph written and read
// again.
ghost use Rattle.std.specs.Prelude.{◌≡◌, length};
ghost use Rattle.file_read.specs.Read.{contents_record};
ghost use Rattle.file_write.specs.Write.{written_record};
ghost use Rattle.file_round_trip.specs.RoundTrip.{copy_of, copy_bytes, back_of, back_bytes, back_hops};

use file_read::Decoded;
use file_read::reading::read;
use file_write::writing::{check_given, write};
use graph::hops::number_place;
use graph::{MOST_NUMBERS, Refusal, Shape};

// Reads the file and writes what was read: the output has the same bytes.
pub fn copy_file(file: &[u8], out: &mut [u8]) -> Result<usize, Refusal>
    ensures answers { written_record result ≡ copy_of file.now (length out.old) }
    ensures writes { out.new ≡ copy_bytes file.now out.old }
{
    let mut hops = [0u16; MOST_NUMBERS];
    let found = read(file, &mut hops)?;
    let n = number_place(found.hops);
    let start = found.names_place;
    let end = start + found.names_len;
    write(found.shape, &hops[..n], &file[start..end], out)
}

// Writes the graph and reads what was written: the same graph comes back, with the same block at
// the place that is named.
pub fn graph_back(
    shape: Shape,
    hops: &[u16],
    names: &[u8],
    file: &mut [u8],
    again: &mut [u16],
) -> Result<Decoded, Refusal>
    ensures answers { contents_record result ≡
        back_of shape hops.now names.now (length file.old) (length again.old) }
    ensures file { file.new ≡ back_bytes shape hops.now names.now file.old (length again.old) }
    ensures hops { again.new ≡ back_hops shape hops.now names.now (length file.old) again.old }
{
    check_given(shape, hops, names)?;
    if again.len() < hops.len() {
        return Err(Refusal::OutputTooShort);
    }
    let length = write(shape, hops, names, file)?;
    read(&file[..length], again)
}
