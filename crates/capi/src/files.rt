// Read and write.
ghost use Rattle.std.specs.Prelude.{◌≡◌, length};
ghost use Rattle.file_read.specs.Read.{read_answer, read_of, read_hops};
ghost use Rattle.file_write.specs.Write.{write_answer, write_of, write_bytes};
ghost use Rattle.c_answer.specs.Numbers.{shape_of, returned, answer_after, unless_short};
ghost use Rattle.c_file.specs.Numbers.{contents_numbers, written_numbers};

use c_file::{read_into, write_into};

#[unsafe(no_mangle)]
pub extern "C" fn zf_read(file: &[u8], hops: &mut [u16], answer: &mut [u64]) -> u32
    ensures returns { result ≡ returned (read_answer file.now (length hops.old)) 9 (length answer.old) }
    ensures hops { hops.new ≡
        unless_short 9 answer.old (read_hops file.now hops.old) hops.old }
    ensures figures { answer.new ≡
        answer_after 9 (contents_numbers (read_of file.now (length hops.old))) answer.old }
{
    read_into(file, hops, answer)
}

#[unsafe(no_mangle)]
pub extern "C" fn zf_write(
    states: u32,
    labels: u32,
    initial: u32,
    hops: &[u16],
    names: &[u8],
    out: &mut [u8],
    answer: &mut [u64],
) -> u32
    ensures returns { result ≡
        returned
        (write_answer (shape_of states labels initial) hops.now names.now (length out.old))
        4
        (length answer.old) }
    ensures bytes { out.new ≡
        unless_short 4
        answer.old
        (write_bytes (shape_of states labels initial) hops.now names.now out.old)
        out.old }
    ensures figures { answer.new ≡
        answer_after 4
        (written_numbers (write_of (shape_of states labels initial) hops.now names.now (length out.old)))
        answer.old }
{
    write_into(states, labels, initial, hops, names, out, answer)
}
