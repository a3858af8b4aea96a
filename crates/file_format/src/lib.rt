// Whether a file is well formed, before its graph is checked: whether it holds just what its own
// numbers say.
// The checks come in this order: over-length, high bits, 11 (too short), left over, the rest of 12
// (a bit over a field that holds what absence means), 14 (a bad name). `file_read` asks this first.
// Uses `file_fields` for the layout and `file_names` for the search for a bad name.
#![tactic(auto)]

ghost use Rattle.std.specs.Prelude.{◌≡◌, IfOk};
ghost use Rattle.graph.specs.Answers.{answer_of};
ghost use Rattle.file_format.specs.Internal.Rows.{RestAt};
ghost use Rattle.file_format.specs.Rows.{format_answer};

use file_fields::{ExactFile, INITIAL_PLACE, line_bytes_in, names_in, names_place};
use file_hops::hops::MOST_FIELD_BYTES;
use file_lines::MOST_LINE_BYTES;
use file_names::{LEAST_NAME_BYTES, MOST_NAME_BYTES, MOST_PLACE, end_of, first_bad};
use file_numbers::byte_at;
use graph::{MOST_LABELS, Refusal};

// The longest legal file, 66,536 bytes: the head with an initial state, 4,096 hops, 1,023 names of
// 32 bytes, and 4,096 lines.
const MOST_BYTES: usize = INITIAL_PLACE
    + 2
    + MOST_FIELD_BYTES
    + MOST_NAME_BYTES * (MOST_LABELS - 1)
    + MOST_LINE_BYTES;

// Row 14 is checked before row 1, so a file may have more than 1,023 names here. The table has an
// entry for every name whose place goes into it: a name that passes takes two bytes at least.
const PLACES: usize = (MOST_PLACE + 1) / LEAST_NAME_BYTES;

// From row 11 on, where the rest of the file begins at `place`.
fn check_rest<'a>(file: &'a [u8], rest: &[u8], place: usize) -> Result<ExactFile<'a>, Refusal>
    requires { RestAt file.now rest.now place }
    ensures answers { answer_of result ≡ format_answer file.now }
    ensures same { IfOk result (λ exact. exact.bytes.now ≡ file.now) }
{
    let n = usize::from(names_in(file));
    let names_end = end_of(rest, n);
    let end = names_end + line_bytes_in(file);
    if rest.len() < end {
        return Err(Refusal::FileTooShort(file.len()));
    }
    if end < rest.len() {
        return Err(Refusal::FileTooLong(place + end));
    }
    let exact = ExactFile { bytes: file };
    if exact.redundant_bit() {
        return Err(Refusal::FileBits);
    }
    let mut places = [0u16; PLACES];
    let bad = first_bad(rest, n, &mut places);
    if bad < names_end {
        return Err(Refusal::BadName(place + bad));
    }
    Ok(exact)
}

// Over-length, high bits, 11, left over, the rest of 12, 14. A file that passes has the length that
// its own numbers ask, and is returned as such.
pub fn check_format(file: &[u8]) -> Result<ExactFile<'_>, Refusal>
    ensures answers { answer_of result ≡ format_answer file.now }
    ensures same { IfOk result (λ exact. exact.bytes.now ≡ file.now) }
{
    if MOST_BYTES < file.len() {
        return Err(Refusal::FileTooLong(MOST_BYTES));
    }
    if 16 <= byte_at(file, 0) {
        return Err(Refusal::FileBits);
    }
    let place = names_place(file);
    if file.len() < place {
        return Err(Refusal::FileTooShort(file.len()));
    }
    check_rest(file, &file[place..], place)
}
