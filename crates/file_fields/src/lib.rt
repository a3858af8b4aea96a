// The layout of a file: where its fields lie and what they hold, as its own numbers say it.
// The fields are byte 0 with its bits, the state and label counts, the initial state, the hop
// field, the name block (label table) and the list of lines. `file_format` asks whether a file
// holds what its numbers say, `file_read` returns what they hold. A missing byte reads 0, so all of
// this but what lies behind the hops can be asked of any bytes. Where the names end is found from
// the file's end, so it is asked only of an `ExactFile`, which has the length that its numbers say.
// Uses `file_numbers`, `file_lines` and `file_hops` for the single fields.
#![tactic(auto)]

ghost use Rattle.std.specs.Prelude.{◌≡◌, ◌&&◌, length};
ghost use Rattle.file_lines.specs.LineField.{zero_lines};
ghost use Rattle.file_fields.specs.Internal.Field.{bit_of, has_field};
ghost use Rattle.file_fields.specs.Format.{has_lines, initial_in, hops_place, hops_in, names_place, names_in};
ghost use Rattle.file_fields.specs.Format.{lines_place, line_bytes_in, lines_in, needed_length, shape_in, block_place, block_length, redundant_bit};

use file_hops::hops::{HopField, field_length};
use file_lines::{are_zero, lines_length};
use file_numbers::{byte_at, number_at};
use graph::Shape;

// Where the numbers stand that are always there, and where the initial state would.
pub const STATES_PLACE: usize = 1;

pub const LABELS_PLACE: usize = 3;

pub const INITIAL_PLACE: usize = 5;

// A field that is there only where its bit stands in byte 0.
#[derive(Clone, Copy)]
pub enum Field {
    Initial,
    Hops,
    Names,
    Lines,
}

impl Field {
    // Its bit, as a number.
    pub fn bit(self) -> u8
        ensures { result ≡ bit_of self }
    {
        match self {
            Field::Initial => 1,
            Field::Hops => 2,
            Field::Names => 4,
            Field::Lines => 8,
        }
    }
}

// Whether the bit of a field stands.
pub fn has(file: &[u8], field: Field) -> bool
    ensures { result ≡ has_field file.now field }
{
    byte_at(file, 0) & field.bit() != 0
}

#[tactic(auto, unfolding(crate::specs::Format::initial_in))]
pub fn initial_in(file: &[u8]) -> u16
    ensures { result ≡ initial_in file.now }
{
    if has(file, Field::Initial) {
        number_at(file, INITIAL_PLACE)
    } else {
        0
    }
}

#[tactic(auto, unfolding(crate::specs::Format::hops_place))]
pub fn hops_place(file: &[u8]) -> usize
    ensures { result ≡ hops_place file.now }
{
    if has(file, Field::Initial) {
        INITIAL_PLACE + 2
    } else {
        INITIAL_PLACE
    }
}

#[tactic(auto, using(crate::proofs::Laws::hops_place_most), unfolding(crate::specs::Format::hops_in))]
pub fn hops_in(file: &[u8]) -> u16
    ensures { result ≡ hops_in file.now }
{
    if has(file, Field::Hops) {
        number_at(file, hops_place(file))
    } else {
        0
    }
}

// Where the names begin, if there are any.
#[tactic(auto, using(crate::proofs::Laws::hops_place_most), unfolding(crate::specs::Format::names_place))]
pub fn names_place(file: &[u8]) -> usize
    ensures { result ≡ names_place file.now }
{
    let place = hops_place(file);
    if has(file, Field::Hops) {
        place + field_length(hops_in(file))
    } else {
        place
    }
}

// How many names the file has: none for label counts 0 and 1.
#[tactic(auto, unfolding(crate::specs::Format::names_in))]
pub fn names_in(file: &[u8]) -> u16
    ensures { result ≡ names_in file.now }
{
    if has(file, Field::Names) {
        number_at(file, LABELS_PLACE).saturating_sub(1)
    } else {
        0
    }
}

// How many bytes the lines take.
#[tactic(auto, unfolding(crate::specs::Format::line_bytes_in))]
pub fn line_bytes_in(file: &[u8]) -> usize
    ensures { result ≡ line_bytes_in file.now }
{
    if has(file, Field::Lines) {
        lines_length(hops_in(file))
    } else {
        0
    }
}

#[tactic(auto, unfolding(crate::specs::Format::shape_in))]
pub fn shape_in(file: &[u8]) -> Shape
    ensures { result ≡ shape_in file.now }
{
    Shape {
        states: u32::from(number_at(file, STATES_PLACE)),
        labels: u32::from(number_at(file, LABELS_PLACE)),
        initial: u32::from(initial_in(file)),
    }
}

// The place of the block of names: 0 without names.
#[tactic(auto, unfolding(crate::specs::Format::block_place))]
pub fn block_place(file: &[u8]) -> usize
    ensures { result ≡ block_place file.now }
{
    if has(file, Field::Names) {
        names_place(file)
    } else {
        0
    }
}

// A file of just the length that its own numbers ask, so that the place of its lines is known from
// its end. `file_format` makes one where rows 11 and 13 let a file pass.
#[derive(Clone, Copy)]
pub struct ExactFile<'a> {
    pub bytes: &'a [u8],
    ghost exact: { needed_length bytes.now ≡ length bytes.now },
}

impl<'a> ExactFile<'a> {
    // Where the lines begin, if there are any: where the names end. The lines are the last field,
    // so no length of a name is read again.
    #[tactic(auto, unfolding(crate::specs::Format::needed_length))]
    fn lines_place(self) -> usize
        ensures { result ≡ lines_place self.entry.bytes.now }
    {
        self.bytes.len() - line_bytes_in(self.bytes)
    }

    // Where the lines begin, or none where there are none.
    #[tactic(auto, unfolding(crate::specs::Format::lines_in))]
    pub fn lines_in(self) -> Option<usize>
        ensures { result ≡ lines_in self.entry.bytes.now }
    {
        if has(self.bytes, Field::Lines) {
            Some(self.lines_place())
        } else {
            None
        }
    }

    // Its hops, with their lines.
    pub fn hop_field(self) -> HopField<'a>
        ensures file { result.file.now ≡ self.entry.bytes.now }
        ensures at { result.at ≡ hops_place self.entry.bytes.now }
        ensures lines { result.lines ≡ lines_in self.entry.bytes.now }
        ensures hops { result.hops ≡ hops_in self.entry.bytes.now }
    {
        let file = self.bytes;
        HopField {
            file,
            at: hops_place(file),
            lines: self.lines_in(),
            hops: usize::from(hops_in(file)),
        }
    }

    // The length of the block of names, which ends where the lines begin: 0 without names.
    #[tactic(auto, using(crate::proofs::Laws::names_before_lines), unfolding(crate::specs::Format::block_length))]
    pub fn block_length(self) -> usize
        ensures { result ≡ block_length self.entry.bytes.now }
    {
        if has(self.bytes, Field::Names) {
            self.lines_place() - names_place(self.bytes)
        } else {
            0
        }
    }

    // Whether bit 3 stands over lines that are all 0.
    #[tactic(auto, using(crate::proofs::Laws::lines_on), unfolding(crate::specs::Format::needed_length))]
    fn redundant_lines(self) -> bool
        ensures { result ≡
            (has_lines self.entry.bytes.now
            && zero_lines self.entry.bytes.now (lines_place self.entry.bytes.now) (hops_in self.entry.bytes.now)) }
    {
        let file = self.bytes;
        has(file, Field::Lines) && are_zero(file, self.lines_place(), usize::from(hops_in(file)))
    }

    // Row 12: a bit over a field that holds what absence means.
    #[tactic(auto, unfolding(crate::specs::Format::redundant_bit))]
    pub fn redundant_bit(self) -> bool
        ensures { result ≡ redundant_bit self.entry.bytes.now }
    {
        let file = self.bytes;
        (has(file, Field::Initial) && initial_in(file) == 0)
            || (has(file, Field::Hops) && hops_in(file) == 0)
            || (has(file, Field::Names) && number_at(file, LABELS_PLACE) <= 1)
            || self.redundant_lines()
    }
}
