// The file of a graph, byte for byte: how long it is, and the file itself written to the front of
// an output.
// A bit is set, and a field written, only over what absence does not mean. `file_write` calls it
// once the graph and its names have passed every check.
// Uses `file_numbers` for numbers, `file_hops` and `file_lines` for the hop field and the lines,
// and `file_fields` for the places and the bits of the fields.
// What `as u16` narrows here is a count or a state, and the check proves that it fits.
#![tactic(auto)]

ghost use Rattle.std.specs.Prelude.{◌≡◌, ◌+◌, ◌≤◌, cond, length};
ghost use Rattle.graph.specs.Answers.{most_hops};
ghost use Rattle.graph.specs.Hops.{count};
ghost use Rattle.base_outputs.specs.Output.{on_front};
ghost use Rattle.base_outputs.specs.Internal.Output.{over_at};
ghost use Rattle.file_numbers.specs.Internal.Numbers.{most_number};
ghost use Rattle.file_fields.specs.Format.{initial_place};
ghost use Rattle.file_fields.specs.Internal.Field.{bit_of};
ghost use Rattle.file_lines.specs.LineField.{any_line};
ghost use Rattle.file_encode.specs.Encode.{bits_of, initial_bytes, hops_bytes, lines_bytes, head_bytes, encode};
ghost use Rattle.file_encode.specs.Internal.Encode.{Writable};

use file_fields::{Field, INITIAL_PLACE, LABELS_PLACE, STATES_PLACE};
use file_hops::hops::{field_length, put_field};
use file_lines::{has_line, lines_length, put_lines};
use file_numbers::put_number;
use graph::Shape;
use graph::hops::hop_count;

// How many bytes the initial state takes.
#[tactic(auto, unfolding(crate::specs::Encode::initial_bytes))]
fn initial_length(shape: Shape) -> usize
    ensures { result ≡ length (initial_bytes shape) }
{
    if shape.initial == 0 { 0 } else { 2 }
}

// How many bytes the hops take.
#[tactic(auto, using(crate::proofs::Encoded::length_hops_some), unfolding(crate::specs::Encode::hops_bytes))]
fn hops_length(hops: &[u16]) -> usize
    requires { count hops.now ≤ most_hops }
    ensures { result ≡ length (hops_bytes hops.now) }
{
    match hop_count(hops) {
        0 => 0,
        n => field_length(n as u16),
    }
}

// How many bytes the lines take.
#[tactic(auto, using(crate::proofs::Encoded::length_lines_some), unfolding(crate::specs::Encode::lines_bytes))]
fn lines_bytes(hops: &[u16]) -> usize
    requires { count hops.now ≤ most_hops }
    ensures { result ≡ length (lines_bytes hops.now) }
{
    if has_line(hops) {
        lines_length(hop_count(hops) as u16)
    } else {
        0
    }
}

// The bit of a field, where it is there.
fn bit_of(field: Field, there: bool) -> u8
    ensures { result ≡ cond there (bit_of field) 0 }
{
    if there { field.bit() } else { 0 }
}

#[tactic(auto, unfolding(crate::specs::Encode::bits_of))]
fn bits_of(shape: Shape, hops: &[u16], names: &[u8], lined: bool) -> u8
    requires { lined ≡ any_line hops.now }
    ensures { result ≡ bits_of shape hops.now names.now }
{
    bit_of(Field::Initial, shape.initial != 0)
        + bit_of(Field::Hops, hop_count(hops) != 0)
        + bit_of(Field::Names, !names.is_empty())
        + bit_of(Field::Lines, lined)
}

#[tactic(auto, using(base_outputs::proofs::Front::over_none), unfolding(crate::specs::Encode::initial_bytes))]
fn put_initial(out: &mut [u8], at: usize, shape: Shape)
    requires fits { shape.initial ≤ most_number }
    requires capacity { at + length (initial_bytes shape) ≤ length out.old }
    ensures { out.new ≡ over_at at (initial_bytes shape) out.old }
{
    if shape.initial != 0 {
        put_number(out, at, shape.initial as u16);
    }
}

#[tactic(auto, using(crate::proofs::Encoded::length_hops_some, base_outputs::proofs::Front::over_none), unfolding(crate::specs::Encode::hops_bytes))]
fn put_hops(out: &mut [u8], at: usize, hops: &[u16])
    requires few { count hops.now ≤ most_hops }
    requires capacity { at + length (hops_bytes hops.now) ≤ length out.old }
    ensures { out.new ≡ over_at at (hops_bytes hops.now) out.old }
{
    if hop_count(hops) != 0 {
        put_field(out, at, hops);
    }
}

#[tactic(auto, using(crate::proofs::Encoded::length_lines_some, base_outputs::proofs::Front::over_none), unfolding(crate::specs::Encode::lines_bytes))]
fn put_lines_of(out: &mut [u8], at: usize, hops: &[u16], lined: bool)
    requires lined { lined ≡ any_line hops.now }
    requires capacity { at + length (lines_bytes hops.now) ≤ length out.old }
    ensures { out.new ≡ over_at at (lines_bytes hops.now) out.old }
{
    if lined {
        put_lines(out, at, hops);
    }
}

// The names, byte by byte: as one copy they would need `memmove`, which the archive for C does not
// ask for.
fn put_names(out: &mut [u8], at: usize, names: &[u8])
    requires { at + length names.now ≤ length out.old }
    ensures { out.new ≡ over_at at names.now out.old }
{
    for i in 0..names.len() {
        out[at + i] = names[i];
    }
}

// Byte 0, the state count and the label count.
fn put_head(shape: Shape, bits: u8, out: &mut [u8])
    requires states { shape.states ≤ most_number }
    requires labels { shape.labels ≤ most_number }
    requires capacity { initial_place ≤ length out.old }
    ensures { out.new ≡ on_front (head_bytes shape bits) out.old }
{
    out[0] = bits;
    put_number(out, STATES_PLACE, shape.states as u16);
    put_number(out, LABELS_PLACE, shape.labels as u16);
}

// How many bytes the whole file takes.
pub fn encoded_length(shape: Shape, hops: &[u16], names: &[u8]) -> usize
    requires { count hops.now ≤ most_hops }
    ensures { result ≡ length (encode shape hops.now names.now) }
{
    INITIAL_PLACE
        + (initial_length(shape) + (hops_length(hops) + (names.len() + lines_bytes(hops))))
}

// The whole file, to the front of the output. Its length says whether there are lines, so that they
// are not searched for again.
#[tactic(auto, using(crate::proofs::Encoded::length_encode))]
pub fn put_file(shape: Shape, hops: &[u16], names: &[u8], size: usize, out: &mut [u8])
    requires writable { Writable shape hops.now names.now (length out.old) }
    requires size { size ≡ length (encode shape hops.now names.now) }
    ensures { out.new ≡ on_front (encode shape hops.now names.now) out.old }
{
    let hops_at = INITIAL_PLACE + initial_length(shape);
    let names_at = hops_at + hops_length(hops);
    let lines_at = names_at + names.len();
    let lined = lines_at < size;
    let bits = bits_of(shape, hops, names, lined);
    put_head(shape, bits, out);
    put_initial(out, INITIAL_PLACE, shape);
    put_hops(out, hops_at, hops);
    put_names(out, names_at, names);
    put_lines_of(out, lines_at, hops, lined);
}
