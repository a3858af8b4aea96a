// 16-bit little-endian numbers among the bytes of a file: a byte or a number read, and a number
// written ("All numbers are 16-bit, low byte first").
// A missing byte reads 0, so that what a file says can be asked before its length is known. It
// serves the fields, the hop field and the names of a file, and what writes one.
// Uses `base_outputs` for what is written.
#![tactic(auto)]

ghost use Rattle.std.specs.Prelude.{◌≡◌, ◌+◌, ◌≤◌, length, get_or};
ghost use Rattle.base_outputs.specs.Internal.Output.{over_at};
ghost use Rattle.file_numbers.specs.Internal.Numbers.{most_number};
ghost use Rattle.file_numbers.specs.Numbers.{number_at, number};

// The byte at a place, or 0 past the end.
pub fn byte_at(bytes: &[u8], i: usize) -> u8
    ensures { result ≡ get_or bytes.now i 0 }
{
    bytes.get(i).copied().unwrap_or(0)
}

// The number at a place, of which bytes may be missing.
pub fn number_at(bytes: &[u8], i: usize) -> u16
    requires { i ≤ most_number }
    ensures { result ≡ number_at bytes.now i }
{
    u16::from_le_bytes([byte_at(bytes, i), byte_at(bytes, i + 1)])
}

// The number at a place, of which both bytes are there.
pub fn number_in(bytes: &[u8], i: usize) -> u16
    requires { i + 2 ≤ length bytes.now }
    ensures { result ≡ number_at bytes.now i }
{
    u16::from_le_bytes([bytes[i], bytes[i + 1]])
}

// A number at a place of the output.
pub fn put_number(out: &mut [u8], at: usize, n: u16)
    requires { at + 2 ≤ length out.old }
    ensures { out.new ≡ over_at at (number n) out.old }
{
    out[at..at + 2].copy_from_slice(&n.to_le_bytes());
}
