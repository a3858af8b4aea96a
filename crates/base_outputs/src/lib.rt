// What the caller's slice (an output) holds after a function wrote into it, and that nothing else
// in it changed.
// The entries that write marks, a map, hops, a file or text state it by the definitions of
// specs/Output: the new elements at the front or at a place, the old ones around them, and after a
// refusal all the old ones. The laws (proofs/Front) extend such an output element by element. Two
// functions copy elements into an output.
// Uses `base_bounded` for lists of values below a bound.
#![tactic(auto)]

ghost use Rattle.std.specs.Prelude.{◌≡◌, ◌+◌, ◌≤◌, length};
ghost use Rattle.base_outputs.specs.Output.{on_front};
ghost use Rattle.base_outputs.specs.Internal.Output.{over_at};

// The elements at a place of the output.
pub fn put_at<T: Copy>(out: &mut [T], at: usize, items: &[T])
    requires { at + length items.now ≤ length out.old }
    ensures { out.new ≡ over_at at items.now out.old }
{
    out[at..at + items.len()].copy_from_slice(items);
}

// The elements at the front of the output.
pub fn put_front<T: Copy>(out: &mut [T], items: &[T])
    requires { length items.now ≤ length out.old }
    ensures { out.new ≡ on_front items.now out.old }
{
    out[..items.len()].copy_from_slice(items);
}
