// Which source line is kept where several hops (transitions) become one: the smallest that is not
// 0.
// It serves whatever sorts hops and merges those that are alike.
// Uses `graph` for hops.
#![tactic(auto)]

ghost use Rattle.std.specs.Prelude.{◌≡◌};
ghost use Rattle.reduce_smallest_line.specs.Lines.{lesser_line, merged_hop};

use graph::Hop;
use graph::hops::lined_hop;

// The smaller of two lines that is not 0, or 0.
#[tactic(auto, unfolding(crate::specs::Lines::lesser_line))]
fn lesser_line(a: u16, b: u16) -> u16
    ensures { result ≡ lesser_line a b }
{
    match (a, b) {
        (0, line) | (line, 0) => line,
        _ => a.min(b),
    }
}

// What is kept of two hops that are alike.
pub fn merge(x: Hop, h: Hop) -> Hop
    ensures { result ≡ merged_hop x h }
{
    lined_hop(x.from, x.label, x.to, lesser_line(x.line, h.line))
}
