// The comparison of hops: each hop has one sum (a 64-bit key), and two hops are compared by one
// comparison of their sums.
// What that means is defined by from, label and to (specs/Order, specs/Hops): which hop comes
// first, and which are alike.
// They are functions and no `<` and `==` of a `Hop`: these would have to pass over its line, and
// what `==` calls equal may stand for the other everywhere else.
ghost use Rattle.std.specs.Prelude.{◌≡◌, ltb};
ghost use Rattle.graph.specs.Hops.{same};
ghost use Rattle.graph.specs.Order.{before};
ghost use Rattle.graph.specs.Internal.Sum.{sum_of, Narrow};

use super::Hop;

// A hop's sum. That sums have the order of their hops depends on the width of a hop's numbers, so
// the contract states that too.
pub fn sum_of(h: Hop) -> u64
    ensures sum { result ≡ sum_of h }
    ensures narrow { Narrow h }
{
    (u64::from(h.from) * 65536 + u64::from(h.label)) * 65536 + u64::from(h.to)
}

// Whether one sum is below another. Whoever keeps a hop's sum asks here, and all others by hops.
pub fn is_below(sum: u64, other: u64) -> bool
    ensures { result ≡ ltb sum other }
{
    sum < other
}

// Whether hop a comes before hop b.
pub fn is_before(a: Hop, b: Hop) -> bool
    ensures { result ≡ before a b }
{
    is_below(sum_of(a), sum_of(b))
}

// Whether hops a and b are alike.
pub fn is_same(a: Hop, b: Hop) -> bool
    ensures { result ≡ same a b }
{
    sum_of(a) == sum_of(b)
}
