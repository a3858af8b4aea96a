// Tables hold places in 16 bits, and code counts in `usize`: here a place is read from a table.
ghost use Rattle.std.specs.Prelude.{◌≡◌, ◌<◌, get_or};

// The place that stands in the table at k: where the hops of a state begin, a queue, the fallen
// hops, the hops into a state.
pub fn place_at<const N: usize>(places: &[u16; N], k: usize) -> usize
    requires { k < N }
    ensures { result ≡ get_or places.now k 0 }
{
    usize::from(places[k])
}
